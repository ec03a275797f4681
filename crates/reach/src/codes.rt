// Sets of completion codes, and the operations of Figures 5 and 6 on them.
ghost use Rattle.std.specs.Prelude.{◌≡◌, ◌≤◌, ◌<◌};
ghost use Rattle.esterel.specs.Codes as set;
ghost use Rattle.reach.specs.inner.CodeSets.{place_of, followed_by};

use esterel::{Code, Label};
use std::marker::Model;
use std::ops::BitOr;

// The labels whose code 1 is in the set, and the word of its other codes: bit 0 for code 0, bit k − 1 for a code k of 2 and
// up. Code 1 needs no bit there, so codes 0 to 64 fit. Clauses see the set of esterel that the words stand for.
#[derive(Clone, Copy, PartialEq, Eq)]
pub struct CodeSet {
    labels: u64,
    codes: u64,
}

impl Model for CodeSet {
    ghost use Rattle.esterel.specs.Codes.{Codes};

    ghost Value = { Codes };

    ghost use Rattle.reach.specs.inner.CodeSets.{codes_of, words_of, words_back};

    ghost view = { codes_of };

    ghost inverse = { words_of };

    ghost inverse_ok = { λ a h. words_back a };
}

// The place of a code in the word of codes; code 1 has none.
fn place_of(code: Code) -> u16
    ensures { result ≡ place_of code.0 }
{
    code.0.saturating_sub(1)
}

impl CodeSet {
    pub fn none() -> CodeSet
        ensures { result ≡ set.none }
    {
        CodeSet {
            labels: 0,
            codes: 0,
        }
    }

    pub fn just_ended() -> CodeSet
        ensures { result ≡ set.just_ended }
    {
        CodeSet {
            labels: 0,
            codes: 1 << place_of(Code::ENDED),
        }
    }

    // Clauses ask for a label below 64, which its type doesn't say: a narrower one would ask more of those who make a label.
    pub fn just_at(label: Label) -> CodeSet
        requires { label.0 < 64 }
        ensures { result ≡ set.just_at label.0 }
    {
        CodeSet {
            labels: 1 << label.0,
            codes: 0,
        }
    }

    // The set of one code of 2 and up.
    pub fn just_code(code: Code) -> CodeSet
        requires { (2 ≤ code.0) × (code.0 ≤ 64) }
        ensures { result ≡ set.just_code code.0 }
    {
        CodeSet {
            labels: 0,
            codes: 1 << place_of(code),
        }
    }

    // Whether 0 is in the set.
    pub fn ends(self) -> bool
        ensures { result ≡ self.ends }
    {
        self.codes & 1 == 1
    }

    pub fn labels(self) -> u64
        ensures { result ≡ self.pausing }
    {
        self.labels
    }

    pub fn minus_zero(self) -> CodeSet
        ensures { result ≡ set.minus_zero self }
    {
        CodeSet {
            codes: self.codes >> 1 << 1,
            ..self
        }
    }

    pub fn through_try(self) -> CodeSet
        ensures { result ≡ set.through_try self }
    {
        CodeSet {
            codes: self.codes & 1 | self.codes >> 1,
            ..self
        }
    }

    // The codes of one statement followed by another. Inlined like the two below, as measured faster.
    #[inline(always)]
    pub fn followed_by(self, next: CodeSet) -> CodeSet
        ensures { result ≡ followed_by self next }
    {
        if self.ends() {
            self.minus_zero() | next
        } else {
            self
        }
    }

    // The codes of the set that are no lower than some code of the other: 0 is below a label, a label below a code of 2 and up.
    #[inline(always)]
    fn no_lower_than(self, other: CodeSet) -> CodeSet
        ensures { result ≡ set.no_lower_than self other }
    {
        if other.ends() {
            return self;
        }
        if other.labels != 0 {
            return self.minus_zero();
        }
        CodeSet {
            labels: 0,
            codes: not_below(self.codes, other.codes),
        }
    }

    #[inline(always)]
    pub fn maximum(self, other: CodeSet) -> CodeSet
        ensures { result ≡ set.maximum self other }
    {
        self.no_lower_than(other) | other.no_lower_than(self)
    }
}

// The union of two sets.
impl BitOr for CodeSet {
    type Output = CodeSet;

    ghost bitor_gives = { λ a b r. r ≡ set.join a b };

    fn bitor(self, rhs: CodeSet) -> CodeSet {
        CodeSet {
            labels: self.labels | rhs.labels,
            codes: self.codes | rhs.codes,
        }
    }
}

// The members of `a` that are no lower than some member of `b`.
fn not_below(a: u64, b: u64) -> u64
    ensures { result ≡ set.not_below a a b }
{
    if b == 0 {
        return 0;
    }
    let least = b.trailing_zeros();
    a >> least << least
}
