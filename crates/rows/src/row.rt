// A row in two words. Only this file knows how it is put together.
#![tactic(auto, using(crate::proofs::Words::put_together, crate::proofs::Rules::unless_none, crate::proofs::Rules::unless_one), unfolding(crate::specs::inner::Layout::unpacked_words, crate::specs::inner::Layout::unpacked))]

ghost use Rattle.std.specs.Prelude.{◌≡◌, true, ◌<◌, ◌^◌, eqb};
ghost use Rattle.sets.specs.Set.{◌union◌};
ghost use Rattle.esterel.specs.Listing.{reaction};
ghost use Rattle.esterel.specs.inner.Conditions.{always, holds, both};
ghost use Rattle.esterel.specs.inner.Rows.{row_when};
ghost use Rattle.rows.specs.inner.Layout.{unpacked};
ghost use Rattle.rows.specs.inner.Rules.{unless_clash};
ghost use Rattle.rows.specs.inner.Area.{optional};

use crate::condition::{CONDITIONS, Condition};
use esterel::Code;

// How many codes there are.
const CODES: u64 = 256;

// O, k and the condition, (O * 256 + k) * 2^24 + condition, and L. Rows are in the order of the first word, and then of L. It stays in
// two words: of fields of their own it would take 24 bytes for 16, and the largest area has 3,905 rows on a stack of 100 KiB.
#[derive(Clone, Copy, PartialEq, Eq, PartialOrd, Ord)]
pub struct Row {
    word: u64,
    labels: u64,
}

impl Row {
    // The row of `nothing`.
    pub const NOTHING: Row = Row { word: 0, labels: 0 };

    // A code stays esterel's, of 16 bits, and that it fits a byte stays asked: a narrower type would ask it of all who make codes.
    pub fn new(emitted: u64, code: Code, condition: Condition, labels: u64) -> Row
        requires { (emitted < 2 ^ 32) × (code.0 < 256) }
        ensures { unpacked result ≡ row_when condition (reaction emitted code.0 labels) }
    {
        Row {
            word: (emitted * CODES + code.0 as u64) * CONDITIONS + condition.bits(),
            labels,
        }
    }

    pub fn emitted(self) -> u64
        ensures { (result ≡ (unpacked self).reacts.emitted) × (result < 2 ^ 32) }
    {
        self.word / CONDITIONS / CODES
    }

    pub fn code(self) -> Code
        ensures { (result.0 ≡ (unpacked self).reacts.code) × (result.0 < 256) }
    {
        Code((self.word / CONDITIONS % CODES) as u16)
    }

    pub fn labels(self) -> u64
        ensures { result ≡ (unpacked self).reacts.reached }
    {
        self.labels
    }

    pub(crate) fn condition(self) -> Condition
        ensures { result ≡ (unpacked self).when }
    {
        Condition::of_word(self.word)
    }

    pub fn is_unconditional(self) -> bool
        ensures { result ≡ true → (unpacked self).when ≡ always }
    {
        self.condition().is_always()
    }

    // Whether a set of slots meets the condition.
    pub fn meets(self, slots: u64) -> bool
        ensures { result ≡ holds (unpacked self).when slots }
    {
        self.condition().holds(slots)
    }

    // The row, unless its condition clashes.
    pub(crate) fn unless_clash(self) -> Option<Row>
        ensures { optional result ≡ unless_clash (unpacked self) }
    {
        if self.condition().clashes() {
            None
        } else {
            Some(self)
        }
    }

    pub(crate) fn ends(self) -> bool
        ensures { result ≡ eqb (unpacked self).reacts.code 0 }
    {
        self.code() == Code::ENDED
    }

    // The row with another O, with another code, and under another condition.
    pub(crate) fn with_emitted(self, emitted: u64) -> Row
        requires { emitted < 2 ^ 32 }
        ensures { unpacked result ≡ row_when (unpacked self).when (reaction emitted (unpacked self).reacts.code (unpacked self).reacts.reached) }
    {
        Row::new(emitted, self.code(), self.condition(), self.labels)
    }

    pub(crate) fn with_code(self, code: Code) -> Row
        requires { code.0 < 256 }
        ensures { unpacked result ≡ row_when (unpacked self).when (reaction (unpacked self).reacts.emitted code.0 (unpacked self).reacts.reached) }
    {
        Row::new(self.emitted(), code, self.condition(), self.labels)
    }

    pub(crate) fn under(self, condition: Condition) -> Row
        ensures { unpacked result ≡ row_when condition (unpacked self).reacts }
    {
        Row::new(self.emitted(), self.code(), condition, self.labels)
    }

    // O and the condition of this row and of another, with the given code and labels.
    pub(crate) fn beside(self, other: Row, code: Code, labels: u64) -> Row
        requires { code.0 < 256 }
        ensures { unpacked result ≡ row_when (both (unpacked self).when (unpacked other).when) (reaction ((unpacked self).reacts.emitted union (unpacked other).reacts.emitted) code.0 labels) }
    {
        let emitted = self.emitted() | other.emitted();
        let both = self.condition().both(other.condition());
        Row::new(emitted, code, both, labels)
    }
}
