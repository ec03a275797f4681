// Sets of the numbers 0 to 63, a bit each. They stay numbers and get no type of their own: document 01 says that sets of labels are
// bits, and the entries for C take and give them so.
#![tactic(auto)]

ghost use Rattle.std.specs.Prelude.{◌≡◌, ◌≢◌, true, false, ℕ, ◌%◌, ◌^◌, ◌<◌};
ghost use Rattle.std.specs.Iterator.{at_most};
ghost use Rattle.sets.specs.Passing.{Gives};
ghost use Rattle.sets.specs.Set.{has, only, ◌union◌, ◌without◌, ◌minus◌, count as count_below};

// Whether the number is in the set.
pub fn contains(set: u64, number: u8) -> bool
    ensures { result ≡ has set number }
{
    if number < 64 {
        set >> number & 1 == 1
    } else {
        false
    }
}

// The set of the one number; empty where the number is past the width.
pub fn singleton(number: u8) -> u64
    ensures { result ≡ only number % 2 ^ 64 }
{
    if number < 64 { 1 << number } else { 0 }
}

// The least member of a set that has one.
pub fn least(set: u64) -> u8
    requires { set ≢ 0 }
    ensures { (result < 64) × (has set result ≡ true) × ((x : ℕ) → x < result → has set x ≡ false) }
{
    u64::trailing_zeros(set) as u8
}

// The set with one number more.
pub fn with(set: u64, number: u8) -> u64
    requires { number < 64 }
    ensures { result ≡ set union only number }
{
    set | singleton(number)
}

// The set without one number.
pub fn without(set: u64, number: u8) -> u64
    ensures { result ≡ set without number }
{
    let own = singleton(number);
    set ^ (set & own)
}

// The set without the numbers of another.
pub fn minus(set: u64, other: u64) -> u64
    ensures { result ≡ set minus other }
{
    set ^ (set & other)
}

// How many numbers are in the set.
pub fn count(set: u64) -> u8
    ensures { result ≡ count_below 64 set }
{
    u64::count_ones(set) as u8
}

// The members of a set, rising: a `for` over a set goes through these.
#[derive(Clone, Copy)]
pub struct Rising {
    pub rest: u64,
}

impl Iterator for Rising {
    type Item = u8;

    ghost next_gives = { λ before member after. Gives before.rest member after.rest };

    ghost remaining = { λ left. at_most (count_below 64 left.rest) };

    fn next(&mut self) -> Option<u8> {
        if self.rest == 0 {
            return None;
        }
        let member = least(self.rest);
        // Without its lowest bit, which is the member's.
        self.rest &= self.rest - 1;
        Some(member)
    }
}

pub fn each(set: u64) -> Rising
    ensures { result.rest ≡ set }
{
    Rising { rest: set }
}
