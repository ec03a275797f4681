// What has to be so of the slots of signals of which it is not known whether they are present.
#![tactic(auto, using(crate::proofs::Words::condition_laws))]

ghost use Rattle.std.specs.Prelude.{◌≡◌, true, ◌<◌, ◌^◌};
ghost use Rattle.sets.specs.Set.{has, only};
ghost use Rattle.esterel.specs.inner.Conditions.{condition, always, holds, both, clashes, forget};
ghost use Rattle.rows.specs.inner.Layout.{condition_in};

use std::marker::Model;

// How many sets of slots there are, and how many conditions, two sets each.
const SETS: u64 = 4096;

pub(crate) const CONDITIONS: u64 = 16777216;

// on * 4096 + off: the slots that have to be there, and those that have to be not. Clauses see the condition of esterel that the bits
// stand for.
#[derive(Clone, Copy)]
pub struct Condition {
    bits: u64,
}

impl Model for Condition {
    ghost use Rattle.std.specs.Prelude.{◌<◌, ◌^◌};
    ghost use Rattle.esterel.specs.inner.Conditions.{Condition as Meaning};

    ghost Value = { Meaning };

    ghost use Rattle.rows.specs.inner.Layout.{condition_in, bits_of, bits_back};

    ghost view = { λ c. condition_in c.bits };

    ghost invariant = { λ c. c.bits < 2 ^ 24 };

    ghost inverse = { λ c. record { bits = bits_of c } };

    ghost inverse_ok = { λ c h. bits_back c h };
}

impl Condition {
    // It asks for nothing.
    pub fn always() -> Condition
        ensures { result ≡ always }
    {
        Condition { bits: 0 }
    }

    // The signal of a slot is present, and it is absent.
    pub fn on_slot(slot: u8) -> Condition
        requires { slot < 12 }
        ensures { result ≡ condition (only slot) 0 }
    {
        Condition::of_sets(sets::singleton(slot), 0)
    }

    pub fn off_slot(slot: u8) -> Condition
        requires { slot < 12 }
        ensures { result ≡ condition 0 (only slot) }
    {
        Condition::of_sets(0, sets::singleton(slot))
    }

    // So many slots there are.
    fn of_sets(on: u64, off: u64) -> Condition
        requires { (on < 2 ^ 12) × (off < 2 ^ 12) }
        ensures { result ≡ condition on off }
    {
        Condition {
            bits: on * SETS + off,
        }
    }

    // Of a word only the low bits count.
    pub(crate) fn of_word(word: u64) -> Condition
        ensures { result ≡ condition_in word }
    {
        Condition {
            bits: word % CONDITIONS,
        }
    }

    pub(crate) fn bits(self) -> u64
        ensures { (result < 2 ^ 24) × (condition_in result ≡ self) }
    {
        self.bits
    }

    fn on(self) -> u64
        ensures { (result ≡ self.on) × (result < 2 ^ 12) }
    {
        self.bits / SETS
    }

    fn off(self) -> u64
        ensures { (result ≡ self.off) × (result < 2 ^ 12) }
    {
        self.bits % SETS
    }

    pub(crate) fn is_always(self) -> bool
        ensures { result ≡ true → self ≡ always }
    {
        self.bits == 0
    }

    // Whether the signal of a slot has to be present.
    pub(crate) fn needs(self, slot: u8) -> bool
        ensures { result ≡ has self.on slot }
    {
        sets::contains(self.on(), slot)
    }

    // Whether a set of slots meets it.
    pub(crate) fn holds(self, slots: u64) -> bool
        ensures { result ≡ holds self slots }
    {
        sets::minus(self.on(), slots) == 0 && self.off() & slots == 0
    }

    // Whether a slot has to be there and not there.
    pub(crate) fn clashes(self) -> bool
        ensures { result ≡ clashes self }
    {
        self.on() & self.off() != 0
    }

    // What two conditions ask for together, and what one asks for of the other slots. Any condition is made by these of those of slots.
    pub fn both(self, other: Condition) -> Condition
        ensures { result ≡ both self other }
    {
        Condition {
            bits: self.bits | other.bits,
        }
    }

    pub(crate) fn forgetting(self, slot: u8) -> Condition
        ensures { result ≡ forget slot self }
    {
        let on = sets::without(self.on(), slot);
        let off = sets::without(self.off(), slot);
        Condition::of_sets(on, off)
    }
}
