// Which signals are present where rows are listed.
ghost use Rattle.std.specs.Prelude.{◌≡◌, true, ◌<◌};
ghost use Rattle.sets.specs.Set.{has, only, ◌union◌, ◌without◌};
ghost use Rattle.esterel.specs.inner.Conditions.{slot_of};
ghost use Rattle.lister.specs.inner.Slots.{Slotted};

// The signals of `assumed` are present and no others, but for those of `unknown`, on which rows have conditions. These are of `slotted`,
// whose members have the slots of conditions.
#[derive(Clone, Copy)]
pub struct Presence {
    pub assumed: u64,
    pub unknown: u64,
    pub slotted: u64,
    ghost slots: { Slotted slotted unknown },
}

impl Presence {
    // The same with one signal known to be present, known to be absent, and unknown.
    pub fn with_present(&self, signal: u8) -> Presence
        requires { signal < 64 }
        ensures assumed { result.assumed ≡ self.now.assumed union only signal }
        ensures unknown { result.unknown ≡ self.now.unknown without signal }
        ensures slotted { result.slotted ≡ self.now.slotted }
    {
        Presence {
            assumed: sets::with(self.assumed, signal),
            unknown: sets::without(self.unknown, signal),
            slotted: self.slotted,
        }
    }

    pub fn with_absent(&self, signal: u8) -> Presence
        ensures assumed { result.assumed ≡ self.now.assumed without signal }
        ensures unknown { result.unknown ≡ self.now.unknown without signal }
        ensures slotted { result.slotted ≡ self.now.slotted }
    {
        Presence {
            assumed: sets::without(self.assumed, signal),
            unknown: sets::without(self.unknown, signal),
            slotted: self.slotted,
        }
    }

    pub fn with_unknown(&self, signal: u8) -> Presence
        requires { has self.now.slotted signal ≡ true }
        ensures assumed { result.assumed ≡ self.now.assumed }
        ensures unknown { result.unknown ≡ self.now.unknown union only signal }
        ensures slotted { result.slotted ≡ self.now.slotted }
    {
        Presence {
            assumed: self.assumed,
            unknown: sets::with(self.unknown, signal),
            slotted: self.slotted,
        }
    }
}

// The slot of a signal: how many members of the set are below it. It is asked of any set, so it is no method of a presence.
pub fn slot_of(slotted: u64, signal: u8) -> u8
    requires { signal < 64 }
    ensures { result ≡ slot_of slotted signal }
{
    let own = sets::singleton(signal);
    let below = own - 1;
    sets::count(slotted & below)
}
