// The sets E that agree with `assumed` outside `unknown`. It is no `lister::Presence`, which has methods like these: what holds of that is
// that the unknown signals have slots, and of this that they are at most 10 and apart from the assumed ones, before any has a slot.
ghost use Rattle.std.specs.Prelude.{◌≡◌, true};
ghost use Rattle.sets.specs.Set.{has, only, ◌union◌, ◌without◌};
ghost use Rattle.step.specs.inner.Unknowns.{Unknowns};

#[derive(Clone, Copy)]
pub struct Among {
    pub assumed: u64,
    pub unknown: u64,
    ghost unknowns: { Unknowns assumed unknown },
}

impl Among {
    // Of them those that have one of the unknown signals, and those that do not.
    pub fn with(self, signal: u8) -> Among
        requires { has self.unknown signal ≡ true }
        ensures assumed { result.assumed ≡ self.assumed union only signal }
        ensures unknown { result.unknown ≡ self.unknown without signal }
    {
        Among {
            assumed: sets::with(self.assumed, signal),
            unknown: sets::without(self.unknown, signal),
        }
    }

    pub fn without(self, signal: u8) -> Among
        requires { has self.unknown signal ≡ true }
        ensures assumed { result.assumed ≡ self.assumed }
        ensures unknown { result.unknown ≡ self.unknown without signal }
    {
        Among {
            assumed: self.assumed,
            unknown: sets::without(self.unknown, signal),
        }
    }
}
