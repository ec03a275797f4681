// From a prepared table to the reactions of a state in a lent area. The area of a caller is small, since most lists are; a list
// that it cannot hold on the way is made again in one that holds any.
ghost use Rattle.std.specs.Prelude.{◌≡◌, ◌≤◌, length};
ghost use Rattle.rows.specs.inner.Area.{Made};
ghost use Rattle.lister.specs.inner.Slots.{Slotted};
ghost use Rattle.lister.specs.inner.Joins.{rows_under};
ghost use Rattle.list.specs.inner.Preparing.{state_in, statement_in, limited};
ghost use Rattle.list.specs.inner.Finding.{Finds};

use crate::State;
use crate::preparing::{MOST_SLOTS, slotted};
use crate::program::Program;
use lister::Presence;
use rows::{Row, Unlisted};
use table::Refusal;

// The rows of an area that is never too small.
pub const LARGE: usize = 3905;

impl Program<'_> {
    // Which signals are present, where those of `assumed` are and no others, but for some that are unknown: these have slots, and with
    // them as many of those that are declared as there are slots for.
    // Where there is room for all that were chosen once, no node is looked at again.
    pub fn presence(&self, assumed: u64, unknown: u64) -> Presence
        requires { Slotted unknown unknown }
        ensures assumed { result.assumed ≡ assumed }
        ensures unknown { result.unknown ≡ unknown }
    {
        let noted = &self.prepared.noted;
        let both = self.slotted | unknown;
        let slotted = if sets::count(both) <= MOST_SLOTS {
            both
        } else {
            slotted(&noted.nodes[..noted.count], noted.notes[0].nest, unknown)
        };
        Presence {
            assumed,
            unknown,
            slotted,
        }
    }

    // The rows of a state, as the lister leaves them, or why there are none; with no signal unknown they are the reactions.
    pub fn rows_in(
        &self,
        signals: &Presence,
        state: State,
        area: &mut [Row],
    ) -> Result<usize, Unlisted>
        ensures { Made area.new 3905 (rows_under signals.now (statement_in self.now) (state_in state)) result }
    {
        match state {
            State::Start => self.prepared.noted.start(0, signals, area),
            State::Resumed(labels) => self.prepared.resume(0, signals, labels, area),
        }
    }

    // The same through an area that is large enough, which stands in a frame of its own.
    #[inline(never)]
    fn rows_through(
        &self,
        signals: &Presence,
        state: State,
        area: &mut [Row],
    ) -> Result<usize, Unlisted>
        requires { 64 ≤ length area.old }
        ensures { Made area.new 0 (rows_under signals.now (statement_in self.now) (state_in state)) result }
    {
        let mut large = [Row::NOTHING; LARGE];
        let n = self.rows_in(signals, state, &mut large)?;
        area[..n].copy_from_slice(&large[..n]);
        Ok(n)
    }

    // The reactions of a state under the assumed signals, so many, left in front of an area: they are made there, or through a large one,
    // which is never too small.
    pub fn reactions(&self, assumed: u32, state: State, area: &mut [Row]) -> Result<usize, Refusal>
        requires { 64 ≤ length area.old }
        ensures { Finds (limited (statement_in self.now) (state_in state) assumed) result area.new }
    {
        let signals = self.presence(assumed as u64, 0);
        match self.rows_in(&signals, state, area) {
            Ok(n) => Ok(n),
            Err(Unlisted::Over) => Err(Refusal::Crowded),
            Err(_) => self
                .rows_through(&signals, state, area)
                .or(Err(Refusal::Crowded)),
        }
    }
}
