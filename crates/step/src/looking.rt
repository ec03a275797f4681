// Looking for steps under many assumed sets at once.
ghost use Rattle.std.specs.Prelude.{◌≡◌, ◌+◌, ◌≤◌};
ghost use Rattle.esterel.specs.inner.Conditions.{seen};
ghost use Rattle.esterel.specs.Stepping.{one};
ghost use Rattle.esterel.specs.inner.Stepping.{row_assumed, row_steps, rows_answer};
ghost use Rattle.rows.specs.inner.Layout.{unpacked};
ghost use Rattle.rows.specs.inner.Area.{all_rows};
ghost use Rattle.list.specs.inner.Preparing.{state_in, statement_in};
ghost use Rattle.step.specs.inner.Looking.{answered, merged, Attempts, Tries, Looks};

use crate::Stepped;
use crate::among::Among;
use list::{LARGE, Program, SMALL, State};
use lister::Presence;
use rows::{MOST, Row, Unlisted};
use std::cell::Cell;
use table::Refusal;

// The slots of the members of a set.
fn slots_in(slotted: u64, set: u64) -> u64
    ensures { result ≡ seen slotted set }
{
    let mut slots = 0;
    for signal in sets::each(slotted & set) {
        slots = sets::with(slots, lister::slot_of(slotted, signal));
    }
    slots
}

// What two answers come to together; the same step found twice is one.
fn combined(first: Stepped, second: Stepped) -> Stepped
    ensures { result ≡ merged first second }
{
    if first == Stepped::None {
        return second;
    }
    if second == Stepped::None || first == second {
        return first;
    }
    Stepped::Several
}

// With how many unknown signals a list is worth trying after one with so many had n rows: with one more where two such lists would
// have room in one.
fn limit_after(many: u8, n: usize) -> u8
    requires { many ≤ 64 }
    ensures { result ≤ many + 1 }
{
    if n <= MOST / 2 { many + 1 } else { many }
}

// A state of a program, and the signals that are provided there. `limit` is with how many unknown signals at most a list is worth
// trying: neighbours give up alike, so it goes on from one list to the next. It is in a cell, since no answer depends on it.
#[derive(Drop)]
pub struct Question<'a> {
    pub program: Program<'a>,
    pub provided: u32,
    pub state: State,
    pub limit: Cell<u8>,
}

impl Question<'_> {
    // Whether the row is a step: what is provided and what it emits agree with the assumed set on what is known, and meet its
    // condition.
    fn steps(&self, row: Row, signals: &Presence) -> bool
        ensures { result ≡ row_steps signals.now.slotted self.now.provided signals.now.assumed signals.now.unknown (unpacked row) }
    {
        let present = self.provided as u64 | row.emitted();
        if sets::minus(present, signals.unknown) != sets::minus(signals.assumed, signals.unknown) {
            return false;
        }
        if row.is_unconditional() {
            return true;
        }
        row.meets(slots_in(signals.slotted, present))
    }

    // The step of a row.
    fn step_of(&self, row: Row) -> Stepped
        ensures { result ≡ answered (one (record { assumed = row_assumed self.now.provided (unpacked row); reaction = (unpacked row).reacts })) }
    {
        let emitted = row.emitted() as u32;
        Stepped::One {
            assumed: self.provided | emitted,
            emitted,
            code: row.code().0 as u8,
            reached: row.labels(),
        }
    }

    // The steps among rows.
    fn gather(&self, rows: &[Row], signals: &Presence) -> Stepped
        ensures { result ≡ answered (rows_answer signals.now.slotted self.now.provided signals.now.assumed signals.now.unknown (all_rows rows.now)) }
    {
        let mut found = Stepped::None;
        for row in rows.iter().rev() {
            if self.steps(*row, signals) {
                found = combined(self.step_of(*row), found);
            }
        }
        found
    }

    // The steps under many sets, from one list of rows in an area of so many, which stands in a frame of its own: `look` calls itself.
    // A list is not tried where more signals are unknown than `limit`, since it would be in vain.
    #[inline(never)]
    fn attempt<const ROOM: usize>(&self, among: Among) -> Result<Stepped, Unlisted>
        requires { ROOM ≤ 3905 }
        ensures { Attempts (statement_in self.now.program) (state_in self.now.state) self.now.provided among.assumed among.unknown ROOM result }
    {
        let many = sets::count(among.unknown);
        if self.limit.get() < many {
            return Err(Unlisted::Over);
        }
        let mut area = [Row::NOTHING; ROOM];
        let signals = self.program.presence(among.assumed, among.unknown);
        match self.program.rows_in(&signals, self.state, &mut area) {
            Ok(n) => {
                self.limit.set(limit_after(many, n));
                Ok(self.gather(&area[..n], &signals))
            }
            Err(Unlisted::Over) => {
                self.limit.set(many.saturating_sub(1));
                Err(Unlisted::Over)
            }
            Err(why) => Err(why),
        }
    }

    // The same in an area that most lists have room in, or else in one that is never too small; none where the list gave up.
    fn tried(&self, among: Among) -> Option<Stepped>
        ensures { Tries (statement_in self.now.program) (state_in self.now.state) self.now.provided among.assumed among.unknown result }
    {
        match self.attempt::<SMALL>(among) {
            Ok(stepped) => Some(stepped),
            Err(Unlisted::Over) => None,
            Err(_) => self.attempt::<LARGE>(among).ok(),
        }
    }

    // The steps under many sets: from one list of rows, or, where that gives up, with one of the unknown signals present and with it
    // absent. Under one set alone giving up is refusal 15.
    pub fn look(&self, among: Among) -> Result<Stepped, Refusal>
        ensures { Looks (statement_in self.now.program) (state_in self.now.state) self.now.provided among.assumed among.unknown result }
    {
        if let Some(stepped) = self.tried(among) {
            return Ok(stepped);
        }
        if among.unknown == 0 {
            return Err(Refusal::Crowded);
        }
        let signal = sets::least(among.unknown);
        let present = self.look(among.with(signal))?;
        let absent = self.look(among.without(signal))?;
        Ok(combined(present, absent))
    }
}
