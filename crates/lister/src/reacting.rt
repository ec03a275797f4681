// The rows of the statement at a place of decoded nodes, left in order in front of a lent area, and how many they are; or why there is
// no list: some list needed has over 64 rows, the area is too small, or some node is of a kind that there is not. With no signal
// unknown the rows are reactions, and a list of over 64 is refusal 15; else it is giving up, and says only that the signal
// statement around is listed in another way.
ghost use Rattle.std.specs.Prelude.{◌≡◌, ◌≢◌, ◌+◌, ◌<◌, ◌≤◌, length, IfOk};
ghost use Rattle.std.specs.List.{list_any};
ghost use Rattle.std.proofs.Math.Option.{some};
ghost use Rattle.sets.specs.Set.{only, ◌intersect◌};
ghost use Rattle.esterel.specs.Statement.{emit, pauses};
ghost use Rattle.esterel.specs.Codes.{code_of};
ghost use Rattle.esterel.specs.Reactions.{start as started, resumed};
ghost use Rattle.esterel.specs.Listing.{reaction};
ghost use Rattle.esterel.specs.Trimming.{names as names_in};
ghost use Rattle.esterel.specs.inner.Conditions.{always};
ghost use Rattle.esterel.specs.inner.Rows.{row_when};
ghost use Rattle.esterel.specs.inner.CappedRows.{then_rows};
ghost use Rattle.rows.specs.inner.Layout.{unpacked};
ghost use Rattle.rows.specs.inner.Area.{rows, Made};
ghost use Rattle.lister.specs.inner.Notes.{part_at, names_at, ReadWhole};
ghost use Rattle.lister.specs.inner.Joins.{room_for, rows_under, twice, Declares, MadeRows, Altered, is_over, Front, following};

use crate::{Noted, Prepared, Presence, slot_of};
use esterel::{Code, Label, Level};
use rows::{
    Caught, Change, Condition, Given, Going, Hide, Local, Parallel, Row, Sequence, Unlisted,
};
use table::{kind_of, operand_of};

// Whether the node is an emit or a present of the signal.
fn names(node: u16, signal: u8) -> bool
    ensures { result ≡ names_at signal node }
{
    operand_of(node) == signal && matches!(kind_of(node), table::EMIT | table::PRESENT)
}

// Whether one of the nodes does.
fn some_names(nodes: &[u16], signal: u8) -> bool
    ensures { result ≡ list_any (names_at signal) nodes.now }
{
    nodes.iter().any(|node| names(*node, signal))
}

// The row of a started pause or gotopause, and of a started exit. That labels and levels are below 64, as operands are, stays asked:
// narrower types of esterel would ask it of all who make them.
fn paused(label: Label) -> Row
    requires { label.0 < 64 }
    ensures { unpacked result ≡ row_when always (reaction 0 1 (only label.0)) }
{
    Row::new(
        0,
        Code::PAUSED,
        Condition::always(),
        sets::singleton(label.0),
    )
}

fn left(level: Level) -> Row
    requires { level.0 < 64 }
    ensures { unpacked result ≡ row_when always (reaction 0 (code_of level.0) 0) }
{
    Row::new(0, Code::from(level), Condition::always(), 0)
}

// A started emit reacts only where its signal is present: where it is assumed, or under that condition.
fn emitted(area: &mut [Row], signals: &Presence, signal: u8) -> Result<u8, Unlisted>
    requires { (0 < length area.old) × (signal < 32) }
    ensures { Made area.new 0 (rows_under signals.now (emit signal) started) result }
{
    let own = sets::singleton(signal);
    if sets::contains(signals.unknown, signal) {
        let slot = slot_of(signals.slotted, signal);
        let condition = Condition::on_slot(slot);
        return Ok(rows::one(area, Row::new(own, Code::ENDED, condition, 0)));
    }
    if !sets::contains(signals.assumed, signal) {
        return Ok(0);
    }
    Ok(rows::one(area, Row::new(own, Code::ENDED, Condition::always(), 0)))
}

// The list that stands in front, if there is one, changed row by row.
fn altered<C: Change>(
    listed: Result<u8, Unlisted>,
    area: &mut [Row],
    change: &C,
) -> Result<u8, Unlisted>
    requires { IfOk listed (λ n. n ≤ length area.old) }
    ensures { Altered (C.changed change.now) listed area.old area.new result }
{
    let n = listed? as usize;
    rows::alter(&mut area[..n], change)
}

// Whether a list would have over 64 rows.
fn gave_up(listed: Result<u8, Unlisted>) -> bool
    ensures { result ≡ is_over listed }
{
    listed == Err(Unlisted::Over)
}

impl Noted {
    // Whether an emit or a present of the statement at a place names the signal.
    fn named(&self, at: usize, signal: u8) -> bool
        requires { ReadWhole self.now.count self.now.nodes at }
        ensures { result ≡ names_in signal (part_at self.now.nodes at) }
    {
        let end = self.notes[at].end as usize;
        some_names(&self.nodes[at..end], signal)
    }

    // The rows of a started statement.
    pub fn start(&self, at: usize, signals: &Presence, area: &mut [Row]) -> Result<usize, Unlisted>
        requires { ReadWhole self.now.count self.now.nodes at }
        ensures { MadeRows signals.now (part_at self.now.nodes at) started area.new result }
    {
        Ok(self.start_at(at, signals, area)? as usize)
    }

    // How many they are comes back in a byte, which stays in registers, and is made a usize once, by `start`. A place and the fact that
    // its statement stands whole stay a number and a clause. A struct of them, tried for `follow`, proves, but there would be one around
    // `Noted` and one around `Prepared`, each call would make one, `Part { noted: self, at: first }.start(..)` for
    // `self.start_at(first, ..)`, and clauses would say `self.entry.noted.now.nodes self.entry.at` for `self.now.nodes at`. Place,
    // presence and area stay three: each call changes another of them.
    #[cycle(starting)]
    fn start_at(&self, at: usize, signals: &Presence, area: &mut [Row]) -> Result<u8, Unlisted>
        requires { ReadWhole self.now.count self.now.nodes at }
        ensures { MadeRows signals.now (part_at self.now.nodes at) started area.new result }
    {
        if area.is_empty() {
            return Err(Unlisted::Cramped);
        }
        let node = self.nodes[at];
        let operand = operand_of(node);
        let first = at + 1;
        // One decision over the kinds' numbers, with a refused range, as document 01 asks.
        match kind_of(node) {
            table::NOTHING => Ok(rows::one(area, Row::NOTHING)),
            table::PAUSE => Ok(rows::one(area, paused(Label(operand)))),
            table::GOTOPAUSE => Ok(rows::one(area, paused(Label(operand)))),
            table::EMIT => emitted(area, signals, operand),
            table::EXIT => Ok(rows::one(area, left(Level(operand)))),
            table::SIGNAL => self.start_signal(at, operand, signals, area),
            table::PRESENT => self.start_present(at, operand, signals, area),
            table::SEQUENCE => {
                let ended = self.start_at(first, signals, area)?;
                let n = ended as usize;
                if !rows::some_ends(&area[..n]) {
                    return Ok(ended);
                }
                let second = self.notes[first].end as usize;
                let m = self.start_at(second, signals, &mut area[n..])? as usize;
                rows::product::<Sequence>(area, n, m)
            }
            table::PARALLEL => {
                let second = self.notes[first].end as usize;
                let n = self.start_at(first, signals, area)? as usize;
                let m = self.start_at(second, signals, &mut area[n..])? as usize;
                rows::product::<Parallel>(area, n, m)
            }
            table::LOOP => {
                let body = self.start_at(first, signals, area);
                altered(body, area, &Going)
            }
            table::TRY => {
                let body = self.start_at(first, signals, area);
                altered(body, area, &Caught)
            }
            11..=15 => Err(Unlisted::Refused),
            _ => Err(Unlisted::Refused),
        }
    }

    // Of a started signal statement: once, with the signal unknown; what gives up is given on, or met by the lists with it present
    // and absent. It is no arm of `start_at`, since what it keeps would be cleared at every node. The signal is handed on with its place, since the
    // decision has read it.
    #[cycle(starting)]
    fn start_signal(
        &self,
        at: usize,
        signal: u8,
        signals: &Presence,
        area: &mut [Row],
    ) -> Result<u8, Unlisted>
        requires { Declares self.now at 5 signal }
        ensures { MadeRows signals.now (part_at self.now.nodes at) started area.new result }
    {
        let body = at + 1;
        if !self.named(body, signal) {
            return self.start_at(body, signals, area);
        }
        if sets::contains(signals.slotted, signal) {
            let more = signals.with_unknown(signal);
            let slot = slot_of(signals.slotted, signal);
            let local = Local { signal, slot };
            let once = self.start_at(body, &more, area);
            let tried = altered(once, area, &local);
            if !gave_up(tried) {
                return tried;
            }
        }
        if signals.unknown != 0 {
            return Err(Unlisted::Over);
        }
        self.start_twice(at, signal, signals, area)
    }

    // Of its body with the signal present and with it absent, where no signal is unknown.
    #[cycle(starting)]
    fn start_twice(
        &self,
        at: usize,
        signal: u8,
        signals: &Presence,
        area: &mut [Row],
    ) -> Result<u8, Unlisted>
        requires declares { Declares self.now at 5 signal }
        requires known { signals.now.unknown ≡ 0 }
        ensures { Made area.new (room_for (part_at self.now.nodes at)) (twice signals.now signal (part_at self.now.nodes (at + 1)) started) result }
    {
        let body = at + 1;
        let with = signals.with_present(signal);
        let present = self.start_at(body, &with, area);
        let n = altered(present, area, &Hide { signal })? as usize;
        let without = signals.with_absent(signal);
        let m = self.start_at(body, &without, &mut area[n..])? as usize;
        rows::merge(area, n, m)
    }

    // Of a started present: the branch taken, or both, each under its condition, where the signal is unknown.
    #[cycle(starting)]
    fn start_present(
        &self,
        at: usize,
        signal: u8,
        signals: &Presence,
        area: &mut [Row],
    ) -> Result<u8, Unlisted>
        requires { Declares self.now at 6 signal }
        ensures { MadeRows signals.now (part_at self.now.nodes at) started area.new result }
    {
        let first = at + 1;
        let second = self.notes[first].end as usize;
        if sets::contains(signals.unknown, signal) {
            let slot = slot_of(signals.slotted, signal);
            let on = Given {
                condition: Condition::on_slot(slot),
            };
            let off = Given {
                condition: Condition::off_slot(slot),
            };
            let present = self.start_at(first, signals, area);
            let n = altered(present, area, &on)? as usize;
            let above = &mut area[n..];
            let absent = self.start_at(second, signals, above);
            let m = altered(absent, above, &off)? as usize;
            return rows::merge(area, n, m);
        }
        if sets::contains(signals.assumed, signal) {
            return self.start_at(first, signals, area);
        }
        self.start_at(second, signals, area)
    }

    // The rows of a started statement that follows; where it is the body of a loop, which starts again, without what ends in the same
    // instant. `again` is a flag and no `Change`: of the two changes one would change nothing.
    fn following(
        &self,
        at: usize,
        again: bool,
        signals: &Presence,
        area: &mut [Row],
    ) -> Result<u8, Unlisted>
        requires { ReadWhole self.now.count self.now.nodes at }
        ensures { Made area.new (room_for (part_at self.now.nodes at)) (following signals.now again (part_at self.now.nodes at)) result }
    {
        let started = self.start_at(at, signals, area);
        if again {
            return altered(started, area, &Going);
        }
        started
    }

    // What so many rows in front become where those that end are followed. An area and the count in front of it stay two: a result of
    // both would go through memory, as one of a usize did.
    fn follow(
        &self,
        at: usize,
        again: bool,
        signals: &Presence,
        area: &mut [Row],
        ended: u8,
    ) -> Result<u8, Unlisted>
        requires whole { ReadWhole self.now.count self.now.nodes at }
        requires standing { Front area.old ended }
        ensures { Made area.new (64 + room_for (part_at self.now.nodes at)) (then_rows (some (rows area.old ended)) (following signals.now again (part_at self.now.nodes at))) result }
    {
        let n = ended as usize;
        if !rows::some_ends(&area[..n]) {
            return Ok(ended);
        }
        let m = self.following(at, again, signals, &mut area[n..])? as usize;
        rows::product::<Sequence>(area, n, m)
    }
}

impl Prepared {
    // The rows of a resumed statement, which has none where the state has no label of a pause in it.
    pub fn resume(
        &self,
        at: usize,
        signals: &Presence,
        labels: u64,
        area: &mut [Row],
    ) -> Result<usize, Unlisted>
        requires { ReadWhole self.now.noted.count self.now.noted.nodes at }
        ensures { MadeRows signals.now (part_at self.now.noted.nodes at) (resumed labels) area.new result }
    {
        Ok(self.resume_at(at, signals, labels, area)? as usize)
    }

    // The labels are handed on with the rest, though they stay the same: in a struct around `Prepared` they would be read from memory
    // at each node, as check's nodes were when they stood in its walk.
    #[cycle(resuming)]
    fn resume_at(
        &self,
        at: usize,
        signals: &Presence,
        labels: u64,
        area: &mut [Row],
    ) -> Result<u8, Unlisted>
        requires { ReadWhole self.now.noted.count self.now.noted.nodes at }
        ensures { MadeRows signals.now (part_at self.now.noted.nodes at) (resumed labels) area.new result }
    {
        if area.is_empty() {
            return Err(Unlisted::Cramped);
        }
        if labels & self.pauses_of(at) == 0 {
            return Ok(0);
        }
        let noted = &self.noted;
        let node = noted.nodes[at];
        let operand = operand_of(node);
        let first = at + 1;
        // One decision over the kinds' numbers, with a refused range, as document 01 asks.
        match kind_of(node) {
            table::NOTHING => Ok(0),
            table::PAUSE => Ok(rows::one(area, Row::NOTHING)),
            table::GOTOPAUSE => Ok(0),
            table::EMIT => Ok(0),
            table::EXIT => Ok(0),
            table::SIGNAL => self.resume_signal(at, operand, signals, labels, area),
            table::PRESENT => {
                let second = noted.notes[first].end as usize;
                let n = self.resume_at(first, signals, labels, area)? as usize;
                let m = self.resume_at(second, signals, labels, &mut area[n..])? as usize;
                rows::merge(area, n, m)
            }
            table::SEQUENCE => {
                let second = noted.notes[first].end as usize;
                let ended = self.resume_at(first, signals, labels, area)?;
                let n = noted.follow(second, false, signals, area, ended)? as usize;
                let m = self.resume_at(second, signals, labels, &mut area[n..])? as usize;
                rows::merge(area, n, m)
            }
            table::PARALLEL => {
                let second = noted.notes[first].end as usize;
                if labels & self.pauses_of(first) == 0 {
                    return self.resume_at(second, signals, labels, area);
                }
                let alone = self.resume_at(first, signals, labels, area)?;
                if labels & self.pauses_of(second) == 0 {
                    return Ok(alone);
                }
                let n = alone as usize;
                let m = self.resume_at(second, signals, labels, &mut area[n..])? as usize;
                rows::product::<Parallel>(area, n, m)
            }
            table::LOOP => {
                let ended = self.resume_at(first, signals, labels, area)?;
                noted.follow(first, true, signals, area, ended)
            }
            table::TRY => {
                let body = self.resume_at(first, signals, labels, area);
                altered(body, area, &Caught)
            }
            11..=15 => Err(Unlisted::Refused),
            _ => Err(Unlisted::Refused),
        }
    }

    // Of a resumed signal statement, by the steps of `start_signal` in this recursion: one function of both would be handed the
    // recursion, by a closure or a trait, with a contract over every presence and area.
    #[cycle(resuming)]
    fn resume_signal(
        &self,
        at: usize,
        signal: u8,
        signals: &Presence,
        labels: u64,
        area: &mut [Row],
    ) -> Result<u8, Unlisted>
        requires declares { Declares self.now.noted at 5 signal }
        requires met { labels intersect pauses (part_at self.now.noted.nodes at) ≢ 0 }
        ensures { MadeRows signals.now (part_at self.now.noted.nodes at) (resumed labels) area.new result }
    {
        let body = at + 1;
        if !self.noted.named(body, signal) {
            return self.resume_at(body, signals, labels, area);
        }
        if sets::contains(signals.slotted, signal) {
            let more = signals.with_unknown(signal);
            let slot = slot_of(signals.slotted, signal);
            let local = Local { signal, slot };
            let once = self.resume_at(body, &more, labels, area);
            let tried = altered(once, area, &local);
            if !gave_up(tried) {
                return tried;
            }
        }
        if signals.unknown != 0 {
            return Err(Unlisted::Over);
        }
        self.resume_twice(at, signal, signals, labels, area)
    }

    // Of its body with the signal present and with it absent, where no signal is unknown.
    #[cycle(resuming)]
    fn resume_twice(
        &self,
        at: usize,
        signal: u8,
        signals: &Presence,
        labels: u64,
        area: &mut [Row],
    ) -> Result<u8, Unlisted>
        requires declares { Declares self.now.noted at 5 signal }
        requires known { signals.now.unknown ≡ 0 }
        ensures { Made area.new (room_for (part_at self.now.noted.nodes at)) (twice signals.now signal (part_at self.now.noted.nodes (at + 1)) (resumed labels)) result }
    {
        let body = at + 1;
        let with = signals.with_present(signal);
        let present = self.resume_at(body, &with, labels, area);
        let n = altered(present, area, &Hide { signal })? as usize;
        let without = signals.with_absent(signal);
        let m = self.resume_at(body, &without, labels, &mut area[n..])? as usize;
        rows::merge(area, n, m)
    }
}
