// What trimming asks of each statement, once R is known: one pass over the nodes finds the codes of the statement started and
// resumed, the exits left in it when it is trimmed and whether it is live, and notes at each node what the descent goes by.
ghost use Rattle.std.specs.Prelude.{◌≡◌, false, cond, ◌||◌, ◌*◌, ◌/◌, ◌≤◌, ◌<◌, eqb};
ghost use Rattle.sets.specs.Set.{has};
ghost use Rattle.esterel.specs.Statement.{pause, sequence, parallel, loop, try};
ghost use Rattle.esterel.specs.Codes.{none, just_ended, join};
ghost use Rattle.table.specs.inner.Places.{placed};
ghost use Rattle.trim.specs.inner.Notes.{note_with};
ghost use Rattle.trim.specs.inner.Marking.{no_exits, exit_at, either_of, exits_if, in_turn_of, again_of, outside_of};
ghost use Rattle.trim.specs.inner.Marking.{Finds, DeadFound, LeafReady, LeafFound, OneFound, TwoFound, PresentFound, PartsFound, Markable, Marks};

use crate::noted::Note;
use esterel::{Code, Label, Level};
use reach::codes::CodeSet;
use std::ops::BitOr;

// The place after a node of no kind: beyond every place, so that what stands there is refused as well.
const BEYOND: usize = 1025;

// The exits that are left in a trimmed statement and end outside it, as sets of their levels, bit d for level d: where the
// statement is only resumed, and where it may be started.
#[derive(Clone, Copy, Debug, PartialEq, Eq)]
pub struct Exits {
    resumed: u64,
    started: u64,
}

// Whether an exit ends at the try right around it.
fn ends_here(levels: u64) -> bool
    ensures { result ≡ has levels 1 }
{
    let nearest = Level(1);
    sets::contains(levels, nearest.0)
}

// The levels as they are outside a try: those that end at it go, the others are one lower.
fn lowered(levels: u64) -> u64
    ensures { result ≡ levels / 4 * 2 }
{
    levels >> 2 << 1
}

impl Exits {
    const NONE: Exits = Exits {
        resumed: 0,
        started: 0,
    };

    // An exit that is left.
    fn at(level: Level) -> Exits
        ensures { result ≡ exit_at level.0 }
    {
        Exits {
            started: sets::singleton(level.0),
            ..Exits::NONE
        }
    }

    // Those that are left where the statement may be started, or is only resumed.
    fn left(self, started: bool) -> u64
        ensures { result ≡ exits_if started self }
    {
        if started { self.started } else { self.resumed }
    }

    // Of one statement after the other, by whether the first can end, resumed and started.
    fn then(self, next: Exits, resumed: bool, started: bool) -> Exits
        ensures { result ≡ in_turn_of resumed started self next }
    {
        Exits {
            resumed: self.resumed | next.left(resumed),
            started: self.started | next.left(started),
        }
    }

    // Of a loop, which starts its body again where the body can end.
    fn again(self, resumed: bool) -> Exits
        ensures { result ≡ again_of resumed self }
    {
        Exits {
            resumed: self.left(resumed),
            ..self
        }
    }

    fn outside_try(self) -> Exits
        ensures { result ≡ outside_of self }
    {
        Exits {
            resumed: lowered(self.resumed),
            started: lowered(self.started),
        }
    }
}

impl BitOr for Exits {
    type Output = Exits;

    ghost bitor_gives = { λ a b r. r ≡ either_of a b };

    fn bitor(self, other: Exits) -> Exits {
        Exits {
            resumed: self.resumed | other.resumed,
            started: self.started | other.started,
        }
    }
}

// What is found of a statement: the codes of it started, and resumed from labels of R; the exits left in it; whether it is live,
// that is, some pause of it has its label in R; and the place after its last node. (Where a node of no kind was met it is beyond
// every place: an Option of the place made trimming 12 to 35 % slower, a Result of the whole 15 to 50 %.)
#[derive(Clone, Copy, PartialEq, Eq)]
pub struct Marked {
    s: CodeSet,
    d: CodeSet,
    exits: Exits,
    live: bool,
    pub next: usize,
}

// {0} where the flag says so, else no code.
fn ended_if(yes: bool) -> CodeSet
    ensures { result ≡ cond yes just_ended none }
{
    if yes {
        CodeSet::just_ended()
    } else {
        CodeSet::none()
    }
}

impl Marked {
    // A statement of one node that is no pause; and where no node is left.
    fn leaf(s: CodeSet, exits: Exits, next: usize) -> Marked
        ensures { DeadFound s exits next result }
    {
        Marked {
            s,
            d: CodeSet::none(),
            exits,
            live: false,
            next,
        }
    }

    // The label is below 64, which its type doesn't say: a narrower one would ask more of those who make a label.
    fn pause(label: Label, r: u64, next: usize) -> Marked
        requires { label.0 < 64 }
        ensures { Finds r (placed (pause label.0) next) result }
    {
        let live = sets::contains(r, label.0);
        Marked {
            s: CodeSet::just_at(label),
            d: ended_if(live),
            exits: Exits::NONE,
            live,
            next,
        }
    }

    // By the kind of a node without children; the last arm is an exit. Here and below, kinds are asked to be in range since document 01
    // has them as numbers.
    fn without_child(kind: u16, operand: u8, r: u64, next: usize) -> Marked
        requires { LeafReady kind operand }
        ensures { LeafFound r kind operand next result }
    {
        match kind {
            table::NOTHING => Marked::leaf(CodeSet::just_ended(), Exits::NONE, next),
            table::PAUSE => Marked::pause(Label(operand), r, next),
            table::GOTOPAUSE => {
                Marked::leaf(CodeSet::just_at(Label(operand)), Exits::NONE, next)
            }
            table::EMIT => Marked::leaf(CodeSet::just_ended(), Exits::NONE, next),
            _ => {
                let level = Level(operand);
                let code = CodeSet::just_code(Code::from(level));
                Marked::leaf(code, Exits::at(level), next)
            }
        }
    }

    fn in_loop(self) -> Marked
        ensures { OneFound loop self result }
    {
        let s = self.s.minus_zero();
        Marked {
            s,
            d: self.d.followed_by(s),
            exits: self.exits.again(self.d.ends()),
            ..self
        }
    }

    fn in_try(self) -> Marked
        ensures { OneFound try self result }
    {
        Marked {
            s: self.s.through_try(),
            d: self.d.through_try(),
            exits: self.exits.outside_try(),
            ..self
        }
    }

    // Two statements, each of which goes on by itself, with the codes of both started.
    fn of_both(s: CodeSet, p: Marked, q: Marked) -> Marked
        ensures { result ≡ record { s = s; d = join p.d q.d; exits = either_of p.exits q.exits; live = p.live || q.live; next = q.next } }
    {
        Marked {
            s,
            d: p.d | q.d,
            exits: p.exits | q.exits,
            live: p.live | q.live,
            next: q.next,
        }
    }

    // A present over two branches.
    fn or(self, q: Marked) -> Marked
        ensures { PresentFound self q result }
    {
        Marked::of_both(self.s | q.s, self, q)
    }

    fn then(self, q: Marked) -> Marked
        ensures { TwoFound sequence self q result }
    {
        let resumed = self.d.ends();
        Marked {
            s: self.s.followed_by(q.s),
            d: self.d.followed_by(q.s) | q.d,
            exits: self.exits.then(q.exits, resumed, resumed | self.s.ends()),
            live: self.live | q.live,
            next: q.next,
        }
    }

    // Two statements in parallel.
    fn beside(self, q: Marked) -> Marked
        ensures { TwoFound parallel self q result }
    {
        Marked::of_both(self.s.maximum(q.s), self, q)
    }

    // By the kind of a node with two children; the last arm is a parallel.
    fn with_second(self, kind: u16, q: Marked) -> Marked
        requires { (6 ≤ kind) × (kind ≤ 8) }
        ensures { PartsFound kind self q result }
    {
        match kind {
            table::PRESENT => self.or(q),
            table::SEQUENCE => self.then(q),
            _ => self.beside(q),
        }
    }

    // The note of a node without children, of which a note has only whether it is live.
    fn leaf_note(&self) -> Note
        ensures { result ≡ note_with 0 self.now.live false false }
    {
        Note::new(0, self.live, false, false)
    }

    // The note of a node that is no try, of whose children this is the first.
    fn parent_note(&self, second: usize, live: bool) -> Note
        requires { second ≤ 1024 }
        ensures { result ≡ note_with second live self.now.d.ends self.now.s.ends }
    {
        Note::new(second, live, self.d.ends(), self.s.ends())
    }

    // The note of a try, of which this is the body: whether an exit left in it ends at the try.
    fn try_note(&self) -> Note
        ensures { result ≡ note_with 0 self.now.live (has self.now.exits.resumed 1) (has self.now.exits.started 1) }
    {
        let e = self.exits;
        Note::new(0, self.live, ends_here(e.resumed), ends_here(e.started))
    }

    // What is found at a node of no kind, which spreads to the root.
    fn refused() -> Marked
        ensures { result.next ≡ 1025 }
    {
        Marked::leaf(CodeSet::just_ended(), Exits::NONE, BEYOND)
    }

    // Whether a node of no kind was met on the way to the root.
    pub fn is_refused(self) -> bool
        ensures { result ≡ eqb self.next 1025 }
    {
        self.next == BEYOND
    }
}

// What is found of the statement at a place, which is resumed from labels of `r`; on the way each node gets its note. The arms
// are ranges where kinds are noted alike, since a jump through a table of addresses was measured slower. Nodes, notes and `r` are handed on
// apart: the notes are written and the nodes are not, so that a struct of them would be lent anew at every call.
pub fn mark_at(
    nodes: &[u16; table::MOST_NODES],
    at: usize,
    left: usize,
    notes: &mut [Note; table::MOST_NODES],
    r: u64,
) -> Marked
    requires { Markable left nodes.now at }
    ensures { Marks r nodes.now left at notes.old result notes.new }
{
    if left == 0 || table::MOST_NODES <= at {
        return Marked::leaf(CodeSet::just_ended(), Exits::NONE, at);
    }
    let node = nodes[at];
    let kind = table::kind_of(node);
    let first = at + 1;
    let below = left - 1;
    // One decision over the kind numbers, with 11 to 15 as a refused range, as document 01 asks.
    match kind {
        table::NOTHING..=table::EXIT => {
            let m = Marked::without_child(kind, table::operand_of(node), r, first);
            notes[at] = m.leaf_note();
            m
        }
        table::SIGNAL => {
            let p = mark_at(nodes, first, below, notes, r);
            notes[at] = p.parent_note(0, p.live);
            p
        }
        table::PRESENT..=table::PARALLEL => {
            let p = mark_at(nodes, first, below, notes, r);
            let q = mark_at(nodes, p.next, below, notes, r);
            notes[at] = p.parent_note(p.next, p.live | q.live);
            p.with_second(kind, q)
        }
        table::LOOP => {
            let p = mark_at(nodes, first, below, notes, r);
            notes[at] = p.parent_note(0, p.live);
            p.in_loop()
        }
        table::TRY => {
            let p = mark_at(nodes, first, below, notes, r);
            notes[at] = p.try_note();
            p.in_try()
        }
        11..=15 => Marked::refused(),
        _ => Marked::refused(),
    }
}
