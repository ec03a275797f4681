// The descent over the tree that trims it. Each node is looked at at most once: its note says whether anything may be left of it, where
// its second child stands and whether its first can end, or whether a try is kept, so an exit gets its level at once.
ghost use Rattle.std.specs.Prelude.{◌≡◌, ◌+◌, ◌≤◌, ◌<◌};
ghost use Rattle.table.specs.inner.Places.{statement_at};
ghost use Rattle.trim.specs.inner.Levels.{level_out, started_if, in_else, in_try, places_in};
ghost use Rattle.trim.specs.inner.Parts.{reach_set_of, laid_at, ExitReady, Trimmable, Done};

use crate::noted::Note;
use crate::work::{Part, Work};
use esterel::Level;

// The places that are noted of try statements, by their numbers from 1: at most 59 stand around a statement. How many of them are in
// use stands in `Around`, which a branch takes a copy of and goes back to, where the places are written over.
pub const PLACES: usize = 64;

// What stands around a statement that is trimmed: whether it may be started, the try statements of the source, and how
// many try statements stand around it in the trimmed table.
#[derive(Clone, Copy, Debug, PartialEq, Eq)]
pub struct Around {
    pub started: bool,
    pub tries: usize,
    pub kept: u8,
}

impl Around {
    // Around a whole program.
    pub const PROGRAM: Around = Around {
        started: true,
        tries: 0,
        kept: 0,
    };

    fn started_if(self, started: bool) -> Around
        ensures { result ≡ started_if started self }
    {
        Around { started, ..self }
    }

    // Around the else branch of a present.
    fn in_else(self, guarded: bool) -> Around
        requires { self.kept ≤ 60 }
        ensures { result ≡ in_else guarded self }
    {
        if self.started {
            return self;
        }
        if !guarded {
            return self;
        }
        Around {
            kept: self.kept + 1,
            ..self
        }
    }

    // Around the body of a try, whose place is noted.
    fn in_try(self, places: &mut [u8; PLACES], kept: bool) -> Around
        requires { (self.tries + 1 < 64) × (self.kept ≤ 60) }
        ensures { (result ≡ in_try kept self) × (places.new ≡ places_in self places.old) }
    {
        let tries = self.tries + 1;
        places[tries] = self.kept;
        if kept {
            return Around {
                tries,
                kept: self.kept + 1,
                ..self
            };
        }
        Around { tries, ..self }
    }

    // The level in the trimmed table of an exit of the source.
    fn level_out(self, places: &[u8; PLACES], level: Level) -> Level
        requires { ExitReady places.now self level.0 }
        ensures { result.0 ≡ level_out places.now self level.0 }
    {
        let number = self.tries + 1 - level.0 as usize;
        Level(self.kept - places[number])
    }
}

// What a descent writes: the places of the try statements around, and the trimmed nodes.
#[derive(Drop)]
pub struct Room {
    pub places: [u8; PLACES],
    pub work: Work,
}

// What it reads: the nodes of the source, and by the same index their notes. They are two arrays since `table::load` fills one of nodes
// alone, and an entry for C has only its stack for a second copy beside the notes.
#[derive(Clone, Copy)]
pub struct Source<'a> {
    pub nodes: &'a [u16; table::MOST_NODES],
    pub notes: &'a [Note; table::MOST_NODES],
}

impl Source<'_> {
    // Writes the trimmed statement at a place into the work area, in front of what stands there.
    // The second child is written first, so nothing is ever moved. Of a statement that is neither started nor live nothing is left; so
    // a leaf past that test is kept, but for nothing: a pause is started or has its label in R, and the others are started, since they are
    // never live. A node with an operand is written as it is, but for an exit, which gets its level; the others are made anew, since
    // loading promises nothing of an operand that they lack.
    pub fn trim_at(self, at: usize, left: usize, around: Around, room: &mut Room) -> Part
        requires { Trimmable (reach_set_of self.nodes.now) self.nodes.now self.notes.now at left around room.old.places room.old.work.nodes room.old.work.from }
        ensures { Done (reach_set_of self.entry.nodes.now) (statement_at left self.entry.nodes.now at) at left around
            room.old.places room.old.work.nodes room.old.work.from (laid_at room.new.work.from result) room.new.places room.new.work.nodes }
    {
        if left == 0 || table::MOST_NODES <= at {
            return Part::NOTHING;
        }
        let node = self.nodes[at];
        let note = self.notes[at];
        let b = around.started;
        if !note.may_stay(b) {
            return Part::NOTHING;
        }
        let operand = table::operand_of(node);
        let first = at + 1;
        let second = note.second();
        let below = left - 1;
        // One decision over the kind numbers, with 11 to 15 as a refused range, as document 01 asks.
        match table::kind_of(node) {
            table::NOTHING => Part::NOTHING,
            table::PAUSE => room.work.leaf(node, 0),
            table::GOTOPAUSE => room.work.leaf(node, 0),
            table::EMIT => room.work.leaf(node, sets::singleton(operand)),
            table::EXIT => {
                let level = around.level_out(&room.places, Level(operand));
                room.work.leaf(table::node_of(table::EXIT, level.0), 0)
            }
            table::SIGNAL => {
                let p = self.trim_at(first, below, around, room);
                let named = sets::contains(p.named, operand);
                room.work.wrap_if(p, named, node)
            }
            table::PRESENT => {
                let guarded = note.ends(false);
                let inner = around.in_else(guarded);
                let q = self.trim_at(second, below, inner, room);
                let e = room.work.close_else(q, b, guarded);
                let p = self.trim_at(first, below, around, room);
                room.work.close_present(p, e, b, node)
            }
            table::SEQUENCE => {
                let inner = around.started_if(note.ends(b));
                let q = self.trim_at(second, below, inner, room);
                let p = self.trim_at(first, below, around, room);
                room.work.join(p, q, table::node_of(table::SEQUENCE, 0))
            }
            table::PARALLEL => {
                let q = self.trim_at(second, below, around, room);
                let p = self.trim_at(first, below, around, room);
                room.work.join(p, q, table::node_of(table::PARALLEL, 0))
            }
            table::LOOP => {
                let again = note.ends(b);
                let inner = around.started_if(again | b);
                let p = self.trim_at(first, below, inner, room);
                room.work.wrap_if(p, again, table::node_of(table::LOOP, 0))
            }
            table::TRY => {
                let kept = note.ends(b);
                let inner = around.in_try(&mut room.places, kept);
                let p = self.trim_at(first, below, inner, room);
                room.work.wrap_if(p, kept, table::node_of(table::TRY, 0))
            }
            11..=15 => Part::REFUSED,
            _ => Part::REFUSED,
        }
    }
}
