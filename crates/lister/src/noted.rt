// A table's nodes, and what is noted of each statement. The pauses of a table are counted from its last node: a note says how many
// stand from the first node of the statement on, and how many of these behind its end. `unions` has at each place the labels of the
// last pauses, so many as the place says; the labels of a statement are those from its first node on without those behind its end.
ghost use Rattle.std.specs.Prelude.{◌≡◌, ◌+◌, ◌≤◌, ◌<◌, min, max, get_or};
ghost use Rattle.lister.specs.inner.Notes.{unnoted, labels_noted, ReadWhole, EndsFrom, SmallSignals, KnownTo, PausesFrom};

use table::MOST_NODES;

// Counts of pauses are below this: there are labels 1 to 63, and two pauses never share one.
pub const COUNTS: usize = 64;

// "over 12 signal statements inside one another"
pub const MOST_NESTED: u8 = 12;

// What is noted of a statement: the place behind it, how many pauses stand from its first node on and behind its end, and how many of
// its signal statements stand inside one another, where 255 are all that are not fewer.
#[derive(Clone, Copy)]
pub struct Note {
    pub end: u16,
    pub from: u8,
    pub behind: u8,
    pub nest: u8,
}

impl Note {
    // Where nothing is noted.
    pub const NONE: Note = Note {
        end: 0,
        from: 0,
        behind: 0,
        nest: 0,
    };

    // The note of a statement of two parts that stand one behind the other.
    pub fn joined(self, second: Note) -> Note
        ensures { result ≡ record { end = second.end; from = self.from; behind = second.behind; nest = max self.nest second.nest } }
    {
        Note {
            end: second.end,
            from: self.from,
            behind: second.behind,
            nest: self.nest.max(second.nest),
        }
    }

    // The note with one signal statement more around.
    pub fn nested_once(self) -> Note
        ensures { result ≡ record self { nest = min 255 (self.nest + 1) } }
    {
        Note {
            nest: self.nest.saturating_add(1),
            ..self
        }
    }
}

// Decoded nodes, of which the first `count` are those of a table, and the notes of the statements that begin at them. The nodes are
// an array of their own, since loading a table fills an array of nodes.
#[derive(Drop)]
pub struct Noted {
    pub nodes: [u16; MOST_NODES],
    pub notes: [Note; MOST_NODES],
    pub count: usize,
    ghost few: { count ≤ 1024 },
    ghost ends: { EndsFrom 0 count nodes notes },
    ghost narrow: { SmallSignals count nodes },
    ghost known: { KnownTo count nodes },
}

impl Noted {
    fn new() -> Noted
        ensures { result.count ≡ 0 }
    {
        Noted {
            nodes: [0; MOST_NODES],
            notes: [Note::NONE; MOST_NODES],
            count: 0,
        }
    }
}

// The same with the labels of the last pauses.
#[derive(Drop)]
pub struct Prepared {
    pub noted: Noted,
    pub unions: [u64; COUNTS],
    ghost labels: { PausesFrom 0 noted.count noted.nodes noted.notes unions },
}

impl Prepared {
    // Room for what is prepared of a table.
    pub fn new() -> Prepared
        ensures { result.noted.count ≡ 0 }
    {
        let noted = Noted::new();
        Prepared {
            noted,
            unions: [0; COUNTS],
        }
    }

    // The labels of the pauses of the statement at a place.
    pub(crate) fn pauses_of(&self, at: usize) -> u64
        requires { ReadWhole self.now.noted.count self.now.noted.nodes at }
        ensures { result ≡ labels_noted self.now.unions (get_or self.now.noted.notes at unnoted) }
    {
        let note = self.noted.notes[at];
        sets::minus(
            self.unions[note.from as usize],
            self.unions[note.behind as usize],
        )
    }
}
