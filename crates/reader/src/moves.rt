// The moves of the reader: what a part does to where it stands, to what is open and to the nodes. The text is not looked at here.
ghost use Rattle.std.specs.Prelude.{◌≡◌, true, false, [], ◌∷◌, suc, ◌≤◌, ◌<◌};
ghost use Rattle.text.specs.Parts.{word, Present, signal_of};
ghost use Rattle.reader.specs.inner.Nodes.{kept_count, put_on, due, aside, single, push_frame, open_frame, end_frame, then_frame, else_frame, bare_frame, work_all};
ghost use Rattle.reader.specs.inner.Kept.{kept_in, Counted, Stored};
ghost use Rattle.reader.specs.declared.moves.Stage.TheVariants.{Due, DueBefore, Met};
ghost use Rattle.reader.specs.inner.Held.{framed_as, after_of, stack_at, stack_of, nodes_of, single_at, whole_reader, Ready, Topmost, Moved, Moves};

use crate::frames::{Frame, Opened};
use crate::nodes::{insert_nothing, put, put_if};
use table::{DEEPEST, MOST_NODES};

// Room for what is open, the innermost first, and for the nodes. Arrays, since an entry for C has no memory but the stack. How
// much of them is in use stands in the `Reader`: that is a value, which a move takes and gives, and what lies past it in an array means
// nothing.
#[derive(Drop)]
pub struct Room {
    pub frames: [Frame; DEEPEST],
    pub nodes: [u16; MOST_NODES],
}

// A statement is due, or one with a `;` behind it is due, or a chain was met.
#[derive(Clone, Copy, Debug, PartialEq, Eq)]
pub enum Stage {
    Due,
    DueBefore,
    Met,
}

// Where the reader stands: whether a statement is due or a chain was met, whether all numbers are in range, whether a `||` stands
// behind, how many brackets and `end`s may still be opened, how many nodes there are. What is always true of them, `Ready`, stands in
// the contracts: it is of the reader and its room together, and a ghost field of either would take the `..self` from the moves.
#[derive(Clone, Copy)]
pub struct Reader {
    pub stage: Stage,
    pub ranged: bool,
    pub beside: bool,
    pub left: usize,
    pub count: Option<usize>,
}

impl Reader {
    // Whether a `;` stands behind the statement that is due.
    #[tactic(auto, unfolding(crate::specs::inner::Held::after_of))]
    fn after(self) -> bool
        ensures { result ≡ after_of self.stage }
    {
        self.stage == Stage::DueBefore
    }

    // A statement is due.
    fn due(self, beside: bool) -> Self
        ensures { result ≡ record self { stage = Due; beside = beside } }
    {
        Reader {
            stage: Stage::Due,
            beside,
            ..self
        }
    }

    // A single statement was met: the node of the `;` behind it goes before it.
    fn met(self, room: &mut Room, after: bool, beside: bool) -> Self
        requires { Ready self room.old }
        ensures { Moved self result room.new (single self.left after beside (stack_of self room.old) (nodes_of self room.old)) }
    {
        let sequence = table::node_of(table::SEQUENCE, 0);
        Reader {
            stage: Stage::Met,
            beside,
            count: put_if(&mut room.nodes, self.count, after, sequence),
            ..self
        }
    }

    // A statement of one node.
    pub fn leaf(self, room: &mut Room, node: u16) -> Self
        requires { Ready self room.old }
        ensures { Moved self result room.new (single_at self room.old (put_on node (nodes_of self room.old))) }
    {
        let count = put(&mut room.nodes, self.count, node);
        Reader { count, ..self }.met(room, self.after(), self.beside)
    }

    // What is open innermost.
    fn top(self, room: &Room) -> Option<Frame>
        requires { Ready self room.now }
        ensures { Topmost self room.now result }
    {
        if self.left == DEEPEST {
            return None;
        }
        Some(room.frames[self.left])
    }

    // What was open is whole: a single statement, with so many nodes.
    fn closed(self, room: &mut Room, frame: Frame, count: Option<usize>) -> Self
        requires { (self.left < 60) × Counted count × Ready self room.old }
        ensures { Moved self result room.new (single (suc self.left) frame.after frame.beside (stack_at (suc self.left) room.old.frames) (kept_in count room.old.nodes)) }
    {
        let outside = Reader {
            left: self.left + 1,
            count,
            ..self
        };
        outside.met(room, frame.after, frame.beside)
    }

    // A `]` or an `end`: one more is open.
    pub fn open(self, room: &mut Room, opened: Opened) -> Option<Self>
        requires { Ready self room.old }
        ensures { Moves self result room.new (push_frame self.left (framed_as opened (after_of self.stage) self.beside (kept_count (nodes_of self room.old)) (stack_of self room.old)) (nodes_of self room.old)) }
    {
        let left = self.left.checked_sub(1)?;
        room.frames[left] = Frame {
            opened,
            after: self.after(),
            beside: self.beside,
            behind: self.count.unwrap_or(0) as u16,
        };
        Some(Reader { left, ..self }.due(false))
    }

    // `present S` right before `end` or `else`: the branches that are not there are nothing.
    pub fn bare(self, room: &mut Room, signal: u8) -> Option<Self>
        requires { Ready self room.old }
        ensures { Moves self result room.new (bare_frame self.left signal (after_of self.stage) self.beside (stack_of self room.old) (nodes_of self room.old)) }
    {
        if self.after() | self.beside {
            return None;
        }
        let frame = self.top(room)?;
        let nothing = table::node_of(table::NOTHING, 0);
        let otherwise = match frame.opened {
            Opened::Bracket => return None,
            Opened::Ending => put(&mut room.nodes, self.count, nothing),
            Opened::Otherwise => self.count,
        };
        let branches = put(&mut room.nodes, otherwise, nothing);
        let present = table::node_of(table::PRESENT, signal);
        let count = put(&mut room.nodes, branches, present);
        Some(self.closed(room, frame, count))
    }

    // A `;` before a chain.
    pub fn semicolon(self) -> Self
        ensures { (m : Room) → Ready self m → Moved self result m (due self.left true self.beside (stack_of self m) (nodes_of self m)) }
    {
        Reader {
            stage: Stage::DueBefore,
            ..self
        }
    }

    // The chain that was met is whole: the node of the `||` behind it goes before it.
    pub fn chain(self, room: &mut Room) -> Self
        requires { Ready self room.old }
        ensures { (result ≡ whole_reader self result.count) × Stored result.count room.new.nodes (aside self.beside (nodes_of self room.old)) × (room.new.frames ≡ room.old.frames) }
    {
        let parallel = table::node_of(table::PARALLEL, 0);
        Reader {
            count: put_if(&mut room.nodes, self.count, self.beside, parallel),
            ..self
        }
    }

    // A `||` before a whole chain.
    pub fn bars(self) -> Self
        ensures { (m : Room) → Ready self m → Moved self result m (due self.left false true (stack_of self m) (nodes_of self m)) }
    {
        self.due(true)
    }

    // `[` before a whole chain.
    pub fn bracket(self, room: &mut Room) -> Option<Self>
        requires { Ready self room.old }
        ensures { Moves self result room.new (open_frame self.left (nodes_of self room.old) (stack_of self room.old)) }
    {
        let frame = self.top(room)?;
        let Opened::Bracket = frame.opened else {
            return None;
        };
        Some(self.closed(room, frame, self.count))
    }

    // `loop`, `try` or `signal S in` before its body.
    pub fn body(self, room: &mut Room, node: u16) -> Option<Self>
        requires { Ready self room.old }
        ensures { Moves self result room.new (end_frame self.left (put_on node (nodes_of self room.old)) (stack_of self room.old)) }
    {
        let frame = self.top(room)?;
        let Opened::Ending = frame.opened else {
            return None;
        };
        let count = put(&mut room.nodes, self.count, node);
        Some(self.closed(room, frame, count))
    }

    // `present S then` before its branch: an else branch that was omitted is nothing, behind it.
    pub fn branch(self, room: &mut Room, signal: u8) -> Option<Self>
        requires { (signal ≤ 100) × Ready self room.old }
        ensures { Moves self result room.new (work_all (word Present ∷ signal_of signal ∷ []) (then_frame self.left (nodes_of self room.old) (stack_of self room.old))) }
    {
        let frame = self.top(room)?;
        let branches = match frame.opened {
            Opened::Bracket => return None,
            Opened::Ending => insert_nothing(&mut room.nodes, self.count, frame.behind as usize),
            Opened::Otherwise => self.count,
        };
        let present = table::node_of(table::PRESENT, signal);
        let count = put(&mut room.nodes, branches, present);
        Some(self.closed(room, frame, count))
    }

    // `else` before its branch.
    pub fn otherwise(self, room: &mut Room) -> Option<Self>
        requires { Ready self room.old }
        ensures { Moves self result room.new (else_frame self.left (nodes_of self room.old) (stack_of self room.old)) }
    {
        let frame = self.top(room)?;
        let Opened::Ending = frame.opened else {
            return None;
        };
        room.frames[self.left] = Frame {
            opened: Opened::Otherwise,
            ..frame
        };
        Some(self.due(false))
    }
}
