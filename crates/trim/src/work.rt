// The steps of trimming in the work area, which is filled from its end: a part is written right before what stands there,
// the parent after its children, so nothing is ever moved.
ghost use Rattle.std.specs.Prelude.{◌≡◌, ℕ, cond, ◌≤◌, eqb};
ghost use Rattle.sets.specs.Set.{has, ◌union◌};
ghost use Rattle.trim.specs.inner.Parts.{laid_at, Shallow, PutAt, LeafPut, NothingFilled, Wrapped, PartsJoined, ElseClosed, PresentClosed};

use esterel::Level;

// Where the trimmed statement ends. Places are counted down from here; a node of the source takes at most four.
pub const END: usize = 4096;

// The first place that the work area holds: from here to the end are as many as a table may have nodes. What stands before
// is counted and not held, since its table is refused.
pub const HELD: usize = 3072;

// A number that no signal has: it is among those that a part names where a node of no kind was met. (A Result or an Option of a part
// made trimming up to 21 % slower.)
const REFUSED: u8 = 63;

// A trimmed part in the work area: its depth, and the signals that its emits and presents name. A part that is nothing has no
// node, so that its depth is 0: an Option of a part would only say so again.
#[derive(Clone, Copy, Debug, PartialEq, Eq)]
pub struct Part {
    pub depth: u16,
    pub named: u64,
}

impl Part {
    pub const NOTHING: Part = Part { depth: 0, named: 0 };

    // What is made of a node of no kind. What a part names is named by every part around it, so the root tells.
    pub const REFUSED: Part = Part {
        depth: 0,
        named: 1 << REFUSED,
    };

    // Whether a node of no kind was met on the way to the part.
    pub fn is_refused(self) -> bool
        ensures { result ≡ has self.named 63 }
    {
        sets::contains(self.named, REFUSED)
    }

    fn is_nothing(self) -> bool
        ensures { result ≡ eqb self.depth 0 }
    {
        self.depth == 0
    }
}

// The work area, and the place from which it is filled.
#[derive(Drop)]
pub struct Work {
    pub nodes: [u16; table::MOST_NODES],
    pub from: usize,
    ghost within: { from ≤ 4096 },
}

// Each contract bounds the room and the depths itself: a step takes room and makes a part deeper, so that no type can keep a bound on
// them. Only what is left of the descent gives it.
impl Work {
    // One node in front of what stands there.
    fn put(&mut self, node: u16)
        requires { 1 ≤ self.old.from }
        ensures { PutAt self.old.nodes self.old.from node self.new.from self.new.nodes }
    {
        self.from -= 1;
        if HELD <= self.from {
            self.nodes[self.from - HELD] = node;
        }
    }

    // A statement of one node.
    pub fn leaf(&mut self, node: u16, named: u64) -> Part
        requires { 1 ≤ self.old.from }
        ensures { LeafPut node named self.old.nodes self.old.from (laid_at self.new.from result) self.new.nodes }
    {
        self.put(node);
        Part { depth: 1, named }
    }

    // Nothing gets its node where a statement has to stand.
    pub fn fill(&mut self, p: Part) -> Part
        requires { 1 ≤ self.old.from }
        ensures { NothingFilled self.old.nodes (laid_at self.old.from p) (laid_at self.new.from result) self.new.nodes }
    {
        if p.is_nothing() {
            self.put(table::node_of(table::NOTHING, 0));
            return Part { depth: 1, ..p };
        }
        p
    }

    // The part alone, or a statement over it.
    pub fn wrap_if(&mut self, p: Part, wrap: bool, node: u16) -> Part
        requires room { 2 ≤ self.old.from }
        requires shallow { Shallow p }
        ensures { Wrapped node wrap self.old.nodes (laid_at self.old.from p) (laid_at self.new.from result) self.new.nodes }
    {
        if !wrap {
            return p;
        }
        let whole = self.fill(p);
        self.put(node);
        Part {
            depth: whole.depth + 1,
            ..whole
        }
    }

    // Two parts, one before the other; one that is nothing is dropped. What either names is named by what they make together, also where
    // one is dropped, so that a node of no kind is told at the root.
    pub fn join(&mut self, p: Part, q: Part, node: u16) -> Part
        requires room { 1 ≤ self.old.from }
        requires shallow { Shallow p × Shallow q }
        ensures joined { (mid : ℕ) → PartsJoined node self.old.nodes (laid_at self.old.from p) (laid_at mid q) (laid_at self.new.from result) self.new.nodes }
        ensures named { result.named ≡ p.named union q.named }
    {
        let named = p.named | q.named;
        if p.is_nothing() {
            return Part { named, ..q };
        }
        if q.is_nothing() {
            return Part { named, ..p };
        }
        self.put(node);
        Part {
            depth: p.depth.max(q.depth) + 1,
            named,
        }
    }

    // The else branch: whole where the present is started; in a try where it is resumed and the first branch can end.
    pub fn close_else(&mut self, q: Part, started: bool, guarded: bool) -> Part
        requires room { 3 ≤ self.old.from }
        requires shallow { Shallow q }
        ensures { ElseClosed started guarded self.old.nodes (laid_at self.old.from q) (laid_at self.new.from result) self.new.nodes }
    {
        if started {
            return self.fill(q);
        }
        if q.is_nothing() {
            return q;
        }
        if !guarded {
            return q;
        }
        let nearest = Level(1);
        self.put(table::node_of(table::EXIT, nearest.0));
        self.put(table::node_of(table::SEQUENCE, 0));
        self.put(table::node_of(table::TRY, 0));
        Part {
            depth: q.depth + 2,
            ..q
        }
    }

    // A present over its branches, or what is left of it where it is only resumed.
    pub fn close_present(&mut self, p: Part, q: Part, started: bool, node: u16) -> Part
        requires room { cond started 2 1 ≤ self.old.from }
        requires shallow { Shallow p × Shallow q }
        ensures { (mid : ℕ) → PresentClosed started node self.old.nodes (laid_at self.old.from p) (laid_at mid q) (laid_at self.new.from result) self.new.nodes }
    {
        if !started {
            return self.join(p, q, table::node_of(table::SEQUENCE, 0));
        }
        let whole = self.fill(p);
        let signal = table::operand_of(node);
        let named = whole.named | q.named | sets::singleton(signal);
        self.put(node);
        Part {
            depth: whole.depth.max(q.depth) + 1,
            named,
        }
    }
}
