// The node table: its kinds, reading and writing it, and check. And the refusals of documents 01 and 02.
#![tactic(auto)]

mod kinds;
mod reading;
mod writing;

ghost use Rattle.std.specs.Prelude.{◌≡◌};
ghost use Rattle.table.specs.Outcomes.{number_of_refusal};

pub use kinds::{
    EMIT, EXIT, GOTOPAUSE, LOOP, NOTHING, PARALLEL, PAUSE, PRESENT, SEQUENCE, SIGNAL, TRY, kind_of,
    operand_of,
};
pub use reading::{check, check_nodes, count_in, load};
pub use writing::{length_of, node_of, put_bytes, write_nodes};

// "N is 1 to 1,024."
pub const MOST_NODES: usize = 1024;

// "The root has depth 1; no node is deeper than 60."
pub const DEEPEST: usize = 60;

// What a kind fixes: its children, and its smallest and largest operand.
#[derive(Clone, Copy, PartialEq, Eq)]
pub struct Row {
    pub children: u8,
    pub least: u8,
    pub most: u8,
}

// Why something is refused, by the numbers of documents 01 and 02. A pass over the nodes of a table answers `Kind` where a node is of no kind,
// which check does not let through.
#[derive(Clone, Copy, Debug, PartialEq, Eq)]
pub enum Refusal {
    // "1 under 2 bytes; 2 edition other than 1; 3 N out of range; 4 wrong length; 5 a padding bit set"
    Short = 1,
    Edition = 2,
    Count = 3,
    Length = 4,
    Padding = 5,
    // "6 kind above 10; 7 operand out of range; 8 too deep; 9 exit level too high; 10 pause label already used"
    Kind = 6,
    Operand = 7,
    Depth = 8,
    Level = 9,
    Label = 10,
    // "11 nodes run out before the tree is whole, or are left over"
    Shape = 11,
    // "12 the trimmed table has over 1,024 nodes or depth over 60; 13 the output buffer is shorter than the trimmed table"
    Size = 12,
    Room = 13,
    // "14 over 12 signal statements inside one another; 15 some list needed, the table's own included, has over 64 reactions; 16 one
    // of the three result buffers (O, k, L) has fewer places than reactions"
    Nesting = 14,
    Crowded = 15,
    Places = 16,
    // "17 if over 10 different signals are emitted outside a declaration of them"
    Free = 17,
    // "18 the text breaks the grammar or that depth; then 19 a number is out of its kind's range"
    Grammar = 18,
    Number = 19,
}

// Its number.
impl From<Refusal> for u32 {
    ghost from_gives = { λ refusal number. number ≡ number_of_refusal refusal };

    fn from(refusal: Refusal) -> u32 {
        refusal as u32
    }
}
