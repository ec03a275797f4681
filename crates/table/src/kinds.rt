// The kinds of nodes, and a node's kind and operand. Kinds are numbers, since document 01 asks each pass for one decision over the
// kinds 0 to 10 with 11 to 15 as a refused range.
ghost use Rattle.std.specs.Prelude.{◌≡◌};
ghost use Rattle.table.specs.Kinds.{kind_of, row_of};
ghost use Rattle.table.specs.Reading.{kind_of_node, operand_of};

use crate::Row;

// The kinds by their numbers, as specs/Kinds has them.
pub const NOTHING: u16 = 0;

pub const PAUSE: u16 = 1;

pub const GOTOPAUSE: u16 = 2;

pub const EMIT: u16 = 3;

pub const EXIT: u16 = 4;

pub const SIGNAL: u16 = 5;

pub const PRESENT: u16 = 6;

pub const SEQUENCE: u16 = 7;

pub const PARALLEL: u16 = 8;

pub const LOOP: u16 = 9;

pub const TRY: u16 = 10;

// "Each kind fixes its operand's range and its children", by the number of the kind. A static, since a constant would be laid out
// anew at every use.
static KINDS: [Row; 16] = [
    // nothing
    Row {
        children: 0,
        least: 0,
        most: 0,
    },
    // pause
    Row {
        children: 0,
        least: 1,
        most: 63,
    },
    // gotopause
    Row {
        children: 0,
        least: 1,
        most: 63,
    },
    // emit
    Row {
        children: 0,
        least: 0,
        most: 31,
    },
    // exit
    Row {
        children: 0,
        least: 1,
        most: 63,
    },
    // signal
    Row {
        children: 1,
        least: 0,
        most: 31,
    },
    // present
    Row {
        children: 2,
        least: 0,
        most: 31,
    },
    // sequence
    Row {
        children: 2,
        least: 0,
        most: 0,
    },
    // parallel
    Row {
        children: 2,
        least: 0,
        most: 0,
    },
    // loop
    Row {
        children: 1,
        least: 0,
        most: 0,
    },
    // try
    Row {
        children: 1,
        least: 0,
        most: 0,
    },
    // 11 to 15, which are refused
    UNUSED,
    UNUSED,
    UNUSED,
    UNUSED,
    UNUSED,
];

const UNUSED: Row = Row {
    children: 0,
    least: 0,
    most: 0,
};

// What a kind fixes.
pub fn row_of(kind: u16) -> Row
    ensures { result ≡ row_of (kind_of kind) }
{
    if kind < 16 {
        KINDS[kind as usize]
    } else {
        UNUSED
    }
}

// "4 bits kind, 6 bits operand"
pub fn kind_of(node: u16) -> u16
    ensures { result ≡ kind_of_node node }
{
    node >> 6
}

pub fn operand_of(node: u16) -> u8
    ensures { result ≡ operand_of node }
{
    (node & 0x3f) as u8
}
