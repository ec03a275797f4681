// Writing a table as text.
ghost use Rattle.std.specs.Prelude.{◌≡◌, ◌++◌, ◌≤◌, ◌<◌, length, drop};
ghost use Rattle.table.specs.Reading.{deepest, kind_of_node, operand_of};
ghost use Rattle.text.specs.Grammar.{whole};
ghost use Rattle.text.specs.Spelling.{digits};
ghost use Rattle.writer.specs.inner.Texts.{level_asked, enclosed_at, first_level, second_level, has_two};
ghost use Rattle.writer.specs.inner.Texts.{leaf_text, head_text, between_text, tail_text};
ghost use Rattle.writer.specs.inner.Putting.{pen, Room, Put, Readable, text_there, Writable, Wrote, Delivered};

use table::{DEEPEST, MOST_NODES, Refusal, kind_of, operand_of};

// The bytes that suffice for each node of a text: a present adds 27, but has two children, and what has none adds at most 12.
pub const MOST: usize = 20;

// The most nodes whose text is written into the smallest work area, and into the next.
pub const FEW: usize = 16;

pub const SOME: usize = 128;

// The sizes of the three work areas. An area is cleared in each call: to clear the largest would take longer than to write a short
// text.
pub const SMALL: usize = MOST * FEW;

pub const MIDDLE: usize = MOST * SOME;

pub const LARGE: usize = MOST * MOST_NODES;

// What may stand at a place without brackets: a single statement, singles joined by `;`, or any.
#[derive(Clone, Copy, Debug, PartialEq, Eq)]
enum Asked {
    Single,
    Chain,
    Whole,
}

impl Asked {
    // What a statement of a kind asks of its first child.
    fn of_first(kind: u16) -> Asked
        ensures { level_asked result ≡ first_level kind }
    {
        match kind {
            table::SEQUENCE => Asked::Single,
            table::PARALLEL => Asked::Chain,
            _ => Asked::Whole,
        }
    }

    // And of its second.
    fn of_second(kind: u16) -> Asked
        ensures { level_asked result ≡ second_level kind }
    {
        match kind {
            table::SEQUENCE => Asked::Chain,
            _ => Asked::Whole,
        }
    }

    // Whether a statement of a kind needs brackets here.
    fn encloses(self, kind: u16) -> bool
        ensures { result ≡ enclosed_at (level_asked self) kind }
    {
        match self {
            Asked::Single => matches!(kind, table::SEQUENCE | table::PARALLEL),
            Asked::Chain => kind == table::PARALLEL,
            Asked::Whole => false,
        }
    }
}

// Of the kinds with children, those with two.
fn has_two(kind: u16) -> bool
    ensures { result ≡ has_two kind }
{
    matches!(kind, table::PRESENT..=table::PARALLEL)
}

// Where a pass over the nodes has come to: the node to read next, and the place in the buffer behind what is written.
#[derive(Clone, Copy, Debug, PartialEq, Eq)]
struct Reached {
    at: usize,
    place: usize,
}

// Puts a word at a place and gives the place behind it. Tried with `copy_from_slice`: it tests at each word on which side of it the
// place lies, and most texts took 1 to 5 % longer.
fn put(out: &mut [u8], place: usize, word: &[u8]) -> usize
    requires { Room (pen place out.old) word.now }
    ensures { Put (pen place out.old) word.now (pen result out.new) }
{
    for i in 0..word.len() {
        out[place + i] = word[i];
    }
    place + word.len()
}

// The digits of a number below 64.
fn put_number(out: &mut [u8], place: usize, number: u8) -> usize
    requires { (number < 64) × Room (pen place out.old) (digits number) }
    ensures { Put (pen place out.old) (digits number) (pen result out.new) }
{
    if number < 10 {
        put(out, place, &[b'0' + number])
    } else {
        put(out, place, &[b'0' + number / 10, b'0' + number % 10])
    }
}

fn put_numbered(out: &mut [u8], place: usize, word: &[u8], number: u8) -> usize
    requires { (number < 64) × Room (pen place out.old) (word.now ++ digits number) }
    ensures { Put (pen place out.old) (word.now ++ digits number) (pen result out.new) }
{
    let behind = put(out, place, word);
    put_number(out, behind, number)
}

// A statement without children.
fn put_leaf(out: &mut [u8], place: usize, node: u16) -> usize
    requires { Room (pen place out.old) (leaf_text (kind_of_node node) (operand_of node)) }
    ensures { Put (pen place out.old) (leaf_text (kind_of_node node) (operand_of node)) (pen result out.new) }
{
    let operand = operand_of(node);
    match kind_of(node) {
        table::PAUSE => {
            let label = put_number(out, place, operand);
            put(out, label, b":pause")
        }
        table::GOTOPAUSE => put_numbered(out, place, b"gotopause ", operand),
        table::EMIT => put_numbered(out, place, b"emit S", operand),
        table::EXIT => put_numbered(out, place, b"exit ", operand),
        _ => put(out, place, b"nothing"),
    }
}

// What stands before the first statement of a node that has children.
fn put_head(out: &mut [u8], place: usize, node: u16, brackets: bool) -> usize
    requires { Room (pen place out.old) (head_text (kind_of_node node) (operand_of node) brackets) }
    ensures { Put (pen place out.old) (head_text (kind_of_node node) (operand_of node) brackets) (pen result out.new) }
{
    let operand = operand_of(node);
    match kind_of(node) {
        table::SIGNAL => {
            let signal = put_numbered(out, place, b"signal S", operand);
            put(out, signal, b" in ")
        }
        table::PRESENT => {
            let signal = put_numbered(out, place, b"present S", operand);
            put(out, signal, b" then ")
        }
        table::LOOP => put(out, place, b"loop "),
        table::TRY => put(out, place, b"try "),
        _ if brackets => put(out, place, b"[ "),
        _ => place,
    }
}

fn put_between(out: &mut [u8], place: usize, kind: u16) -> usize
    requires { Room (pen place out.old) (between_text kind) }
    ensures { Put (pen place out.old) (between_text kind) (pen result out.new) }
{
    match kind {
        table::SEQUENCE => put(out, place, b" ; "),
        table::PARALLEL => put(out, place, b" || "),
        _ => put(out, place, b" else "),
    }
}

// What stands behind the second statement of a node: the `end` of a present, or the bracket that was opened.
fn put_tail(out: &mut [u8], place: usize, kind: u16, brackets: bool) -> usize
    requires { Room (pen place out.old) (tail_text kind brackets) }
    ensures { Put (pen place out.old) (tail_text kind brackets) (pen result out.new) }
{
    if kind == table::PRESENT {
        put(out, place, b" end")
    } else if brackets {
        put(out, place, b" ]")
    } else {
        place
    }
}

// The text of the statement at a node, down to the depth that is left; gives what is reached behind it. Tried with the buffer and
// the place in one struct by `&mut`: the place is read and written in memory, and most texts took 2 to 13 % longer. With the nodes
// and the node to read next in one: up to 4 %.
fn put_statement(
    out: &mut [u8],
    nodes: &[u16; MOST_NODES],
    from: Reached,
    left: usize,
    asked: Asked,
) -> Reached
    requires { Writable (level_asked asked) left nodes.now from.at (pen from.place out.old) }
    ensures { Wrote (level_asked asked) left nodes.now from.at result.at (pen from.place out.old) (pen result.place out.new) }
{
    let node = nodes[from.at];
    let at = from.at + 1;
    let kind = kind_of(node);
    if kind < table::SIGNAL {
        let place = put_leaf(out, from.place, node);
        return Reached { at, place };
    }
    let brackets = asked.encloses(kind);
    let place = put_head(out, from.place, node, brackets);
    let inside = Reached { at, place };
    let first = put_statement(out, nodes, inside, left - 1, Asked::of_first(kind));
    if !has_two(kind) {
        let place = put(out, first.place, b" end");
        return Reached { place, ..first };
    }
    let place = put_between(out, first.place, kind);
    let behind = Reached { place, ..first };
    let second = put_statement(out, nodes, behind, left - 1, Asked::of_second(kind));
    let place = put_tail(out, second.place, kind, brackets);
    Reached { place, ..second }
}

// Writes the text at the front of a buffer that is long enough, and gives its length.
pub fn write_nodes(nodes: &[u16; MOST_NODES], out: &mut [u8]) -> usize
    requires { Readable deepest nodes.now 0 × (length (text_there whole deepest nodes.now 0) ≤ length out.old) }
    ensures end { result ≡ length (text_there whole deepest nodes.now 0) }
    ensures text { out.new ≡ text_there whole deepest nodes.now 0 ++ drop result out.old }
{
    let start = Reached { at: 0, place: 0 };
    put_statement(out, nodes, start, DEEPEST, Asked::Whole).place
}

// Writes the text into a work area first, since the buffer must stay as it was where the text does not fit.
pub fn write_apart<const SIZE: usize>(
    nodes: &[u16; MOST_NODES],
    out: &mut [u8],
) -> Result<usize, Refusal>
    requires small { SIZE ≤ 20480 }
    requires readable { Readable deepest nodes.now 0 }
    requires room { length (text_there whole deepest nodes.now 0) ≤ SIZE }
    ensures { Delivered (text_there whole deepest nodes.now 0) out.old result out.new }
{
    let mut area = [0u8; SIZE];
    let end = write_nodes(nodes, &mut area);
    if out.len() < end {
        return Err(Refusal::Room);
    }
    out[..end].copy_from_slice(&area[..end]);
    Ok(end)
}
