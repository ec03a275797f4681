// Reading a statement text into a table.
#![tactic(auto)]

mod frames;
mod lexing;
mod moves;
mod nodes;
mod parsing;

ghost use Rattle.std.specs.Prelude.{◌≡◌, length};
ghost use Rattle.table.specs.Reading.{table_of};
ghost use Rattle.table.specs.Writing.{write};
ghost use Rattle.text.specs.Answers.{answer_outcome, read_of, read_buffer};
ghost use Rattle.reader.specs.inner.Tables.{AtEnd, Answered};

use frames::NO_FRAME;
use moves::Room;
use table::{DEEPEST, MOST_NODES, Refusal};

// The answer for the nodes at the end of the buffer, whose table is written where it fits: "then 8, 9, 10 at the first node that
// earns one; then 13".
fn make_table(nodes: &[u16; MOST_NODES], count: usize, out: &mut [u8]) -> Result<usize, Refusal>
    requires { AtEnd count nodes.now }
    ensures { (e : AtEnd count nodes.now) → Answered (table_of (write e.statement)) out.old result out.new }
{
    let from = MOST_NODES - count;
    table::check_nodes(nodes, from, MOST_NODES)?;
    if out.len() < table::length_of(count) {
        return Err(Refusal::Room);
    }
    let held = &nodes[..];
    Ok(table::write_nodes(&held[from..], out))
}

// Reading, with room lent for what is open and for the nodes.
fn read_with(text: &[u8], out: &mut [u8], room: &mut Room) -> Result<usize, Refusal>
    ensures { (answer_outcome result ≡ read_of text.now (length out.old)) × (out.new ≡ read_buffer text.now out.old) }
{
    let count = parsing::parse(text, room)?;
    make_table(&room.nodes, count, out)
}

// Reads a text into the buffer as a table: how many bytes it begins with.
pub fn read(text: &[u8], out: &mut [u8]) -> Result<usize, Refusal>
    ensures { (answer_outcome result ≡ read_of text.now (length out.old)) × (out.new ≡ read_buffer text.now out.old) }
{
    // Arrays, since an entry for C has no memory but the stack.
    let mut room = Room {
        frames: [NO_FRAME; DEEPEST],
        nodes: [0u16; MOST_NODES],
    };
    read_with(text, out, &mut room)
}
