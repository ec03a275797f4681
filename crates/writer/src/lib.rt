// Writing a table as statement text.
#![tactic(auto)]

mod writing;

ghost use Rattle.std.specs.Prelude.{◌≡◌, length};
ghost use Rattle.text.specs.Answers.{answer_outcome, write_of, write_buffer};

use table::{MOST_NODES, Refusal};

// Writes the text of a table into the buffer. Nothing is written where the text does not fit.
pub fn write(table: &[u8], out: &mut [u8]) -> Result<usize, Refusal>
    ensures { (answer_outcome result ≡ write_of table.now (length out.old)) × (out.new ≡ write_buffer table.now out.old) }
{
    let mut nodes = [0u16; MOST_NODES];
    let count = table::load(table, &mut nodes)? as usize;
    if writing::MOST * count <= out.len() {
        return Ok(writing::write_nodes(&nodes, out));
    }
    match count {
        ..=writing::FEW => writing::write_apart::<{ writing::SMALL }>(&nodes, out),
        ..=writing::SOME => writing::write_apart::<{ writing::MIDDLE }>(&nodes, out),
        _ => writing::write_apart::<{ writing::LARGE }>(&nodes, out),
    }
}
