// The signals that are emitted outside a declaration of them, in one pass over the nodes of a prepared table.
ghost use Rattle.std.specs.Prelude.{◌≡◌};
ghost use Rattle.esterel.specs.Stepping.{emitted_free};
ghost use Rattle.list.specs.inner.Preparing.{statement_in};

use list::Program;
use table::{kind_of, operand_of};

// The numbers that an operand may be.
const OPERANDS: usize = 64;

// `until` has for each signal the place where the outermost declaration of it ends that was met last, 0 where none was: no place is below
// that. Nodes of
// other kinds than emit and signal emit and declare nothing, so whether they are passed over changes nothing.
pub fn emitted_free(program: &Program) -> u64
    ensures { result ≡ emitted_free (statement_in program.now) }
{
    let noted = &program.prepared.noted;
    let mut until = [0u16; OPERANDS];
    let mut free = 0;
    for at in 0..noted.notes[0].end as usize {
        let node = noted.nodes[at];
        let signal = operand_of(node);
        if (at as u16) < until[signal as usize] {
            continue;
        }
        match kind_of(node) {
            table::EMIT => free = sets::with(free, signal),
            table::SIGNAL => until[signal as usize] = noted.notes[at].end,
            _ => {}
        }
    }
    free
}
