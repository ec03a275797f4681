// A table made ready, once, for listing any of its states under any assumed set: its nodes decoded and checked, and what the lister
// asks of each noted. And the choice of the signals that may be unknown: made with it for lists that begin with none unknown, and anew
// for a set of those that are where there is no room for both.
ghost use Rattle.std.specs.Prelude.{◌≡◌, true, ◌<◌, IfOk};
ghost use Rattle.table.specs.Reading.{table_of, operand_of};
ghost use Rattle.table.specs.inner.Places.{Known};
ghost use Rattle.lister.specs.inner.Slots.{Slotted};
ghost use Rattle.list.specs.inner.Preparing.{Prepares};

use crate::noting::note_all;
use crate::program::Program;
use lister::{MOST_NESTED, Prepared};
use table::{Refusal, kind_of, operand_of};

// The most signals that may be unknown: a condition has a slot for each.
pub const MOST_SLOTS: u8 = 12;

// Signals are numbers below this.
const SIGNALS: u8 = 32;

// Whether the node declares a signal that is not in the set.
fn declares(set: u64, node: u16) -> bool
    ensures { result ≡ true → operand_of node < 32 }
{
    let signal = operand_of(node);
    kind_of(node) == table::SIGNAL && signal < SIGNALS && !sets::contains(set, signal)
}

// The signals that may be unknown: those that are, and the last that the nodes declare. Where one has no slot, every list around it
// in which a signal is unknown is given up, so those without stand outside. No node is looked at where `nest` says that none declares.
// It is not put into its callers: there the loop took half as many instructions again for each node.
#[inline(never)]
pub fn slotted(nodes: &[u16], nest: u8, unknown: u64) -> u64
    requires { Slotted unknown unknown }
    ensures { Slotted result unknown }
{
    if nest == 0 {
        return unknown;
    }
    let mut set = unknown;
    let mut used = sets::count(unknown);
    for node in nodes.iter().rev() {
        if !declares(set, *node) {
            continue;
        }
        if used == MOST_SLOTS {
            break;
        }
        set = sets::with(set, operand_of(*node));
        used += 1;
    }
    set
}

// A table made ready in the lent room, or check's refusals and 14.
pub fn prepare<'a>(table: &[u8], room: &'a mut Prepared) -> Result<Program<'a>, Refusal>
    ensures prepares { Prepares (table_of table.now) result }
    ensures known { Known room.old.noted.nodes → IfOk result (λ program. Known program.prepared.now.noted.nodes) }
{
    let noted = &mut room.noted;
    let unions = &mut room.unions;
    noted.count = 0;
    let loaded = table::load(table, &mut noted.nodes);
    // Document 01 asks for a let .. else on check's answer.
    let Ok(n) = loaded else {
        return Err(loaded.unwrap_err());
    };
    let count = n as usize;
    note_all(&noted.nodes, count, &mut noted.notes, unions)?;
    if MOST_NESTED < noted.notes[0].nest {
        return Err(Refusal::Nesting);
    }
    let slotted = slotted(&noted.nodes[..count], noted.notes[0].nest, 0);
    noted.count = count;
    Ok(Program {
        prepared: room,
        slotted,
    })
}
