// Trim: the table of the trimmed statement.
//
// The cost: the nodes are cut out of the bytes and checked once; one pass, reach's, makes the summary that its rounds go by; one
// notes at the nodes what trimming asks; one writes the trimmed nodes, and skips parts of which nothing is left; one packs
// them. A pass looks at each node at most once and does a bounded number of steps there, whatever the depth.
// Trimming works in an area of its own, which holds as many nodes as a table may have, and touches the caller's buffer only
// when the table is known to fit.
#![tactic(auto)]

mod descent;
mod marks;
mod noted;
mod work;

ghost use Rattle.std.specs.Prelude.{◌≡◌, ◌≤◌, length, IsOkAnd};
ghost use Rattle.esterel.specs.Trimming.{trimmed};
ghost use Rattle.table.specs.inner.Places.{statement_of, Known, Loaded};
ghost use Rattle.trim.specs.Answers.{trimmed_outcome, trim_of, buffer_of};
ghost use Rattle.trim.specs.inner.Parts.{laid_at};
ghost use Rattle.trim.specs.inner.Root.{Lent, Ends, EndFits, Finished};

use descent::{Around, Room, Source};
use esterel::Share;
use noted::Note;
use table::Refusal;
use work::{Part, Work};

// A trimmed table: its nodes, its length in bytes, and the share of the source that it keeps.
#[derive(Clone, Copy)]
pub struct Written {
    pub nodes: u16,
    pub bytes: usize,
    pub share: Share,
}

// Trims the statement that the nodes hold, to the end of the work area.
fn trim_nodes(
    nodes: &[u16; table::MOST_NODES],
    notes: &mut [Note; table::MOST_NODES],
    room: &mut Room,
) -> Result<Part, Refusal>
    requires loaded { Loaded nodes.now }
    requires lent { Lent room.old }
    ensures { IsOkAnd result (λ part. Ends (trimmed (statement_of nodes.now)) (laid_at room.new.work.from part) room.new.work.nodes) }
{
    let found = reach::settle(nodes)?;
    let marked = marks::mark_at(nodes, 0, table::DEEPEST, notes, found.set);
    if marked.is_refused() {
        return Err(Refusal::Kind);
    }
    let source = Source { nodes, notes };
    let part = source.trim_at(0, table::DEEPEST, Around::PROGRAM, room);
    if part.is_refused() {
        return Err(Refusal::Kind);
    }
    Ok(room.work.fill(part))
}

// The answer for the statement at the end of the work area, whose table is written where it fits; the source has `before` nodes.
fn finish(before: u16, work: &Work, part: Part, out: &mut [u8]) -> Result<Written, Refusal>
    requires { (1 ≤ before) × EndFits (laid_at work.now.from part) work.now.nodes }
    ensures { Finished before work.now.nodes (laid_at work.now.from part) out.old result out.new }
{
    let from = work.from;
    let count = work::END - from;
    if table::MOST_NODES < count {
        return Err(Refusal::Size);
    }
    if table::DEEPEST < part.depth as usize {
        return Err(Refusal::Size);
    }
    let bytes = table::length_of(count);
    if out.len() < bytes {
        return Err(Refusal::Room);
    }
    let nodes = count as u16;
    let first = from - work::HELD;
    table::write_nodes(&work.nodes[first..], out);
    let share = Share::of(before, nodes);
    Ok(Written {
        nodes,
        bytes,
        share,
    })
}

// Trim, with room lent for the nodes, what is noted of them, and what the descent writes: three, of which each step changes another.
fn trim_with(
    table: &[u8],
    out: &mut [u8],
    nodes: &mut [u16; table::MOST_NODES],
    notes: &mut [Note; table::MOST_NODES],
    room: &mut Room,
) -> Result<Written, Refusal>
    requires { Known nodes.old × Lent room.old }
    ensures { (trimmed_outcome result ≡ trim_of table.now (length out.old)) × (out.new ≡ buffer_of table.now out.old) }
{
    let checked = table::load(table, nodes);
    // Taken apart by let .. else and not by `?`, as document 01 asks.
    let Ok(before) = checked else {
        return Err(checked.unwrap_err());
    };
    let part = trim_nodes(nodes, notes, room)?;
    finish(before, &room.work, part, out)
}

// Trims a table into the buffer.
pub fn trim(table: &[u8], out: &mut [u8]) -> Result<Written, Refusal>
    ensures { (trimmed_outcome result ≡ trim_of table.now (length out.old)) × (out.new ≡ buffer_of table.now out.old) }
{
    let mut nodes = [0u16; table::MOST_NODES];
    let mut notes = [Note::NONE; table::MOST_NODES];
    let mut room = Room {
        places: [0; descent::PLACES],
        work: Work {
            nodes: [0; table::MOST_NODES],
            from: work::END,
        },
    };
    trim_with(table, out, &mut nodes, &mut notes, &mut room)
}
