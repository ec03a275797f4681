// One pass over decoded nodes, from the last to the first, that notes of each statement where it ends, its pauses, and the nesting
// of its signals.
ghost use Rattle.std.specs.Prelude.{◌≡◌, ◌+◌, ◌<◌, get_or, MatchResult};
ghost use Rattle.lister.specs.inner.Notes.{unnoted};
ghost use Rattle.list.specs.inner.Notes.{NotesAt, AllNoted, Passable};

use lister::{COUNTS, Note};
use table::{MOST_NODES, Refusal, kind_of, operand_of};

// What is noted of a place; past the nodes nothing is.
fn at_place(notes: &[Note; MOST_NODES], at: usize) -> Note
    ensures { result ≡ get_or notes.now at unnoted }
{
    notes.get(at).copied().unwrap_or(Note::NONE)
}

// Of a statement without children, with so many pauses from its node on, and behind it.
fn leaf(at: usize, from: u8, behind: u8) -> Note
    requires { at < 1024 }
    ensures { result ≡ record { end = at + 1; from = from; behind = behind; nest = 0 } }
{
    let end = at + 1;
    Note {
        end: end as u16,
        from,
        behind,
        nest: 0,
    }
}

// What is noted of the statement at a place, from what is noted of its children; so many pauses stand behind the node. Kinds stay
// numbers, and 11 to 15 a refused range: document 01 asks for this one decision. The arms are ranges where kinds do the same, and what
// is lent are arrays, for speed: an arm for each kind becomes a jump through a table of addresses, which was measured slower, and a
// slice goes through memory.
fn note_at(node: u16, notes: &mut [Note; MOST_NODES], at: usize, behind: u8) -> Result<(), Refusal>
    requires { (at < 1024) × (behind < 64) }
    ensures { NotesAt at node behind notes.old notes.new result }
{
    let first = at + 1;
    match kind_of(node) {
        table::NOTHING => notes[at] = leaf(at, behind, behind),
        table::PAUSE => notes[at] = leaf(at, behind + 1, behind),
        table::GOTOPAUSE..=table::EXIT => notes[at] = leaf(at, behind, behind),
        table::SIGNAL => notes[at] = at_place(notes, first).nested_once(),
        table::PRESENT..=table::PARALLEL => {
            let one = at_place(notes, first);
            notes[at] = one.joined(at_place(notes, one.end as usize));
        }
        table::LOOP..=table::TRY => notes[at] = at_place(notes, first),
        11..=15 => return Err(Refusal::Kind),
        _ => return Err(Refusal::Kind),
    }
    Ok(())
}

// What is noted of the first nodes, and the labels of the last pauses. They are lent one by one and not as a `Prepared`, whose facts hold
// when all is noted.
pub fn note_all(
    nodes: &[u16; MOST_NODES],
    count: usize,
    notes: &mut [Note; MOST_NODES],
    unions: &mut [u64; COUNTS],
) -> Result<(), Refusal>
    requires { Passable count nodes.now }
    ensures { MatchResult result (λ noted. AllNoted 0 count nodes.now notes.new unions.new) (λ e. ⊥) }
{
    let mut behind = 0;
    let mut labels = 0;
    unions[0] = 0;
    for at in (0..count).rev() {
        let node = nodes[at];
        note_at(node, notes, at, behind)?;
        if kind_of(node) == table::PAUSE {
            labels = sets::with(labels, operand_of(node));
            behind += 1;
            unions[behind as usize] = labels;
        }
    }
    Ok(())
}
