// List: the reactions of a state of a table.
//
// The cost: the nodes are cut out of the bytes and checked once, and one pass notes of each statement where it ends, its
// pauses and its nesting. The lister then visits a statement once for each of its lists that is needed. The body of a signal
// statement is usually listed once, with the signal unknown, and again with it present and with it absent only where that gives
// up; a part that cannot react in the state is not visited.
#![tactic(auto)]

mod finding;
mod noting;
mod preparing;
mod program;
mod writing;

ghost use Rattle.std.specs.Prelude.{◌≡◌, ◌≤◌, length};
ghost use Rattle.list.specs.Answers.{state_of};
ghost use Rattle.list.specs.Buffers.{Lists, ListsBytes};
ghost use Rattle.list.specs.inner.Preparing.{state_in};
ghost use Rattle.list.specs.inner.Finding.{ListsInto};

pub use finding::LARGE;
use lister::Prepared;
pub use preparing::prepare;
pub use program::Program;
use rows::Row;
use table::Refusal;
use writing::Place;

// The rows of the area that is tried first.
pub const SMALL: usize = 136;

// A state of a program: the start, or resumed with a label set.
#[derive(Clone, Copy, PartialEq, Eq)]
pub enum State {
    Start,
    Resumed(u64),
}

// Of a mark and a label set: "0 the start, whose label set is then ignored; any other number a resumed state".
impl From<(u32, u64)> for State {
    ghost from_gives = { λ asked state. state_in state ≡ state_of asked.0 asked.1 };

    fn from((mark, labels): (u32, u64)) -> State {
        if mark == 0 {
            State::Start
        } else {
            State::Resumed(labels)
        }
    }
}

// The reactions of the state of a mark and a label set, under the assumed signals, into three buffers. What is prepared and rows have
// room on the stack: there is no heap behind an entry for C. The buffers stay three parameters: of a struct of them each function would
// have to say that it keeps the three references. Mark and labels come apart, as C hands them.
fn listed<O: Place<u32>, L: Place<u64>>(
    table: &[u8],
    assumed: u32,
    mark: u32,
    labels: u64,
    o: &mut [O],
    k: &mut [u8],
    l: &mut [L],
) -> Result<u32, Refusal>
    ensures { ListsInto O.width O.spell L.width L.spell table.now assumed mark labels result o.old o.new k.old k.new l.old l.new }
{
    let mut room = Prepared::new();
    let program = preparing::prepare(table, &mut room)?;
    let state = State::from((mark, labels));
    let mut area = [Row::NOTHING; SMALL];
    let n = program.reactions(assumed, state, &mut area)?;
    writing::deliver(&area[..n], o, k, l)
}

// Into buffers of numbers.
pub fn list(
    table: &[u8],
    assumed: u32,
    mark: u32,
    labels: u64,
    o: &mut [u32],
    k: &mut [u8],
    l: &mut [u64],
) -> Result<u32, Refusal>
    ensures { Lists table.now assumed mark labels result o.old o.new k.old k.new l.old l.new }
{
    listed(table, assumed, mark, labels, o, k, l)
}

// Into buffers of bytes, most significant first: 4 for each O, 1 for each k, 8 for each L.
pub fn list_bytes(
    table: &[u8],
    assumed: u32,
    mark: u32,
    labels: u64,
    o: &mut [u8],
    k: &mut [u8],
    l: &mut [u8],
) -> Result<u32, Refusal>
    ensures { ListsBytes table.now assumed mark labels result o.old o.new k.old k.new l.old l.new }
{
    listed(table, assumed, mark, labels, o, k, l)
}
