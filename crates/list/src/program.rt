// A table that was made ready.
ghost use Rattle.lister.specs.inner.Notes.{ReadWhole};
ghost use Rattle.lister.specs.inner.Slots.{Slotted};

use lister::Prepared;

// Its statement stands whole at the first node. `slotted` are the signals that may be unknown in a list that begins with none unknown:
// chosen once, so that listing one state more does not pass over the nodes again.
#[derive(Clone, Copy)]
pub struct Program<'a> {
    pub prepared: &'a Prepared,
    pub slotted: u64,
    ghost whole: { ReadWhole prepared.now.noted.count prepared.now.noted.nodes 0 },
    ghost slots: { Slotted slotted 0 },
}
