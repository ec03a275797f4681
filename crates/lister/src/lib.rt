// The two recursions that list the rows of a statement, started and resumed, in a lent area, and the notes on statements.
#![tactic(auto)]

mod noted;
mod presence;
mod reacting;

pub use noted::{COUNTS, MOST_NESTED, Note, Noted, Prepared};
pub use presence::{Presence, slot_of};
