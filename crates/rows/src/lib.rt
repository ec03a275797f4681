// Lists of rows in order, each in front of a lent area. Whoever makes a list returns how many rows it has, or why there is none.
#![tactic(auto)]

mod change;
mod condition;
mod lists;
mod merging;
mod pairing;
mod row;

pub use change::{Caught, Change, Given, Going, Hide, Local};
pub use condition::Condition;
pub use lists::{MOST, Unlisted, alter, one, some_ends};
pub use merging::merge;
pub use pairing::{Pairing, Parallel, Sequence, product};
pub use row::Row;
