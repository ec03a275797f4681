// Step: the one reaction of a state from the signals that are provided, where it is the only one.
//
// The cost: the table is decoded, checked and noted once, as for list, and one pass finds the signals that are emitted outside a
// declaration of them. The sets E that may be assumed differ in those of them that are not provided; the lister takes these as
// unknown, so that all sets are usually looked at in one list of rows. Where that gives up, one of them is made present and then
// absent: at most twice as many lists as there are sets, each made again in a larger area where the small one is too small.
#![tactic(auto)]

mod among;
mod free;
mod looking;

ghost use Rattle.std.specs.Prelude.{◌≡◌};
ghost use Rattle.step.specs.Answers.{step_of, stepped_outcome};

use among::Among;
use list::State;
use lister::Prepared;
use looking::Question;
use std::cell::Cell;
use table::Refusal;

// "17 if over 10 different signals are emitted outside a declaration of them"
const MOST_FREE: u8 = 10;

// Step's answer: the one step; that there is none; that there are several.
#[derive(Clone, Copy, Debug, PartialEq, Eq)]
pub enum Stepped {
    One {
        assumed: u32,
        emitted: u32,
        code: u8,
        reached: u64,
    },
    None,
    Several,
}

// The step of the state of a mark and a label set from the provided signals.
pub fn step(table: &[u8], provided: u32, mark: u32, labels: u64) -> Result<Stepped, Refusal>
    ensures { stepped_outcome result ≡ step_of table.now provided mark labels }
{
    let mut room = Prepared::new();
    let program = list::prepare(table, &mut room)?;
    let free = free::emitted_free(&program);
    if MOST_FREE < sets::count(free) {
        return Err(Refusal::Free);
    }
    let assumed = provided as u64;
    let unknown = sets::minus(free, assumed);
    let among = Among { assumed, unknown };
    let state = State::from((mark, labels));
    let question = Question {
        program,
        provided,
        state,
        limit: Cell::new(MOST_FREE),
    };
    question.look(among)
}
