// Reach: one pass over the nodes for a summary of the statement, then rounds over it until none adds a label.
#![tactic(auto)]

pub mod codes;
mod summary;

ghost use Rattle.std.specs.Prelude.{◌≡◌};
ghost use Rattle.table.specs.inner.Places.{Loaded};
ghost use Rattle.reach.specs.Answers.{reached_outcome, reach_of};
ghost use Rattle.reach.specs.inner.Rounds.{Reaches};

use codes::CodeSet;
use table::Refusal;

// What the rounds come to: the codes of the started statement, R, and the number of rounds.
#[derive(Clone, Copy, PartialEq, Eq)]
pub struct Settled {
    pub start: CodeSet,
    pub set: u64,
    pub rounds: u32,
}

// Rounds over the nodes of a statement until one adds no label. The nodes are passed over once; a round joins what the summary
// has of the labels that the round before it added. No nodes of an accepted table are refused.
pub fn settle(nodes: &[u16; table::MOST_NODES]) -> Result<Settled, Refusal>
    requires { Loaded nodes.now }
    ensures { Reaches nodes.now result }
{
    let mut kept = [CodeSet::none(); summary::LABELS];
    let found = summary::summary_at(nodes, 0, table::DEEPEST, &mut kept)?;
    let mut labels = found.start.labels();
    let mut set: u64 = 0;
    let mut rounds: u32 = 0;
    // A loop that yields R and the rounds by `break`, as document 01 asks.
    loop {
        let next = found.pauses & labels;
        rounds += 1;
        if next == set {
            break Ok(Settled {
                start: found.start,
                set,
                rounds,
            });
        }
        labels |= summary::labels_from(&kept, next ^ set);
        set = next;
    }
}

// Reach's answer: whether the started statement can end, the labels that it can pause at, R, and the number of rounds.
#[derive(Clone, Copy, PartialEq, Eq)]
pub struct Reached {
    pub ends: bool,
    pub labels: u64,
    pub set: u64,
    pub rounds: u32,
}

// The labels that a program can ever reach.
pub fn reach(table: &[u8]) -> Result<Reached, Refusal>
    ensures { reached_outcome result ≡ reach_of table.now }
{
    let mut nodes = [0u16; table::MOST_NODES];
    let checked = table::load(table, &mut nodes);
    // Taken apart by let .. else and not by `?`, as document 01 asks.
    let Ok(_) = checked else {
        return Err(checked.unwrap_err());
    };
    let Settled { start, set, rounds } = settle(&nodes)?;
    Ok(Reached {
        ends: start.ends(),
        labels: start.labels(),
        set,
        rounds,
    })
}
