// One pass over the nodes of a statement for its summary: the start codes, the pauses, and for each pause the codes of the
// statement resumed from its label alone. The rounds need no more of the nodes.
ghost use Rattle.std.specs.Prelude.{◌≡◌, cond, ◌<◌};
ghost use Rattle.sets.specs.Set.{only};
ghost use Rattle.esterel.specs.Codes.{just_ended, just_at, minus_zero, through_try};
ghost use Rattle.table.specs.inner.Places.{statement_at};
ghost use Rattle.reach.specs.inner.Summaries.{Changed, LoweredEach, LabelsFrom, Follows};
ghost use Rattle.reach.specs.inner.Summaries.{summary, beside, in_turn, Summable, Found};

use crate::codes::CodeSet;
use esterel::{Code, Label, Level};
use table::Refusal;

// How many labels there are, with 0, which is none.
pub const LABELS: usize = 64;

// The codes of the started statement, the labels of its pauses, those of them from which it can end, and the place after
// its last node.
#[derive(Clone, Copy, PartialEq, Eq)]
pub struct Summary {
    pub start: CodeSet,
    pub pauses: u64,
    pub ending: u64,
    pub next: usize,
}

// Where the statement could end from a label of the set, it goes on with the codes.
#[inline(always)]
fn follow_each(kept: &mut [CodeSet; LABELS], set: u64, after: CodeSet)
    ensures { Follows set after kept.old kept.new }
{
    for label in sets::each(set) {
        let at = label as usize;
        kept[at] = kept[at].minus_zero() | after;
    }
}

// The set where the flag says so, else none. A product, so that no jump is made of the flag, which may come of codes that went through
// a try: an `if` would leave that to the compiler.
fn set_if(yes: bool, set: u64) -> u64
    ensures { result ≡ cond yes set 0 }
{
    set * yes as u64
}

// What is kept for the labels of the set goes through a try. Gives those from which the statement then ends.
#[inline(always)]
fn lower_each(kept: &mut [CodeSet; LABELS], set: u64) -> u64
    ensures { LoweredEach set kept.old kept.new result }
{
    let mut ending: u64 = 0;
    for label in sets::each(set) {
        let at = label as usize;
        let lowered = kept[at].through_try();
        kept[at] = lowered;
        // By a shift, since no jump may depend on a code here; `set_if` was measured slower.
        ending |= (lowered.ends() as u64) << label;
    }
    ending
}

// The labels that are kept for the labels of the set.
pub fn labels_from(kept: &[CodeSet; LABELS], set: u64) -> u64
    ensures { LabelsFrom set kept.now result }
{
    let mut labels: u64 = 0;
    for label in sets::each(set) {
        labels |= kept[label as usize].labels();
    }
    labels
}

// All is inlined into the pass, which was measured up to 40 % slower where it calls any of these.
impl Summary {
    // A statement of one node that is no pause; and where no node is left.
    #[inline(always)]
    fn of_leaf(start: CodeSet, next: usize) -> Summary
        ensures { result ≡ summary start 0 0 next }
    {
        Summary {
            start,
            pauses: 0,
            ending: 0,
            next,
        }
    }

    // The label is below 64, as in codes.rt.
    #[inline(always)]
    fn of_pause(label: Label, next: usize, kept: &mut [CodeSet; LABELS]) -> Summary
        requires { label.0 < 64 }
        ensures result_value { result ≡ summary (just_at label.0) (only label.0) (only label.0) next }
        ensures changed { Changed (only label.0) (λ K. just_ended) kept.old kept.new }
    {
        kept[label.0 as usize] = CodeSet::just_ended();
        let own = sets::singleton(label.0);
        Summary {
            start: CodeSet::just_at(label),
            pauses: own,
            ending: own,
            next,
        }
    }

    // Two statements, each of which goes on by itself, with the codes of both started.
    #[inline(always)]
    fn of_both(start: CodeSet, p: Summary, q: Summary) -> Summary
        ensures { result ≡ beside start p q }
    {
        Summary {
            start,
            pauses: p.pauses | q.pauses,
            ending: p.ending | q.ending,
            next: q.next,
        }
    }

    #[inline(always)]
    fn of_sequence(p: Summary, q: Summary, kept: &mut [CodeSet; LABELS]) -> Summary
        ensures result_value { result ≡ in_turn p q }
        ensures follows { Follows p.ending q.start kept.old kept.new }
    {
        follow_each(kept, p.ending, q.start);
        Summary {
            ending: set_if(q.start.ends(), p.ending) | q.ending,
            ..Summary::of_both(p.start.followed_by(q.start), p, q)
        }
    }

    // A loop goes on where its body could end, and so never ends itself.
    #[inline(always)]
    fn of_loop(p: Summary, kept: &mut [CodeSet; LABELS]) -> Summary
        ensures result_value { result ≡ summary (minus_zero p.start) p.pauses 0 p.next }
        ensures follows { Follows p.ending (minus_zero p.start) kept.old kept.new }
    {
        let start = p.start.minus_zero();
        follow_each(kept, p.ending, start);
        Summary {
            start,
            ending: 0,
            ..p
        }
    }

    #[inline(always)]
    fn of_try(p: Summary, kept: &mut [CodeSet; LABELS]) -> Summary
        ensures result_value { result ≡ summary (through_try p.start) p.pauses result.ending p.next }
        ensures lowered_each { LoweredEach p.pauses kept.old kept.new result.ending }
    {
        Summary {
            start: p.start.through_try(),
            ending: lower_each(kept, p.pauses),
            ..p
        }
    }
}

// The summary of the statement at a place, down to the depth that is left. Each node is looked at once. A kind above 10 never
// comes for the nodes of an accepted table.
pub fn summary_at(
    nodes: &[u16; table::MOST_NODES],
    at: usize,
    left: usize,
    kept: &mut [CodeSet; LABELS],
) -> Result<Summary, Refusal>
    requires { Summable left nodes.now at }
    ensures { Found (statement_at left nodes.now at) result kept.old kept.new }
{
    if left == 0 || table::MOST_NODES <= at {
        return Ok(Summary::of_leaf(CodeSet::just_ended(), at));
    }
    let node = nodes[at];
    let operand = table::operand_of(node);
    let next = at + 1;
    let below = left - 1;
    // One decision over the kind numbers, with 11 to 15 as a refused range, as document 01 asks.
    match table::kind_of(node) {
        table::NOTHING => Ok(Summary::of_leaf(CodeSet::just_ended(), next)),
        table::PAUSE => Ok(Summary::of_pause(Label(operand), next, kept)),
        table::GOTOPAUSE => Ok(Summary::of_leaf(CodeSet::just_at(Label(operand)), next)),
        table::EMIT => Ok(Summary::of_leaf(CodeSet::just_ended(), next)),
        table::EXIT => {
            let code = Code::from(Level(operand));
            Ok(Summary::of_leaf(CodeSet::just_code(code), next))
        }
        table::SIGNAL => summary_at(nodes, next, below, kept),
        table::PRESENT => {
            let p = summary_at(nodes, next, below, kept)?;
            let q = summary_at(nodes, p.next, below, kept)?;
            Ok(Summary::of_both(p.start | q.start, p, q))
        }
        table::SEQUENCE => {
            let p = summary_at(nodes, next, below, kept)?;
            let q = summary_at(nodes, p.next, below, kept)?;
            Ok(Summary::of_sequence(p, q, kept))
        }
        table::PARALLEL => {
            let p = summary_at(nodes, next, below, kept)?;
            let q = summary_at(nodes, p.next, below, kept)?;
            Ok(Summary::of_both(p.start.maximum(q.start), p, q))
        }
        table::LOOP => {
            let p = summary_at(nodes, next, below, kept)?;
            Ok(Summary::of_loop(p, kept))
        }
        table::TRY => {
            let p = summary_at(nodes, next, below, kept)?;
            Ok(Summary::of_try(p, kept))
        }
        11..=15 => Err(Refusal::Kind),
        _ => Err(Refusal::Kind),
    }
}
