// The operations for C: each entry returns 0 or the refusal's number, and gives its results through pointers, which a refusal
// leaves untouched. The parameters are those of the C interface, so that none of them go together in a struct.
#![tactic(auto)]

ghost use Rattle.std.specs.Prelude.{◌≡◌, ◌/◌, length};
ghost use Rattle.table.specs.Outcomes.{number_of, cell_after};
ghost use Rattle.table.specs.Reading.{check_of};
ghost use Rattle.reach.specs.Answers.{reach_of};
ghost use Rattle.trim.specs.Answers.{trim_of, buffer_of};
ghost use Rattle.list.specs.Answers.{list_of};
ghost use Rattle.step.specs.Answers.{step_of};
ghost use Rattle.text.specs.Answers.{read_of, read_buffer, write_of, write_buffer};
ghost use Rattle.deskheron.specs.Answers.{ListEntered};

use step::Stepped;

// The answers of step by the numbers that C knows: one with its E, O, k and L; none; several.
const ONE: u32 = 0;

const NONE: u32 = 1;

const SEVERAL: u32 = 2;

// Check: the node count of a table.
#[unsafe(no_mangle)]
pub extern "C" fn deskheron_check(table: &[u8], nodes: &mut u32) -> u32
    ensures value { result ≡ number_of (check_of table.now) }
    ensures nodes_after { nodes.new ≡ cell_after (check_of table.now) 0 nodes.old }
{
    match table::check(table) {
        Ok(count) => {
            *nodes = count as u32;
            0
        }
        Err(refusal) => refusal.into(),
    }
}

// Reach: whether the started program can end, the labels that it can pause at, R, and the number of rounds.
#[unsafe(no_mangle)]
pub extern "C" fn deskheron_reach(
    table: &[u8],
    start_ends: &mut u8,
    start_labels: &mut u64,
    reached: &mut u64,
    rounds: &mut u32,
) -> u32
    ensures value { result ≡ number_of (reach_of table.now) }
    ensures start_ends_after { start_ends.new ≡ cell_after (reach_of table.now) 0 start_ends.old }
    ensures start_labels_after { start_labels.new ≡ cell_after (reach_of table.now) 1 start_labels.old }
    ensures reached_after { reached.new ≡ cell_after (reach_of table.now) 2 reached.old }
    ensures rounds_after { rounds.new ≡ cell_after (reach_of table.now) 3 rounds.old }
{
    match reach::reach(table) {
        Ok(found) => {
            *start_ends = found.ends as u8;
            *start_labels = found.labels;
            *reached = found.set;
            *rounds = found.rounds;
            0
        }
        Err(refusal) => refusal.into(),
    }
}

// Trim: the trimmed table at the front of the buffer, its node count and its length, and the share that was kept.
#[unsafe(no_mangle)]
pub extern "C" fn deskheron_trim(
    table: &[u8],
    out: &mut [u8],
    nodes: &mut u32,
    bytes: &mut usize,
    thousandths: &mut u32,
    remainder: &mut u32,
) -> u32
    ensures value { result ≡ number_of (trim_of table.now (length out.old)) }
    ensures out_after { out.new ≡ buffer_of table.now out.old }
    ensures nodes_after { nodes.new ≡ cell_after (trim_of table.now (length out.old)) 0 nodes.old }
    ensures bytes_after { bytes.new ≡ cell_after (trim_of table.now (length out.old)) 1 bytes.old }
    ensures thousandths_after { thousandths.new ≡ cell_after (trim_of table.now (length out.old)) 2 thousandths.old }
    ensures remainder_after { remainder.new ≡ cell_after (trim_of table.now (length out.old)) 3 remainder.old }
{
    match trim::trim(table, out) {
        Ok(written) => {
            *nodes = written.nodes as u32;
            *bytes = written.bytes;
            *thousandths = written.share.thousandths;
            *remainder = written.share.remainder;
            0
        }
        Err(refusal) => refusal.into(),
    }
}

// List: the reactions of the state of a mark and a label set, 4 bytes for each O, 1 for each k, 8 for each L.
#[unsafe(no_mangle)]
pub extern "C" fn deskheron_list(
    table: &[u8],
    assumed: u32,
    mark: u32,
    labels: u64,
    o: &mut [u8],
    k: &mut [u8],
    l: &mut [u8],
    count: &mut u32,
) -> u32
    ensures { ListEntered (list_of table.now assumed mark labels
        (length o.old / 4) (length k.old) (length l.old / 8))
        result o.old o.new k.old k.new l.old l.new
        count.old count.new }
{
    match list::list_bytes(table, assumed, mark, labels, o, k, l) {
        Ok(listed) => {
            *count = listed;
            0
        }
        Err(refusal) => refusal.into(),
    }
}

// Step: the answer for the state of a mark and a label set from the provided signals, and where it is one, its E, O, k and L. The
// cells of these are written for one alone.
#[unsafe(no_mangle)]
pub extern "C" fn deskheron_step(
    table: &[u8],
    provided: u32,
    mark: u32,
    labels: u64,
    answer: &mut u32,
    assumed: &mut u32,
    emitted: &mut u32,
    code: &mut u32,
    reached: &mut u64,
) -> u32
    ensures value { result ≡ number_of (step_of table.now provided mark labels) }
    ensures answer_after { answer.new ≡ cell_after (step_of table.now provided mark labels) 0 answer.old }
    ensures assumed_after { assumed.new ≡ cell_after (step_of table.now provided mark labels) 1 assumed.old }
    ensures emitted_after { emitted.new ≡ cell_after (step_of table.now provided mark labels) 2 emitted.old }
    ensures code_after { code.new ≡ cell_after (step_of table.now provided mark labels) 3 code.old }
    ensures reached_after { reached.new ≡ cell_after (step_of table.now provided mark labels) 4 reached.old }
{
    match step::step(table, provided, mark, labels) {
        Ok(
            Stepped::One {
                assumed: e,
                emitted: o,
                code: k,
                reached: l,
            },
        ) => {
            *answer = ONE;
            *assumed = e;
            *emitted = o;
            *code = k as u32;
            *reached = l;
            0
        }
        Ok(Stepped::None) => {
            *answer = NONE;
            0
        }
        Ok(Stepped::Several) => {
            *answer = SEVERAL;
            0
        }
        Err(refusal) => refusal.into(),
    }
}

// Reads a text: its table at the front of the buffer, and the table's length. Each entry takes the answer of its operation apart by
// itself: only this one and the next do the same with it, and a function of both would not be shorter.
#[unsafe(no_mangle)]
pub extern "C" fn deskheron_read_text(text: &[u8], out: &mut [u8], bytes: &mut usize) -> u32
    ensures value { result ≡ number_of (read_of text.now (length out.old)) }
    ensures out_after { out.new ≡ read_buffer text.now out.old }
    ensures bytes_after { bytes.new ≡ cell_after (read_of text.now (length out.old)) 0 bytes.old }
{
    match reader::read(text, out) {
        Ok(length) => {
            *bytes = length;
            0
        }
        Err(refusal) => refusal.into(),
    }
}

// Writes a table as text: its text at the front of the buffer, and the text's length.
#[unsafe(no_mangle)]
pub extern "C" fn deskheron_write_text(table: &[u8], out: &mut [u8], bytes: &mut usize) -> u32
    ensures value { result ≡ number_of (write_of table.now (length out.old)) }
    ensures out_after { out.new ≡ write_buffer table.now out.old }
    ensures bytes_after { bytes.new ≡ cell_after (write_of table.now (length out.old)) 0 bytes.old }
{
    match writer::write(table, out) {
        Ok(count) => {
            *bytes = count;
            0
        }
        Err(refusal) => refusal.into(),
    }
}
