// Reading a table: the header, the nodes out of the bytes, the statement out of the nodes. And check. Words and fields are cut by
// shifts and masks, here and in kinds.rt, as document 01 asks.
ghost use Rattle.std.specs.Prelude.{◌≡◌, cond, ◌++◌, ◌+◌, ◌-◌, ◌/◌, ◌%◌, ◌^◌, ◌≤◌, ◌<◌, eqb, ltb, length, take, drop};
ghost use Rattle.sets.specs.Set.{has, only, ◌union◌};
ghost use Rattle.table.specs.Reading.{length_of, count_of, header_of, nodes_of, read_from, deepest, whole_of, checked_outcome, check_in, check_of};
ghost use Rattle.table.specs.inner.Loading.{word_at, Cut, loaded_of, field_fault, number_found, Walked};

use crate::kinds::{
    EMIT, EXIT, GOTOPAUSE, NOTHING, PAUSE, SIGNAL, TRY, kind_of, operand_of, row_of,
};
use crate::{DEEPEST, MOST_NODES, Refusal, Row};
use esterel::{Label, Level};

// The bits of the first word that are the node count, behind the four of the edition.
const COUNT: u16 = 0xfff;

// Two bytes as a number.
fn word_at(table: &[u8], at: usize) -> u16
    requires { at + 1 < length table.now }
    ensures { result ≡ word_at table.now at }
{
    (table[at] as u16) << 8 | table[at + 1] as u16
}

// "12 bits node count N", whether or not the table is accepted; 0 where there are no two bytes: it cannot fail.
pub fn count_in(table: &[u8]) -> u16
    ensures { result ≡ cond (ltb (length table.now) 2) 0 (count_of table.now) }
{
    if table.len() < 2 {
        return 0;
    }
    word_at(table, 0) & COUNT
}

// Tests 1 to 5, and the node count.
fn header(table: &[u8]) -> Result<u16, Refusal>
    ensures { result ≡ header_of table.now }
{
    if table.len() < 2 {
        return Err(Refusal::Short);
    }
    let word = word_at(table, 0);
    if word >> 12 != 1 {
        return Err(Refusal::Edition);
    }
    let n = word & COUNT;
    if n == 0 {
        return Err(Refusal::Count);
    }
    if n as usize > MOST_NODES {
        return Err(Refusal::Count);
    }
    let bits = n as usize * 10;
    if table.len() != 2 + (bits + 7 >> 3) {
        return Err(Refusal::Length);
    }
    let padding = 8 - (bits & 7) & 7;
    let last = table[table.len() - 1];
    if last & (1 << padding) - 1 != 0 {
        return Err(Refusal::Padding);
    }
    Ok(n)
}

// The ten bits of the word at a place that stand before its last `behind` bits.
fn field_at(table: &[u8], at: usize, behind: usize) -> u16
    requires { (at + 1 < length table.now) × (behind ≤ 6) }
    ensures { result ≡ word_at table.now at / 2 ^ behind % 1024 }
{
    word_at(table, at) >> behind & 0x3ff
}

// Cuts the four nodes from i on, where i is four times a number: five whole bytes.
fn cut_four(table: &[u8], i: usize, nodes: &mut [u16])
    requires { (i % 4 ≡ 0) × (i + 4 ≤ 1024) × (i + 4 ≤ length nodes.old) × (length_of (i + 4) ≤ length table.now) }
    ensures { Cut table.now i (i + 4) nodes.old nodes.new }
{
    let at = 2 + i / 4 * 5;
    nodes[i] = field_at(table, at, 6);
    nodes[i + 1] = field_at(table, at + 1, 4);
    nodes[i + 2] = field_at(table, at + 2, 2);
    nodes[i + 3] = field_at(table, at + 3, 0);
}

// Cuts the node i. It lies within two bytes.
fn cut_one(table: &[u8], i: usize, nodes: &mut [u16])
    requires { (i < 1024) × (i < length nodes.old) × (length_of (i + 1) ≤ length table.now) }
    ensures { Cut table.now i (i + 1) nodes.old nodes.new }
{
    let bit = i * 10;
    nodes[i] = field_at(table, 2 + (bit >> 3), 6 - (bit & 7));
}

// Cuts the n nodes behind the header out of the bytes, four at a time while there are four.
fn decode(table: &[u8], n: usize, nodes: &mut [u16])
    requires { (n ≤ 1024) × (length table.now ≡ length_of n) × (n ≤ length nodes.old) }
    ensures { nodes.new ≡ nodes_of table.now n ++ drop n nodes.old }
{
    let fours = n / 4;
    for four in 0..fours {
        cut_four(table, 4 * four, nodes);
    }
    for i in 4 * fours..n {
        cut_one(table, i, nodes);
    }
}

// "7 operand out of range; 8 too deep", of a node whose kind fixes the row.
fn test_fields(operand: u8, row: Row, left: usize) -> Result<(), Refusal>
    ensures { number_found result ≡ field_fault left operand row }
{
    if operand < row.least || operand > row.most {
        return Err(Refusal::Operand);
    }
    if left == 0 {
        return Err(Refusal::Depth);
    }
    Ok(())
}

// "9 exit level too high"
fn test_level(level: Level, tries: u8) -> Result<(), Refusal>
    ensures { number_found result ≡ cond (ltb tries level.0) 9 0 }
{
    if level.0 > tries {
        return Err(Refusal::Level);
    }
    Ok(())
}

// "10 pause label already used"
fn test_label(label: Label, used: u64) -> Result<(), Refusal>
    ensures { number_found result ≡ cond (has used label.0) 10 0 }
{
    if sets::contains(used, label.0) {
        return Err(Refusal::Label);
    }
    Ok(())
}

// How many try statements a node adds around its children.
fn tried(kind: u16) -> u8
    ensures { result ≡ cond (eqb kind 10) 1 0 }
{
    if kind == TRY { 1 } else { 0 }
}

// A walk over nodes: the place that it came to, and the labels of the pauses before it. The nodes themselves are handed on, since
// what is reached through `self` is read from memory at every node.
#[derive(Drop)]
struct Walk {
    at: usize,
    used: u64,
}

impl Walk {
    // A pause: its label is among those that are used from now on. That it is below 64 is asked, since a narrower `Label` would ask it of
    // all who make one.
    fn pause(&mut self, label: Label) -> Result<(), Refusal>
        requires { label.0 < 64 }
        ensures found { number_found result ≡ cond (has self.old.used label.0) 10 0 }
        ensures at { self.new.at ≡ self.old.at }
        ensures used { number_found result ≡ 0 → self.new.used ≡ self.old.used union only label.0 }
    {
        test_label(label, self.used)?;
        self.used = sets::with(self.used, label.0);
        Ok(())
    }

    // Walks over the statement at the place that it came to, one of the first n, with all below it, inside `tries` try statements;
    // `left` is the depth that is left, that node's included.
    fn statement(
        &mut self,
        nodes: &[u16; MOST_NODES],
        n: usize,
        left: usize,
        tries: u8,
    ) -> Result<(), Refusal>
        requires { (n ≤ 1024) × (tries + left < 255) }
        ensures { Walked n (read_from left tries self.old.used (drop self.old.at (take n nodes.now))) (number_found result) self.new.at self.new.used }
    {
        let mut left = left;
        let mut tries = tries;
        // Each round is at a node: the last child is that of the next round, and only the first of two takes a call. No `for`, since
        // whether there is a next round is known when this node is read.
        loop {
            let here = self.at;
            if n <= here {
                return Err(Refusal::Shape);
            }
            let node = nodes[here];
            let kind = kind_of(node);
            let operand = operand_of(node);
            let row = row_of(kind);
            let fields = test_fields(operand, row, left);
            self.at = here + 1;
            // One decision over the kinds' numbers, with a refused range, as document 01 asks.
            match kind {
                NOTHING => return fields,
                PAUSE => {
                    fields?;
                    return self.pause(Label(operand));
                }
                GOTOPAUSE..=EMIT => return fields,
                EXIT => {
                    fields?;
                    return test_level(Level(operand), tries);
                }
                SIGNAL..=TRY => fields?,
                11..=15 => return Err(Refusal::Kind),
                _ => return Err(Refusal::Kind),
            }
            left -= 1;
            tries += tried(kind);
            if row.children == 2 {
                self.statement(nodes, n, left, tries)?;
            }
        }
    }
}

// Tests 6 to 11, on the nodes from one place to another: two places of an array, since a slice goes through memory at every call of the
// walk.
pub fn check_nodes(nodes: &[u16; MOST_NODES], from: usize, to: usize) -> Result<u16, Refusal>
    requires { (from ≤ to) × (to ≤ 1024) }
    ensures { checked_outcome result ≡ check_in (whole_of (to - from) (read_from deepest 0 0 (drop from (take to nodes.now)))) }
{
    let mut walk = Walk { at: from, used: 0 };
    walk.statement(nodes, to, DEEPEST, 0)?;
    if walk.at == to {
        Ok((to - from) as u16)
    } else {
        Err(Refusal::Shape)
    }
}

// Check, with the nodes left decoded in front of the buffer.
pub fn load(table: &[u8], nodes: &mut [u16; MOST_NODES]) -> Result<u16, Refusal>
    ensures { (checked_outcome result ≡ check_of table.now) × (nodes.new ≡ loaded_of table.now nodes.old) }
{
    let n = header(table)? as usize;
    decode(table, n, nodes);
    check_nodes(nodes, 0, n)
}

// Whether the bytes are a table: its node count, or the refusal.
pub fn check(table: &[u8]) -> Result<u16, Refusal>
    ensures { checked_outcome result ≡ check_of table.now }
{
    let mut nodes = [0u16; MOST_NODES];
    load(table, &mut nodes)
}
