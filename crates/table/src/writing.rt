// Writing a table: nodes are made within their kind's range, gathered four at a time, 40 bits, and leave as five bytes.
ghost use Rattle.std.specs.Prelude.{◌≡◌, ◌+◌, ◌*◌, ◌/◌, ◌%◌, ◌^◌, ◌≤◌, ◌<◌, ◌++◌, length, take, drop};
ghost use Rattle.std.proofs.Math.Seq.{paste};
ghost use Rattle.table.specs.Bits.{bytes, Below};
ghost use Rattle.table.specs.Reading.{length_of};
ghost use Rattle.table.specs.Writing.{write_nodes};
ghost use Rattle.table.specs.inner.Making.{in_range, node_of, Gathered, Writable};

use crate::Row;
use crate::kinds::row_of;

const EDITION: u64 = 1;

// The operand, or the nearest in the range of a kind.
fn in_range(row: Row, operand: u8) -> u8
    requires { row.least ≤ row.most }
    ensures { result ≡ in_range row operand }
{
    operand.clamp(row.least, row.most)
}

// A node of the kind. Whatever the operand, it stays in the kind's range and out of the kind's bits.
pub fn node_of(kind: u16, operand: u8) -> u16
    requires { kind < 16 }
    ensures { result ≡ node_of kind operand }
{
    let row = row_of(kind);
    kind << 6 | in_range(row, operand) as u16
}

// The byte that stands `shift` bits up in a word. By shifts and masks, as document 01 asks; `to_be_bytes` would give all eight, of
// which the five of four nodes are wanted, or two.
fn byte_of(word: u64, shift: usize) -> u8
    requires { shift < 64 }
    ensures { result ≡ word / 2 ^ shift % 256 }
{
    (word >> shift & 255) as u8
}

// Puts the last `count` bytes of the word at `at`, the most significant first.
pub fn put_bytes(out: &mut [u8], at: usize, word: u64, count: usize)
    requires { (count ≤ 8) × (at + count ≤ length out.old) }
    ensures { out.new ≡ paste out.old at (bytes count word) count }
{
    for i in 0..count {
        out[at + i] = byte_of(word, 8 * (count - i - 1));
    }
}

// At most four nodes as one number, 10 bits each, the first in the highest bits.
fn gather(nodes: &[u16]) -> u64
    requires { (length nodes.now ≤ 4) × Below 1024 nodes.now }
    ensures { Gathered nodes.now (length nodes.now) result }
{
    let mut word: u64 = 0;
    for node in nodes {
        word = word << 10 | *node as u64;
    }
    word
}

// The length of a table of `count` nodes.
pub fn length_of(count: usize) -> usize
    requires { count < 4096 }
    ensures { result ≡ length_of count }
{
    2 + (10 * count + 7) / 8
}

// Writes the table of the nodes at the front of `out` and gives its length. The rest of `out` is untouched.
pub fn write_nodes(nodes: &[u16], out: &mut [u8]) -> usize
    requires { Writable nodes.now (length out.old) }
    ensures { (result ≡ length (write_nodes nodes.now)) × (out.new ≡ write_nodes nodes.now ++ drop result out.old) }
{
    let count = nodes.len();
    let total = length_of(count);
    put_bytes(out, 0, count as u64 | EDITION << 12, 2);
    let fours = count / 4;
    for four in 0..fours {
        let word = gather(&nodes[4 * four..4 * four + 4]);
        put_bytes(out, 2 + 5 * four, word, 5);
    }
    let left = count % 4;
    let at = 2 + 5 * fours;
    let size = total - at;
    let word = gather(&nodes[count - left..]);
    put_bytes(out, at, word << (8 * size - 10 * left), size);
    total
}
