// The reactions of rows into result buffers, as numbers and as bytes.
ghost use Rattle.std.specs.Prelude.{◌≡◌, ℕ, List, [], ◌∷◌, ◌++◌, ◌+◌, ◌*◌, ◌/◌, ◌≤◌, length, take, drop};
ghost use Rattle.table.specs.Bits.{bytes};
ghost use Rattle.list.specs.inner.Finding.{Delivers};

use rows::Row;
use table::Refusal;

// What the elements of a result buffer make of a number: each of the buffer's places has so many of them, and holds it so spelled.
pub trait Place<N> {
    ghost width: { ℕ };

    ghost spell: { N → List Self };

    // How many whole places there are.
    fn places(buffer: &[Self]) -> usize
        ensures { result ≡ length buffer.now / width };

    // The number put in a place.
    fn put(buffer: &mut [Self], place: usize, number: N)
        requires { width * place + width ≤ length buffer.old }
        ensures { buffer.new ≡ take (width * place) buffer.old ++ spell number ++ drop (width * place + width) buffer.old };
}

// A number itself.
impl<N: Copy> Place<N> for N {
    ghost width = { 1 };

    ghost spell = { λ number. number ∷ [] };

    fn places(buffer: &[N]) -> usize {
        buffer.len()
    }

    fn put(buffer: &mut [N], place: usize, number: N) {
        buffer[place] = number;
    }
}

// Its bytes, most significant first. Each width has its impl: one for all numbers would overlap with that of a number itself.
impl Place<u32> for u8 {
    ghost width = { 4 };

    ghost spell = { bytes 4 };

    fn places(buffer: &[u8]) -> usize {
        buffer.len() / 4
    }

    fn put(buffer: &mut [u8], place: usize, number: u32) {
        buffer[4 * place..4 * place + 4].copy_from_slice(&number.to_be_bytes());
    }
}

impl Place<u64> for u8 {
    ghost width = { 8 };

    ghost spell = { bytes 8 };

    fn places(buffer: &[u8]) -> usize {
        buffer.len() / 8
    }

    fn put(buffer: &mut [u8], place: usize, number: u64) {
        buffer[8 * place..8 * place + 8].copy_from_slice(&number.to_be_bytes());
    }
}

// The reactions of rows, or refusal 16.
pub fn deliver<O: Place<u32>, L: Place<u64>>(
    rows: &[Row],
    o: &mut [O],
    k: &mut [u8],
    l: &mut [L],
) -> Result<u32, Refusal>
    requires { length rows.now ≤ 64 }
    ensures { Delivers O.width O.spell L.width L.spell rows.now result o.old o.new k.old k.new l.old l.new }
{
    let places = O::places(o).min(k.len()).min(L::places(l));
    if places < rows.len() {
        return Err(Refusal::Places);
    }
    for (i, row) in rows.iter().enumerate() {
        O::put(o, i, row.emitted() as u32);
        k[i] = row.code().0 as u8;
        L::put(l, i, row.labels());
    }
    Ok(rows.len() as u32)
}
