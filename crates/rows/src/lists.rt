// Rows put into lists, and lists changed row by row.
#![tactic(auto, using(crate::proofs::Puts::put_there, crate::proofs::Puts::put_full))]

ghost use Rattle.std.specs.Prelude.{◌≡◌, [], ◌∷◌, ◌++◌, ◌≤◌, ◌<◌, drop, length, IfOk, IsOk};
ghost use Rattle.std.proofs.Math.Option.{some};
ghost use Rattle.esterel.specs.Listing.{some_ends};
ghost use Rattle.esterel.specs.inner.Rows.{reactions, each_row};
ghost use Rattle.esterel.specs.inner.CappedRows.{collect_rows};
ghost use Rattle.rows.specs.inner.Layout.{unpacked};
ghost use Rattle.rows.specs.inner.Area.{all_rows, rows, InOrder, Searched, Made, Put, Open, Spare};

use crate::change::Change;
use crate::row::Row;

// The most rows of a list, so that a byte tells how many it has: with a reason of one byte the result then comes back in registers,
// where one with a usize goes through memory at each of the lister's statements, and took up to 20 % longer.
pub const MOST: usize = 64;

// Why there is no list: it would have over MOST rows; the area is too small for it; it was refused.
#[derive(Clone, Copy, Debug, PartialEq, Eq)]
pub enum Unlisted {
    Over,
    Cramped,
    Refused,
}

// Where a row stands in a list, or where it belongs. Most belong behind the last, or are the last once more.
pub(crate) fn search(list: &[Row], row: Row) -> Result<usize, usize>
    requires { InOrder (all_rows list.now) }
    ensures { Searched list.now (unpacked row) result }
{
    let n = list.len();
    if n == 0 || list[n - 1] < row {
        return Err(n);
    }
    if list[n - 1] == row {
        return Ok(n - 1);
    }
    list.binary_search(&row)
}

// A row put among the n in front, unless it is there: the one way into a list that is made row by row. It is compiled into each loop that
// fills one, which is quicker by up to 12 %.
#[inline(always)]
pub(crate) fn put(area: &mut [Row], n: u8, row: Row) -> Result<u8, Unlisted>
    requires { Open area.old n }
    ensures { Put area.old area.new n (unpacked row) result }
{
    let end = n as usize;
    let Err(place) = search(&area[..end], row) else {
        return Ok(n);
    };
    if end == MOST {
        return Err(Unlisted::Over);
    }
    area.copy_within(place..end, place + 1);
    area[place] = row;
    Ok(n + 1)
}

// The rows of a list changed, each put among the n in front of an area.
pub(crate) fn add<C: Change>(
    area: &mut [Row],
    n: u8,
    list: &[Row],
    change: &C,
) -> Result<u8, Unlisted>
    requires { Spare area.old n }
    ensures { Made area.new 0 (collect_rows (each_row (all_rows list.now) (C.changed change.now) ++ rows area.old n)) result }
{
    let mut count = n;
    for row in list {
        if let Some(row) = change.change(*row) {
            count = put(area, count, row)?;
        }
    }
    Ok(count)
}

// The list of one row.
pub fn one(area: &mut [Row], row: Row) -> u8
    requires { 0 < length area.old }
    ensures { Made area.new 0 (some (unpacked row ∷ [])) (Ok result) }
{
    area[0] = row;
    1
}

// The rows from the place `from` on changed, put together in front: what is put there stays below what is still to be read.
pub(crate) fn alter_from<C: Change>(
    area: &mut [Row],
    from: usize,
    change: &C,
) -> Result<u8, Unlisted>
    requires { from ≤ length area.old }
    ensures made { Made area.new 0 (collect_rows (each_row (all_rows (drop from area.old)) (C.changed change.now))) result }
    ensures no_more { IfOk result (λ n. n ≤ length area.old) }
    ensures few { length area.old ≤ 64 → IsOk result }
{
    let mut n = 0;
    for i in from..area.len() {
        if let Some(row) = change.change(area[i]) {
            n = put(&mut area[..=i], n, row)?;
        }
    }
    Ok(n)
}

// Each row of a list changed, in place. A list of at most MOST rows stays one.
pub fn alter<C: Change>(list: &mut [Row], change: &C) -> Result<u8, Unlisted>
    ensures made { Made list.new 0 (collect_rows (each_row (all_rows list.old) (C.changed change.now))) result }
    ensures no_more { IfOk result (λ n. n ≤ length list.old) }
    ensures few { length list.old ≤ 64 → IsOk result }
{
    alter_from(list, 0, change)
}

// Whether some row ends, with the code 0.
pub fn some_ends(list: &[Row]) -> bool
    ensures { result ≡ some_ends (reactions (all_rows list.now)) }
{
    list.iter().any(|row| row.ends())
}
