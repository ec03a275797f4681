// Two lists that lie one above the other made one.
#![tactic(auto, using(crate::proofs::Merges::counted_few, crate::proofs::Merges::counted_many))]

ghost use Rattle.std.specs.Prelude.{◌≡◌, ◌+◌, ◌≤◌, ◌<◌, ◌++◌, drop, length};
ghost use Rattle.esterel.specs.inner.CappedRows.{collect_rows};
ghost use Rattle.rows.specs.inner.Area.{all_rows, rows, rows_from, InOrder, Made, Beside, Split};

use crate::lists::{MOST, Unlisted, search};
use crate::row::Row;
use std::cmp::Ordering;

// The n rows in front, in order, unless they are too many for a list.
fn counted(area: &[Row], n: usize) -> Result<u8, Unlisted>
    requires { (n ≤ length area.now) × InOrder (rows area.now n) }
    ensures { Made area.now 0 (collect_rows (rows area.now n)) result }
{
    if n <= MOST {
        Ok(n as u8)
    } else {
        Err(Unlisted::Over)
    }
}

// The rows of one slice over those of another, which has as many. A loop: the library's `copy_from_slice` became calls of C's `memmove`
// here, for which nothing else asks.
fn copy_rows(to: &mut [Row], from: &[Row])
    requires { length to.old ≡ length from.now }
    ensures { to.new ≡ from.now }
{
    for (i, row) in from.iter().enumerate() {
        to[i] = *row;
    }
}

// The firsts and the rows from the place `mid` on set behind the kept ones in front, the smaller head first, and equal heads once.
fn merge_down(list: &mut [Row], kept: usize, mid: usize, firsts: &[Row]) -> Result<u8, Unlisted>
    requires { Split list.old kept mid firsts.now }
    ensures { Made list.new 0 (collect_rows (rows list.old kept ++ (all_rows firsts.now ++ all_rows (drop mid list.old)))) result }
{
    let end = list.len();
    let mut n = kept;
    let mut i = 0;
    let mut j = mid;
    // Not a `for`: the two heads move at different times, so that one over either list would have a `while` over the other in it.
    while i < firsts.len() && j < end {
        match firsts[i].cmp(&list[j]) {
            Ordering::Less => {
                list[n] = firsts[i];
                i += 1;
            }
            Ordering::Greater => {
                list[n] = list[j];
                j += 1;
            }
            Ordering::Equal => {
                list[n] = list[j];
                i += 1;
                j += 1;
            }
        }
        n += 1;
    }
    let rest = firsts.len() - i;
    copy_rows(&mut list[n..n + rest], &firsts[i..]);
    list.copy_within(j.., n + rest);
    counted(list, n + rest + (end - j))
}

// Of the first list what is below the second stays; the others are copied above the second.
fn merge_both(area: &mut [Row], n1: usize, n2: usize) -> Result<u8, Unlisted>
    requires { Beside area.old n1 n2 × (0 < n2) × (n1 + n2 + 65 ≤ length area.old) }
    ensures { Made area.new 0 (collect_rows (rows area.old n1 ++ rows_from area.old n1 n2)) result }
{
    let head = area[n1];
    let (Ok(kept) | Err(kept)) = search(&area[..n1], head);
    let (lists, top) = area.split_at_mut(n1 + n2);
    let rest = n1 - kept;
    let firsts = &mut top[..rest];
    copy_rows(firsts, &lists[kept..n1]);
    merge_down(lists, kept, n1, firsts)
}

// The n1 rows in front and the n2 above them, each in order, as one list. Both lists lie in one slice, here and in a product, since what
// comes of them is to stand in front of it. They are one as they stand where the last of the first
// is below the first of the second.
pub fn merge(area: &mut [Row], n1: usize, n2: usize) -> Result<u8, Unlisted>
    requires { Beside area.old n1 n2 }
    ensures { Made area.new (n1 + n2 + 65) (collect_rows (rows area.old n1 ++ rows_from area.old n1 n2)) result }
{
    if n1 == 0 || n2 == 0 || area[n1 - 1] < area[n1] {
        return counted(area, n1 + n2);
    }
    if area.len() < n1 + n2 + MOST + 1 {
        return Err(Unlisted::Cramped);
    }
    merge_both(area, n1, n2)
}
