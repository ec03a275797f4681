// The rows of two parts in one instant.
#![tactic(auto, unfolding(crate::specs::inner::Rules::follow_row, crate::specs::inner::Rules::goes_on))]

ghost use Rattle.std.specs.Prelude.{◌≡◌, Bool, ◌+◌, ◌≤◌, ◌++◌, take, drop, length};
ghost use Rattle.esterel.specs.Reactions.{reached_together};
ghost use Rattle.esterel.specs.inner.Rows.{Row as Meaning};
ghost use Rattle.esterel.specs.inner.CappedRows.{collect_rows};
ghost use Rattle.rows.specs.inner.Layout.{unpacked};
ghost use Rattle.rows.specs.inner.Rules.{unless_clash, follow_row, together_row, goes_on, never, joined_all, pairs, product as product_of};
ghost use Rattle.rows.specs.inner.Area.{all_rows, rows, rows_from, Made, Spare};

use crate::change::Change;
use crate::lists::{MOST, Unlisted, add, alter_from, put};
use crate::row::Row;
use esterel::Code;
use std::marker::PhantomData;

// How the rows of two parts meet: a row of the first with one of the second, and whether it stands alone.
pub trait Pairing {
    ghost joined: { Meaning → Meaning → Meaning };

    ghost alone: { Meaning → Bool };

    fn join(first: Row, second: Row) -> Row
        ensures { unpacked result ≡ joined (unpacked first) (unpacked second) };

    fn stands_alone(row: Row) -> bool
        ensures { result ≡ alone (unpacked row) };
}

// The second begins where the first ends.
#[derive(Clone, Copy)]
pub struct Sequence;

impl Pairing for Sequence {
    ghost joined = { follow_row };

    ghost alone = { goes_on };

    fn join(first: Row, second: Row) -> Row {
        first.beside(second, second.code(), second.labels())
    }

    fn stands_alone(row: Row) -> bool {
        !row.ends()
    }
}

// The labels that two parts reach with the code.
fn reached(code: Code, a: u64, b: u64) -> u64
    ensures { result ≡ reached_together code.0 a b }
{
    if code == Code::PAUSED { a | b } else { 0 }
}

// The two run side by side.
#[derive(Clone, Copy)]
pub struct Parallel;

impl Pairing for Parallel {
    ghost joined = { together_row };

    ghost alone = { never };

    fn join(first: Row, second: Row) -> Row {
        let code = first.code().max(second.code());
        let labels = reached(code, first.labels(), second.labels());
        first.beside(second, code, labels)
    }

    fn stands_alone(_row: Row) -> bool {
        false
    }
}

// A row of the first part, as what it makes of one of the second, unless the two clash.
#[derive(Drop)]
struct Joining<P> {
    first: Row,
    how: PhantomData<P>,
}

impl<P: Pairing> Change for Joining<P> {
    ghost changed = { λ c w. unless_clash (P.joined (unpacked c.first) w) };

    fn change(&self, row: Row) -> Option<Row> {
        P::join(self.first, row).unless_clash()
    }
}

// What a row gives with those of the second part, put among the n in front.
fn add_pairs<P: Pairing>(
    area: &mut [Row],
    n: u8,
    first: Row,
    seconds: &[Row],
) -> Result<u8, Unlisted>
    requires { Spare area.old n }
    ensures { Made area.new 0 (collect_rows (pairs P.alone P.joined (all_rows seconds.now) (unpacked first) ++ rows area.old n)) result }
{
    if P::stands_alone(first) {
        return put(area, n, first);
    }
    let joining = Joining::<P> {
        first,
        how: PhantomData,
    };
    add(area, n, seconds, &joining)
}

// The product of the first row and the others, in place.
fn product_of_one<P: Pairing>(area: &mut [Row]) -> Result<u8, Unlisted>
    requires { 1 ≤ length area.old }
    ensures { Made area.new 0 (collect_rows (product_of P.alone P.joined (rows area.old 1) (all_rows (drop 1 area.old)))) result }
{
    let first = area[0];
    if P::stands_alone(first) {
        return Ok(1);
    }
    let joining = Joining::<P> {
        first,
        how: PhantomData,
    };
    alter_from(area, 1, &joining)
}

// Each of the n1 rows in front with each of the n2 above them, put together above those and moved down.
fn product_of_many<P: Pairing>(area: &mut [Row], n1: usize, n2: usize) -> Result<u8, Unlisted>
    requires { n1 + n2 + 65 ≤ length area.old }
    ensures { Made area.new 0 (collect_rows (product_of P.alone P.joined (rows area.old n1) (rows_from area.old n1 n2))) result }
{
    let both = n1 + n2;
    let (lists, top) = area.split_at_mut(both);
    let (firsts, seconds) = lists.split_at(n1);
    let mut n = 0;
    for first in firsts {
        n = add_pairs::<P>(top, n, *first, seconds)?;
    }
    area.copy_within(both..both + n as usize, 0);
    Ok(n)
}

// The product of the n1 rows in front and the n2 above them.
pub fn product<P: Pairing>(area: &mut [Row], n1: usize, n2: usize) -> Result<u8, Unlisted>
    requires { n1 + n2 ≤ length area.old }
    ensures { Made area.new (n1 + n2 + 65) (collect_rows (product_of P.alone P.joined (rows area.old n1) (rows_from area.old n1 n2))) result }
{
    if n1 == 1 {
        return product_of_one::<P>(&mut area[..=n2]);
    }
    if area.len() < n1 + n2 + MOST + 1 {
        return Err(Unlisted::Cramped);
    }
    product_of_many::<P>(area, n1, n2)
}
