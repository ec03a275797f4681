// What statements do with each row of their bodies.
#![tactic(auto, using(crate::proofs::Changes::change_laws), unfolding(crate::specs::inner::Rules::given_row, crate::specs::inner::Rules::going_row))]

ghost use Rattle.std.specs.Prelude.{◌≡◌, [], ◌∷◌, List, ◌<◌, ◌^◌};
ghost use Rattle.esterel.specs.inner.Rows.{Row as Meaning, local_row};
ghost use Rattle.rows.specs.inner.Layout.{unpacked};
ghost use Rattle.rows.specs.inner.Rules.{hide_row, given_row, going_row, caught_row};
ghost use Rattle.rows.specs.inner.Area.{optional};

use crate::condition::Condition;
use crate::row::Row;

// What becomes of a row, if it does not go.
pub trait Change {
    ghost changed: { Self → Meaning → List Meaning };

    fn change(&self, row: Row) -> Option<Row>
        ensures { optional result ≡ changed self.now (unpacked row) };
}

// A local signal that is present.
#[derive(Clone, Copy)]
pub struct Hide {
    pub signal: u8,
}

impl Change for Hide {
    ghost changed = { λ c. hide_row c.signal };

    fn change(&self, row: Row) -> Option<Row> {
        let emitted = row.emitted();
        if !sets::contains(emitted, self.signal) {
            return None;
        }
        Some(row.with_emitted(sets::without(emitted, self.signal)))
    }
}

// A local signal that is unknown, with its slot.
#[derive(Clone, Copy)]
pub struct Local {
    pub signal: u8,
    pub slot: u8,
}

impl Change for Local {
    ghost changed = { λ c. local_row c.signal c.slot };

    fn change(&self, row: Row) -> Option<Row> {
        let condition = row.condition();
        let rest = row.under(condition.forgetting(self.slot));
        let emitted = row.emitted();
        if sets::contains(emitted, self.signal) {
            return Some(rest.with_emitted(sets::without(emitted, self.signal)));
        }
        if condition.needs(self.slot) {
            return None;
        }
        Some(rest)
    }
}

// A branch of a test on an unknown signal, with the condition that it adds.
#[derive(Clone, Copy)]
pub struct Given {
    pub condition: Condition,
}

impl Change for Given {
    ghost changed = { λ c. given_row c.condition };

    fn change(&self, row: Row) -> Option<Row> {
        let both = self.condition.both(row.condition());
        row.under(both).unless_clash()
    }
}

// A loop.
#[derive(Clone, Copy)]
pub struct Going;

impl Change for Going {
    ghost changed = { λ _. going_row };

    fn change(&self, row: Row) -> Option<Row> {
        if row.ends() { None } else { Some(row) }
    }
}

// A try.
#[derive(Clone, Copy)]
pub struct Caught;

impl Change for Caught {
    ghost changed = { λ _. caught_row };

    fn change(&self, row: Row) -> Option<Row> {
        Some(row.with_code(row.code().through_try()))
    }
}
