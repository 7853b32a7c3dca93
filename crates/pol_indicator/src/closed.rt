ghost use Rattle.std.specs.Prelude.{◌≡◌, ℕ, ◌^◌, ◌≤◌, length, IfOk};
ghost use Rattle.pol_optable.specs.ClassLines.{IsTable};
ghost use Rattle.pol_indicator.specs.Closing.{IsOver};

use crate::broken::add_broken;
use crate::row_sets::RowSets;
use pol_base::NoMemory;
use pol_csp::{Conditions, Place, Pool};
use pol_identity::Identity;
use pol_optable::OpTable;
use pol_relation::Language;
use std::alloc::Global;

/// The operations of `K` arguments that satisfy an identity and preserve a language, by their cells.
#[derive(Drop)]
pub(crate) struct Closed<'a, const K: usize, I: Identity<K>> {
    identity: &'a I,
    rows: RowSets<'a>,
}

impl<'a, const K: usize, I: Identity<K>> Closed<'a, K, I> {
    pub(crate) fn new(
        alloc: Global,
        lang: &'a Language,
        identity: &'a I,
    ) -> Result<Closed<'a, K, I>, NoMemory>
        ensures identity { IfOk result (λ closed. closed.identity.now ≡ identity.now) }
        ensures rows { IfOk result (λ closed. closed.rows ≡ lang.now) }
    {
        Ok(Closed {
            identity,
            rows: RowSets::new(alloc, lang)?,
        })
    }
}

impl<'a, const K: usize, I: Identity<K>> Conditions for Closed<'a, K, I> {
    ghost wanted = { λ it lang cells. IsTable (I.satisfies it.identity.now) K lang cells };

    ghost takes = { λ it lang n. IsOver lang K n × (it.rows ≡ lang) × I.suits it.identity.now lang.domain };

    fn fails(&self, lang: &Language, masks: &[u8]) -> bool {
        self.identity.fails_in(lang.domain(), masks)
    }

    fn more(
        &self,
        alloc: Global,
        lang: &Language,
        values: &[u8],
        place: &mut Place,
        pool: &mut Pool,
    ) -> Result<bool, NoMemory> {
        let table = match OpTable::<K>::from_cells(alloc, lang.domain(), values)? {
            Some(table) => table,
            None => return Ok(false),
        };
        if !self.identity.holds(&table) {
            return Ok(false);
        }
        add_broken(&self.rows, &table, place, pool)
    }
}
