ghost use Rattle.std.specs.Prelude.{◌≡◌, ℕ, ◌<◌, ◌≤◌, ◌++◌, take, map, length, All, OnOk};
ghost use Rattle.pol_relation.specs.Instances.{FitsAt, read_at};
ghost use Rattle.pol_csp.specs.Variables.{on_variables};

use crate::pool::MOST_PLACES;
use crate::variables::{Variables, spread};
use crate::{Conditions, Place, Pool};
use pol_base::NoMemory;
use pol_relation::Language;
use std::alloc::Global;

/// Conditions on the values of cells, as conditions on the values of their variables.
#[derive(Drop)]
pub(crate) struct Tied<'a, C: Conditions> {
    pub(crate) conditions: &'a C,
    pub(crate) variables: &'a Variables,
}

impl<'a, C: Conditions> Conditions for Tied<'a, C> {
    ghost use Rattle.pol_relation.specs.Instances.{read_at};
    ghost use Rattle.pol_csp.specs.Variables.{TakesSpread};

    ghost wanted = { λ it lang xs. C.wanted it.conditions.now lang (read_at xs it.variables.now.of_cells.items) };

    ghost takes = { λ it lang n. TakesSpread (C.takes it.conditions.now lang)
        it.variables.now.firsts.items it.variables.now.of_cells.items n };

    fn fails(&self, lang: &Language, masks: &[u8]) -> bool {
        let of_cells = self.variables.of_cells.as_slice();
        let cells = spread(masks, of_cells);
        self.conditions.fails(lang, &cells[..of_cells.len()])
    }

    fn more(
        &self,
        alloc: Global,
        lang: &Language,
        values: &[u8],
        place: &mut Place,
        pool: &mut Pool,
    ) -> Result<bool, NoMemory> {
        let of_cells = self.variables.of_cells.as_slice();
        let cells = spread(values, of_cells);
        let mut found = Pool::new(alloc);
        let wanted = self
            .conditions
            .more(alloc, lang, &cells[..of_cells.len()], place, &mut found)?;
        add_on_variables(lang, &found, of_cells, pool)?;
        Ok(wanted)
    }
}

/// Adds the constraints that were found on cells, as constraints on their variables.
fn add_on_variables(
    lang: &Language,
    found: &Pool,
    of_cells: &[u32],
    pool: &mut Pool,
) -> Result<(), NoMemory>
    requires fits { All (FitsAt lang.now (length of_cells.now)) found.now }
    ensures added { OnOk result (pool.new ≡ pool.old ++ map (on_variables of_cells.now) found.now) }
{
    for c in 0..found.len() {
        let relation = found.relation_of(c);
        let _arity = lang.relation(relation).arity();
        let scope = found.scope(c);
        let variables = variables_at(of_cells, scope);
        pool.add(relation, &variables[..scope.len()])?;
    }
    Ok(())
}

/// The variables of the cells of a scope, at the front of an array.
fn variables_at(of_cells: &[u32], scope: &[u32]) -> [u32; MOST_PLACES]
    requires few { length scope.now ≤ 6 }
    requires known { All (λ c. c < length of_cells.now) scope.now }
    ensures read { take (length scope.now) result ≡ read_at of_cells.now scope.now }
    ensures long { length result ≡ 6 }
{
    let mut variables = [0u32; MOST_PLACES];
    for place in 0..scope.len() {
        variables[place] = of_cells[scope[place] as usize];
    }
    variables
}
