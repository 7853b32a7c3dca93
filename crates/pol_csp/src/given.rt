ghost use Rattle.std.specs.Prelude.{◌≡◌, ℕ, ◌<◌, ◌↔◌, ◌⊎◌, length, All, Contains, IsTrue, IfOk, slice_index_or};
ghost use Rattle.pol_base.specs.Tuples.{IsTuple};
ghost use Rattle.pol_base.specs.Masks.{single_masks};
ghost use Rattle.pol_relation.specs.Instances.{Meets, no_constraint};
ghost use Rattle.pol_csp.specs.Narrowing.{MeetsAll};
ghost use Rattle.pol_csp.specs.Problems.{FitsLanguage};

use crate::pool::MOST_PLACES;
use crate::{Conditions, Filter, Place, Pool, Problem};
use pol_base::{NoMemory, value_mask};
use pol_relation::Language;
use std::alloc::Global;

/// How many constraints are added where one list breaks many.
const MOST_ADDED: u32 = 50;

/// The lists that meet the constraints of a problem, and that a filter wants.
#[derive(Drop)]
pub(crate) struct Given<'a, F: Filter> {
    pub(crate) problem: &'a Problem,
    pub(crate) filter: &'a F,
}

impl<'a, F: Filter> Conditions for Given<'a, F> {
    ghost use Rattle.pol_csp.specs.Problems.{IsKept, TakesCells};

    ghost wanted = { λ it lang xs. IsKept lang it.problem.now (F.wanted it.filter.now) xs };

    ghost takes = { λ it lang n. TakesCells (F.takes it.filter.now lang.domain) lang it.problem.now n };

    fn fails(&self, lang: &Language, masks: &[u8]) -> bool {
        self.filter.fails(lang.domain(), masks)
    }

    fn more(
        &self,
        alloc: Global,
        lang: &Language,
        values: &[u8],
        _place: &mut Place,
        pool: &mut Pool,
    ) -> Result<bool, NoMemory> {
        if !add_broken(self.problem, lang, values, pool)? {
            return Ok(false);
        }
        let masks = masks_of_one(alloc, lang, values)?;
        Ok(!self.filter.fails(lang.domain(), masks.as_slice()))
    }
}

/// Whether the list meets every constraint of the problem. Some of those that it breaks are added.
fn add_broken(
    problem: &Problem,
    lang: &Language,
    values: &[u8],
    pool: &mut Pool,
) -> Result<bool, NoMemory>
    requires fits { FitsLanguage lang.now problem.now }
    requires tuple { IsTuple lang.now.domain (length problem.now.masks) values.now }
    ensures met { IfOk result (λ yes. IsTrue yes ↔ MeetsAll lang.now problem.now.constraints values.now) }
    ensures from { IfOk result (λ _. All (λ c. Contains pool.old c ⊎ Contains problem.now.constraints c) pool.new) }
{
    let mut added = 0u32;
    for c in 0..problem.constraints() {
        if !meets(problem, lang, c, values) {
            pool.add(problem.relation_of(c), problem.scope(c))?;
            added += 1;
            if added == MOST_ADDED {
                return Ok(false);
            }
        }
    }
    Ok(added == 0)
}

/// Whether the list meets the constraint of the problem.
fn meets(problem: &Problem, lang: &Language, c: u32, values: &[u8]) -> bool
    requires known { c < length problem.now.constraints }
    requires fits { FitsLanguage lang.now problem.now }
    requires tuple { IsTuple lang.now.domain (length problem.now.masks) values.now }
    ensures meets { IsTrue result ↔
        Meets lang.now (slice_index_or problem.now.constraints c no_constraint) values.now }
{
    let scope = problem.scope(c);
    let mut tuple = [0u8; MOST_PLACES];
    for place in 0..scope.len() {
        tuple[place] = values[scope[place] as usize];
    }
    lang.relation(problem.relation_of(c))
        .has(&tuple[..scope.len()])
}

/// The masks that leave open one value each.
fn masks_of_one(alloc: Global, lang: &Language, values: &[u8]) -> Result<Vec<u8>, NoMemory>
    requires tuple { IsTuple lang.now.domain (length values.now) values.now }
    ensures single { IfOk result (λ masks. masks.items ≡ single_masks values.now) }
{
    let _domain = lang.domain();
    let mut masks = Vec::new(alloc);
    for cell in 0..values.len() {
        masks.push(value_mask(values[cell]))?;
    }
    Ok(masks)
}
