ghost use Rattle.std.specs.Prelude.{◌≡◌, ℕ, ◌-◌, ◌^◌, ◌↔◌, IsTrue, IfOk};
ghost use Rattle.pol_setfn.specs.Sought.{IsIdempotent, IsSought};

use crate::broken::add_broken;
use crate::value_sets::ValueSets;
use pol_base::{NoMemory, value_mask};
use pol_csp::{Conditions, Place, Pool};
use pol_optable::SetFn;
use pol_relation::Language;
use std::alloc::Global;

/// The set functions that preserve a language, idempotent where this is asked, by their cells.
#[derive(Drop)]
pub(crate) struct ClosedSets<'a> {
    sets: ValueSets<'a>,
    idempotent: bool,
}

impl<'a> ClosedSets<'a> {
    pub(crate) fn new(
        alloc: Global,
        lang: &'a Language,
        idempotent: bool,
    ) -> Result<ClosedSets<'a>, NoMemory>
        ensures sets { IfOk result (λ closed. closed.sets ≡ lang.now) }
        ensures idempotent { IfOk result (λ closed. closed.idempotent ≡ idempotent) }
    {
        Ok(ClosedSets {
            sets: ValueSets::new(alloc, lang)?,
            idempotent,
        })
    }
}

impl<'a> Conditions for ClosedSets<'a> {
    ghost wanted = { λ it lang cells. IsSought lang it.idempotent cells };

    ghost takes = { λ it lang n. (n ≡ 2 ^ lang.domain - 1) × (it.sets ≡ lang) };

    fn fails(&self, _lang: &Language, _masks: &[u8]) -> bool {
        false
    }

    fn more(
        &self,
        alloc: Global,
        lang: &Language,
        values: &[u8],
        place: &mut Place,
        pool: &mut Pool,
    ) -> Result<bool, NoMemory> {
        let g = match SetFn::from_cells(alloc, lang.domain(), values)? {
            Some(g) => g,
            None => return Ok(false),
        };
        if self.idempotent && !is_idempotent(&g) {
            return Ok(false);
        }
        add_broken(&self.sets, &g, place, pool)
    }
}

/// Whether the value of each set of one value is that value.
fn is_idempotent(g: &SetFn) -> bool
    ensures idempotent { IsTrue result ↔ IsIdempotent g.now }
{
    for value in 0..g.domain().size() {
        if g.apply(value_mask(value)) != value {
            return false;
        }
    }
    true
}
