ghost use Rattle.std.specs.Prelude.{◌≡◌, option_map, IfOk, IfSome};
ghost use Rattle.pol_base.specs.Least.{AnswersLeast};
ghost use Rattle.pol_setfn.specs.Sought.{IsSought};

use crate::closed::ClosedSets;
use crate::open_cells::cells_for;
use pol_base::NoMemory;
use pol_csp::least_wanted;
use pol_optable::SetFn;
use pol_relation::Language;
use std::alloc::Global;

/// The least set function, by its values in the order of the masks, that preserves every relation and, where
/// `idempotent`, takes each set of one value to that value. None exactly where there is none. That the sets
/// of values at the places of some rows are taken to a row is a constraint on its cells; one is made only
/// where a set function that is tried breaks it.
pub fn least_setfn(
    alloc: Global,
    lang: &Language,
    idempotent: bool,
) -> Result<Option<SetFn>, NoMemory>
    ensures least { IfOk result (λ answer.
        AnswersLeast (IsSought lang.now idempotent) (option_map (λ g. g.cells) answer)) }
    ensures domain { IfOk result (λ answer. IfSome answer (λ g. g.domain ≡ lang.now.domain)) }
{
    let cells = cells_for(alloc, lang.domain(), idempotent)?;
    let closed = ClosedSets::new(alloc, lang, idempotent)?;
    match least_wanted(alloc, lang, &closed, cells.masks(), cells.ties())? {
        Some(values) => SetFn::from_cells(alloc, lang.domain(), values.as_slice()),
        None => Ok(None),
    }
}
