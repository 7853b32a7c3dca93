ghost use Rattle.std.specs.Prelude.{◌≡◌, ℕ, ◌≤◌, length, IfOk};
ghost use Rattle.pol_base.specs.Least.{AnswersLeast};
ghost use Rattle.pol_base.specs.Masks.{AreMasks};
ghost use Rattle.pol_csp.specs.Variables.{AreTies, IsFoundTied};
ghost use Rattle.pol_csp.specs.Problems.{FitsLanguage, IsWanted};

use crate::given::Given;
use crate::search::least_within;
use crate::tied::Tied;
use crate::variables::{shared_masks, spread, variables_of};
use crate::{Conditions, Filter, Problem};
use pol_base::{NoMemory, Values};
use pol_relation::Language;
use std::alloc::Global;

/// The least list, a value for each cell, in lexicographic order, that is within the masks, equal at tied
/// cells, and wanted. None exactly where there is none. Masks and ties are those of the cells in their order,
/// at most 4,096; a tie is a lower cell, or the cell itself. Masks are narrowed by constraints of any arity.
/// (A. K. Mackworth, Consistency in networks of relations, Artificial Intelligence 8, 1977.)
pub fn least_wanted<C: Conditions>(
    alloc: Global,
    lang: &Language,
    conditions: &C,
    masks: &[u8],
    ties: &[u32],
) -> Result<Option<Values>, NoMemory>
    requires few { length masks.now ≤ 4096 }
    requires masks { AreMasks lang.now.domain masks.now }
    requires all_tied { length ties.now ≡ length masks.now }
    requires ties { AreTies ties.now }
    requires taken { C.takes conditions.now lang.now (length masks.now) }
    ensures least { IfOk result (λ answer.
        AnswersLeast (IsFoundTied (C.wanted conditions.now lang.now) masks.now ties.now) answer) }
{
    let variables = variables_of(alloc, ties)?;
    let Some(shared) = shared_masks(alloc, &variables, masks)? else {
        return Ok(None);
    };
    let tied = Tied {
        conditions,
        variables: &variables,
    };
    let Some(values) = least_within(alloc, lang, &tied, shared.as_slice())? else {
        return Ok(None);
    };
    let cells = spread(values.as_slice(), variables.of_cells.as_slice());
    Ok(Some(Values::from_slice(alloc, &cells[..ties.len()])?))
}

/// The least list, a value for each cell, in lexicographic order, that the problem admits and the filter
/// wants. None exactly where there is none. The problem is to have the domain of the language, and each of
/// its constraints a relation of the language and as many cells as the arity of that.
pub fn least<F: Filter>(
    alloc: Global,
    problem: &Problem,
    lang: &Language,
    filter: &F,
) -> Result<Option<Values>, NoMemory>
    requires fits { FitsLanguage lang.now problem.now }
    requires taken { F.takes filter.now problem.now.domain (length problem.now.masks) }
    ensures least { IfOk result (λ answer.
        AnswersLeast (IsWanted lang.now problem.now (F.wanted filter.now)) answer) }
{
    let given = Given { problem, filter };
    least_wanted(alloc, lang, &given, problem.masks(), problem.ties())
}
