ghost use Rattle.std.specs.Prelude.{◌≡◌, ℕ, ◌^◌, ◌≤◌, option_map, IfOk, IfSome};
ghost use Rattle.pol_base.specs.Least.{AnswersLeast};
ghost use Rattle.pol_optable.specs.ClassLines.{IsTable};

use crate::closed::Closed;
use crate::rules::ruled_cells;
use pol_base::NoMemory;
use pol_csp::least_wanted;
use pol_identity::Identity;
use pol_optable::OpTable;
use pol_relation::Language;
use std::alloc::Global;

/// The least table, in lexicographic order of its cells, that satisfies the identity and preserves every
/// relation. None exactly where there is none. Constraints of the indicator problem are made only where a
/// table that is tried breaks them.
///
/// The identity is to suit the domain, `K` to be from 1 to 16, and there are to be at most 4,096 cells.
/// (After R. Gault and P. Jeavons, Implementing a test for tractability, Constraints 9, 2004.)
pub fn least_op<const K: usize, I: Identity<K>>(
    alloc: Global,
    lang: &Language,
    identity: &I,
) -> Result<Option<OpTable<K>>, NoMemory>
    requires suited { I.suits identity.now lang.now.domain }
    requires some_arguments { 1 ≤ K }
    requires few_arguments { K ≤ 16 }
    requires few_cells { lang.now.domain ^ K ≤ 4096 }
    ensures least { IfOk result (λ answer.
        AnswersLeast (IsTable (I.satisfies identity.now) K lang.now) (option_map (λ t. t.cells) answer)) }
    ensures domain { IfOk result (λ answer. IfSome answer (λ t. t.domain ≡ lang.now.domain)) }
{
    let cells = ruled_cells(alloc, lang.domain(), identity)?;
    let closed = Closed::new(alloc, lang, identity)?;
    match least_wanted(alloc, lang, &closed, cells.masks(), cells.ties())? {
        Some(values) => OpTable::from_cells(alloc, lang.domain(), values.as_slice()),
        None => Ok(None),
    }
}
