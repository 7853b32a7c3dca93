ghost use Rattle.std.specs.Prelude.{◌≡◌, ℕ, ◌-◌, ◌^◌, ◌<◌, ◌≤◌, length, IfOk, slice_set, slice_index};
ghost use Rattle.pol_identity.specs.Rules.{IsRule};
ghost use Rattle.pol_indicator.specs.Ruled.{mask_by, tie_by, IsRuledProblem};

use pol_base::{Domain, NoMemory, cells, value_mask};
use pol_csp::Problem;
use pol_identity::{CellRule, Identity};
use std::alloc::Global;

/// The cells of a table of `K` arguments, with the rules of the identity as masks and ties.
pub(crate) fn ruled_cells<const K: usize, I: Identity<K>>(
    alloc: Global,
    d: Domain,
    identity: &I,
) -> Result<Problem, NoMemory>
    requires suited { I.suits identity.now d }
    requires few_arguments { K ≤ 16 }
    requires few_cells { d ^ K ≤ 4096 }
    ensures ruled { IfOk result (IsRuledProblem d K (I.rule_of identity.now d)) }
{
    let _size = d.size();
    let count = cells(d, K as u32).unwrap();
    let mut problem = Problem::new(alloc, d, count)?;
    for cell in 0..count {
        put_rule(&mut problem, cell, identity.rule(d, cell));
    }
    Ok(problem)
}

/// Puts the rule on a cell that is free.
fn put_rule(problem: &mut Problem, cell: u32, rule: CellRule)
    requires known { cell < length problem.old.masks }
    requires rule { IsRule problem.old.domain cell rule }
    requires open { slice_index problem.old.masks cell ≡ 2 ^ problem.old.domain - 1 }
    requires free { slice_index problem.old.ties cell ≡ cell }
    ensures put { problem.new ≡ record {
      domain = problem.old.domain;
      masks = slice_set problem.old.masks cell (mask_by problem.old.domain rule);
      ties = slice_set problem.old.ties cell (tie_by cell rule);
      constraints = problem.old.constraints;
    } }
{
    let _domain = problem.domain();
    match rule {
        CellRule::Free => {}
        CellRule::Value(value) => problem.restrict(cell, value_mask(value)),
        CellRule::SameAs(other) => problem.tie(cell, other),
    }
}
