ghost use Rattle.std.specs.Prelude.{◌≡◌, ℕ, ◌^◌, ◌<◌, [], ◌∷◌, Some, None, IfOk, IfSome};
ghost use Rattle.pol_optable.specs.Operations.{value_at};
ghost use Rattle.pol_optable.specs.Identities.{IsSemilattice};
ghost use Rattle.pol_setfn.specs.Folds.{IsFold, IsFoldAt};

use pol_base::{NoMemory, full_mask, has_value};
use pol_optable::{OpTable, SetFn};
use std::alloc::Global;

/// The set function that takes each nonempty set to the operation, which is to be a semilattice operation,
/// applied to its members one by one. What the operation preserves, it preserves too. (After V. Dalmau and
/// J. Pearson, Closure functions and width 1 problems, CP 1999.)
pub fn fold(alloc: Global, op: &OpTable<2>) -> Result<SetFn, NoMemory>
    requires semilattice { IsSemilattice op.now }
    ensures fold { IfOk result (λ g. IsFold op.now g) }
{
    let d = op.domain();
    let count = full_mask(d);
    let mut cells = [0u8; 31];
    for cell in 0..count {
        cells[cell as usize] = fold_at(op, cell + 1);
    }
    let made = SetFn::from_cells(alloc, d, &cells[..count as usize])?;
    Ok(made.unwrap())
}

/// The operation folded over the members of the mask.
fn fold_at(op: &OpTable<2>, mask: u8) -> u8
    requires semilattice { IsSemilattice op.now }
    requires some { 0 < mask }
    requires within { mask < 2 ^ op.now.domain }
    ensures fold { IsFoldAt op.now mask result }
    ensures below { result < op.now.domain }
{
    let d = op.domain();
    let mut folded = None;
    for value in 0..d.size() {
        if has_value(mask, value) {
            folded = Some(with_value(op, value, folded));
        }
    }
    folded.unwrap_or(0)
}

/// The operation of the value and what was folded before, if anything was.
fn with_value(op: &OpTable<2>, value: u8, folded: Option<u8>) -> u8
    requires value { value < op.now.domain }
    requires folded { IfSome folded (λ a. a < op.now.domain) }
    ensures first { folded ≡ None → result ≡ value }
    ensures next { (a : ℕ) → folded ≡ Some a → result ≡ value_at op.now (value ∷ a ∷ []) }
    ensures below { result < op.now.domain }
{
    match folded {
        Some(rest) => op.apply(&[value, rest]),
        None => value,
    }
}
