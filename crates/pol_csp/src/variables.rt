ghost use Rattle.std.specs.Prelude.{◌≡◌, ℕ, ◌<◌, ◌≤◌, List, take, length, All, IfOk, MatchOption};
ghost use Rattle.pol_base.specs.Masks.{IsWithin};
ghost use Rattle.pol_relation.specs.Instances.{read_at};
ghost use Rattle.pol_csp.specs.Variables.{AreTies, AreVariables, IsNumbered, AreShared};

use pol_base::NoMemory;
use std::alloc::Global;

/// How many cells a problem may have.
pub(crate) const MOST_CELLS: usize = 4096;

/// The variable of each cell, where tied cells share one, and the first cell of each variable.
#[derive(Drop)]
pub(crate) struct Variables {
    pub(crate) of_cells: Vec<u32>,
    pub(crate) firsts: Vec<u32>,
}

/// A variable for each cell that is not tied to a lower one. Tied cells have the variable of their tie.
pub(crate) fn variables_of(alloc: Global, ties: &[u32]) -> Result<Variables, NoMemory>
    requires few { length ties.now ≤ 4096 }
    requires ties { AreTies ties.now }
    ensures numbered { IfOk result (λ v. IsNumbered ties.now (length ties.now) v.firsts.items v.of_cells.items) }
{
    let mut of_cells = Vec::new(alloc);
    let mut firsts = Vec::new(alloc);
    for cell in 0..ties.len() {
        let tie = ties[cell] as usize;
        if tie < cell {
            let shared = of_cells[tie];
            of_cells.push(shared)?;
        } else {
            let fresh = firsts.len() as u32;
            of_cells.push(fresh)?;
            firsts.push(cell as u32)?;
        }
    }
    Ok(Variables { of_cells, firsts })
}

/// The values of the cells, each that of its variable, at the front of an array.
pub(crate) fn spread(values: &[u8], of_cells: &[u32]) -> [u8; MOST_CELLS]
    requires few { length of_cells.now ≤ 4096 }
    requires known { All (λ v. v < length values.now) of_cells.now }
    ensures read { take (length of_cells.now) result ≡ read_at values.now of_cells.now }
    ensures long { length result ≡ 4096 }
{
    let mut cells = [0u8; MOST_CELLS];
    for cell in 0..of_cells.len() {
        cells[cell] = values[of_cells[cell] as usize];
    }
    cells
}

/// The values that are open to all cells of each variable. None where some variable has none.
pub(crate) fn shared_masks(
    alloc: Global,
    variables: &Variables,
    masks: &[u8],
) -> Result<Option<Vec<u8>>, NoMemory>
    requires variables { AreVariables variables.now.firsts.items variables.now.of_cells.items }
    requires few { length variables.now.firsts.items ≤ 4096 }
    requires cells { length masks.now ≡ length variables.now.of_cells.items }
    ensures shared { IfOk result (λ answer. MatchOption answer
        ((xs : List ℕ) → ¬ IsWithin masks.now (read_at xs variables.now.of_cells.items))
        (λ shared. AreShared variables.now.firsts.items variables.now.of_cells.items masks.now shared.items)) }
{
    let firsts = spread(masks, variables.firsts.as_slice());
    let mut shared = Vec::from_slice(alloc, &firsts[..variables.firsts.len()])?;
    for cell in 0..masks.len() {
        let variable = variables.of_cells[cell] as usize;
        let left = shared[variable] & masks[cell];
        if left == 0 {
            return Ok(None);
        }
        shared[variable] = left;
    }
    Ok(Some(shared))
}
