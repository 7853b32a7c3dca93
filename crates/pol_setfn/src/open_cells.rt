ghost use Rattle.std.specs.Prelude.{IfOk};
ghost use Rattle.pol_setfn.specs.OpenCells.{AreOpen};

use pol_base::{Domain, NoMemory, full_mask, value_mask};
use pol_csp::Problem;
use std::alloc::Global;

/// The cells of a set function. Where it is to be idempotent, the cell of each set of one value has that
/// value alone open.
pub(crate) fn cells_for(alloc: Global, d: Domain, idempotent: bool) -> Result<Problem, NoMemory>
    ensures cells { IfOk result (AreOpen d idempotent) }
{
    // for its clause that there is a value
    let _size = d.size();
    let mut cells = Problem::new(alloc, d, u32::from(full_mask(d)))?;
    if idempotent {
        for value in 0..d.size() {
            let mask = value_mask(value);
            cells.restrict(u32::from(mask) - 1, mask);
        }
    }
    Ok(cells)
}
