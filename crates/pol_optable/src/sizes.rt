ghost use Rattle.std.specs.Prelude.{◌≡◌, ◌^◌, IfSome, IfNone};
ghost use Rattle.pol_optable.specs.Tables.{IsTableSize};

use pol_base::{Domain, cells};

const MOST_CELLS: u32 = 4096;

/// The number of cells of a table of `k` arguments. None where `k` is 0 or there are more than 4,096.
pub(crate) fn table_size(d: Domain, k: usize) -> Option<usize>
    ensures size { IfSome result (λ n. n ≡ d ^ k) }
    ensures some { IfSome result (λ n. IsTableSize d k) }
    ensures none { IfNone result (¬ IsTableSize d k) }
{
    if k == 0 || k > MOST_CELLS as usize {
        return None;
    }
    match cells(d, k as u32) {
        Some(n) if n <= MOST_CELLS => Some(n as usize),
        _ => None,
    }
}
