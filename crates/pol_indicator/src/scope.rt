ghost use Rattle.std.specs.Prelude.{◌≡◌, ℕ, ◌^◌, ◌<◌, ◌≤◌, length, take, All};
ghost use Rattle.pol_base.specs.Tuples.{cell_of};
ghost use Rattle.pol_optable.specs.Operations.{column};
ghost use Rattle.pol_optable.specs.Breaks.{rows_at};
ghost use Rattle.pol_indicator.specs.Indicators.{scope_of};

use pol_relation::Relation;

/// The cells that the columns of the rows with these numbers name, at the front of an array.
pub(crate) fn scope_at<const K: usize>(r: &Relation, numbers: &[u32; K]) -> [u32; 6]
    requires few_arguments { K ≤ 16 }
    requires few_cells { r.now.domain ^ K ≤ 4096 }
    requires rows { All (λ i. i < length r.now.rows) numbers.now }
    ensures scope { take r.now.arity result ≡ scope_of r.now.domain r.now.arity (rows_at r.now numbers.now) }
    ensures below { All (λ c. c < r.now.domain ^ K) (take r.now.arity result) }
{
    let mut scope = [0u32; 6];
    for place in 0..r.arity() as usize {
        scope[place] = cell_at(r, numbers, place);
    }
    scope
}

/// The cell that the column of the rows with these numbers names.
fn cell_at<const K: usize>(r: &Relation, numbers: &[u32; K], place: usize) -> u32
    requires few_arguments { K ≤ 16 }
    requires few_cells { r.now.domain ^ K ≤ 4096 }
    requires rows { All (λ i. i < length r.now.rows) numbers.now }
    requires place { place < r.now.arity }
    ensures cell { result ≡ cell_of r.now.domain (column (rows_at r.now numbers.now) place) }
    ensures below { result < r.now.domain ^ K }
{
    let size = u32::from(r.domain().size());
    let mut cell = 0u32;
    for number in 0..K {
        cell = cell * size + u32::from(r.row(numbers[number])[place]);
    }
    cell
}
