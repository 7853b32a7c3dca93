ghost use Rattle.std.specs.Prelude.{⊤, ◌≡◌, ◌<◌, ◌↔◌, length, slice_index, All, IsTrue};
ghost use Rattle.pol_optable.specs.Identities.{IsConstant};
ghost use Rattle.pol_identity.specs.ConstantRule.{constant_rule};
ghost use Rattle.pol_identity.specs.ConstantLaws.{constant_ruled, constant_obeys};

use crate::identity::{CellRule, Identity};
use pol_base::Domain;
use pol_optable::OpTable;

/// f(x) = f(y), of one argument. Cell 0 is free and each other cell holds the same.
#[derive(Clone, Copy, Debug)]
pub struct Constant;

/// Whether the value in each cell is that of cell 0.
fn is_one_value(cells: &[u8]) -> bool
    requires some { 0 < length cells.now }
    ensures same { IsTrue result ↔ All (λ v. v ≡ slice_index cells.now 0) cells.now }
{
    let first = cells[0];
    cells.iter().all(|value| *value == first)
}

impl Identity<1> for Constant {
    ghost satisfies = { λ _ f. IsConstant f };

    ghost suits = { λ _ _. ⊤ };

    ghost rule_of = { λ _ _ cell. constant_rule cell };

    ghost ruled = { λ _ d cell _ _ _. constant_ruled d cell };

    ghost obeys = { λ _ f is _ constant. constant_obeys f is constant };

    fn rule(&self, _d: Domain, cell: u32) -> CellRule {
        if cell == 0 {
            CellRule::Free
        } else {
            CellRule::SameAs(0)
        }
    }

    fn fails_in(&self, _d: Domain, _masks: &[u8]) -> bool {
        false
    }

    fn holds(&self, t: &OpTable<1>) -> bool {
        is_one_value(t.cells())
    }
}
