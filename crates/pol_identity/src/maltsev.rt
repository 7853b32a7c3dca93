ghost use Rattle.std.specs.Prelude.{⊤};
ghost use Rattle.pol_optable.specs.Identities.{IsMaltsev};
ghost use Rattle.pol_identity.specs.MaltsevRule.{maltsev_rule};
ghost use Rattle.pol_identity.specs.MaltsevLaws.{maltsev_ruled, maltsev_obeys};

use crate::identity::{CellRule, Identity};
use pol_base::{Domain, digit};
use pol_optable::OpTable;

/// f(x, y, y) = x and f(y, y, x) = x. (A. I. Mal'tsev, On the general theory of algebraic systems,
/// Matematicheskii Sbornik 35, 1954.)
#[derive(Clone, Copy, Debug)]
pub struct Maltsev;

impl Identity<3> for Maltsev {
    ghost satisfies = { λ _ f. IsMaltsev f };

    ghost suits = { λ _ _. ⊤ };

    ghost rule_of = { λ _ d cell. maltsev_rule d cell };

    ghost ruled = { λ _ d cell some _ known. maltsev_ruled d cell some known };

    ghost obeys = { λ _ f is _ maltsev. maltsev_obeys f is maltsev };

    fn rule(&self, d: Domain, cell: u32) -> CellRule {
        let x = digit(d, 3, cell, 0);
        let y = digit(d, 3, cell, 1);
        let z = digit(d, 3, cell, 2);
        if y == z {
            CellRule::Value(x)
        } else if x == y {
            CellRule::Value(z)
        } else {
            CellRule::Free
        }
    }

    fn fails_in(&self, _d: Domain, _masks: &[u8]) -> bool {
        false
    }

    fn holds(&self, t: &OpTable<3>) -> bool {
        let size = t.domain().size();
        for x in 0..size {
            for y in 0..size {
                if t.apply(&[x, y, y]) != x || t.apply(&[y, y, x]) != x {
                    return false;
                }
            }
        }
        true
    }
}
