ghost use Rattle.std.specs.Prelude.{◌≡◌, ℕ, ◌<◌, ◌↔◌, [], ◌∷◌, ⊤, IsTrue};
ghost use Rattle.pol_optable.specs.Operations.{value_at};
ghost use Rattle.pol_optable.specs.Identities.{IsSemilattice};
ghost use Rattle.pol_identity.specs.SemilatticeRule.{semilattice_rule};
ghost use Rattle.pol_identity.specs.SemilatticeLaws.{semilattice_ruled, semilattice_obeys};

use crate::association::{is_associative, some_clash};
use crate::identity::{CellRule, Identity};
use pol_base::{Domain, cell_of, digit};
use pol_optable::OpTable;

/// f(x, x) = x, f(x, y) = f(y, x), f(x, f(y, z)) = f(f(x, y), z). The rules ask for the first two. The third
/// is no rule of single cells, and `fails_in` looks for where it breaks.
#[derive(Clone, Copy, Debug)]
pub struct Semilattice;

/// Whether f(x, x) = x at all arguments.
fn is_idempotent(t: &OpTable<2>) -> bool
    ensures idempotent { IsTrue result ↔ ((x : ℕ) → x < t.now.domain → value_at t.now (x ∷ x ∷ []) ≡ x) }
{
    for x in 0..t.domain().size() {
        if t.apply(&[x, x]) != x {
            return false;
        }
    }
    true
}

/// Whether f(x, y) = f(y, x) at all arguments.
fn is_commutative(t: &OpTable<2>) -> bool
    ensures commutative { IsTrue result ↔ ((x y : ℕ) → x < t.now.domain → y < t.now.domain
        → value_at t.now (x ∷ y ∷ []) ≡ value_at t.now (y ∷ x ∷ [])) }
{
    let size = t.domain().size();
    for x in 0..size {
        for y in 0..size {
            if t.apply(&[x, y]) != t.apply(&[y, x]) {
                return false;
            }
        }
    }
    true
}

impl Identity<2> for Semilattice {
    ghost satisfies = { λ _ f. IsSemilattice f };

    ghost suits = { λ _ _. ⊤ };

    ghost rule_of = { λ _ d cell. semilattice_rule d cell };

    ghost ruled = { λ _ d cell some _ known. semilattice_ruled d cell some known };

    ghost obeys = { λ _ f is _ semilattice. semilattice_obeys f is semilattice };

    fn rule(&self, d: Domain, cell: u32) -> CellRule {
        let x = digit(d, 2, cell, 0);
        let y = digit(d, 2, cell, 1);
        if x == y {
            CellRule::Value(x)
        } else if y < x {
            CellRule::SameAs(cell_of(d, &[y, x]))
        } else {
            CellRule::Free
        }
    }

    fn fails_in(&self, d: Domain, masks: &[u8]) -> bool {
        some_clash(d, masks)
    }

    fn holds(&self, t: &OpTable<2>) -> bool {
        if !is_idempotent(t) || !is_commutative(t) {
            return false;
        }
        is_associative(t)
    }
}
