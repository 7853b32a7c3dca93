ghost use Rattle.std.specs.Prelude.{◌≡◌, ◌==◌, ◌<◌, ◌≤◌, ◌^◌, ◌↔◌, length, IsTrue};
ghost use Rattle.std.specs.List.{count_by};
ghost use Rattle.pol_base.specs.Tuples.{digits_of};
ghost use Rattle.pol_optable.specs.Identities.{IsNearUnanimity};
ghost use Rattle.pol_identity.specs.Rules.{Obeys};
ghost use Rattle.pol_identity.specs.NearUnanimityRule.{forced_value, near_unanimity_rule};
ghost use Rattle.pol_identity.specs.NearUnanimityLaws.{near_unanimity_ruled, near_unanimity_obeys};

use crate::identity::{CellRule, Identity};
use pol_base::{Domain, digit};
use pol_optable::OpTable;

/// f = x wherever all arguments but at most one are x, of 3 or more arguments; of 3 it is a majority
/// operation. (K. Baker and A. Pixley, Polynomial interpolation and the Chinese remainder theorem for
/// algebraic systems, Mathematische Zeitschrift 143, 1975.)
#[derive(Clone, Copy, Debug)]
pub struct NearUnanimity;

/// How many of the k arguments of the cell are the value.
fn count_of(d: Domain, k: u32, cell: u32, value: u8) -> u32
    requires few { d ^ k ≤ 4096 }
    requires short { k ≤ 4096 }
    requires known { cell < d ^ k }
    ensures count { result ≡ count_by (λ y. y == value) (digits_of d k cell) }
    ensures within { result ≤ k }
{
    let mut count = 0;
    for place in 0..k {
        if digit(d, k, cell, place) == value {
            count += 1;
        }
    }
    count
}

/// The value that all of the k arguments of the cell but at most one are, where there is one.
fn forced_value(d: Domain, k: u32, cell: u32) -> Option<u8>
    requires few { d ^ k ≤ 4096 }
    requires short { k ≤ 4096 }
    requires known { cell < d ^ k }
    ensures forced { result ≡ forced_value (digits_of d k cell) }
{
    for place in 0..k {
        let value = digit(d, k, cell, place);
        if k <= count_of(d, k, cell, value) + 1 {
            return Some(value);
        }
    }
    None
}

/// Whether the cell has the value that its k arguments force, if they force one.
fn obeys(d: Domain, k: u32, cells: &[u8], cell: u32) -> bool
    requires few { d ^ k ≤ 4096 }
    requires short { k ≤ 4096 }
    requires known { cell < d ^ k }
    requires long { length cells.now ≡ d ^ k }
    ensures obeys { IsTrue result ↔ Obeys cells.now cell (near_unanimity_rule d k cell) }
{
    match forced_value(d, k, cell) {
        Some(value) => cells[cell as usize] == value,
        None => true,
    }
}

impl<const K: usize> Identity<K> for NearUnanimity {
    ghost satisfies = { λ _ f. IsNearUnanimity f };

    ghost suits = { λ _ _. (3 ≤ K) × (K ≤ 4096) };

    ghost rule_of = { λ _ d cell. near_unanimity_rule d K cell };

    ghost ruled = { λ _ d cell some suited known. near_unanimity_ruled d K cell some known };

    ghost obeys = { λ _ f is suited near. near_unanimity_obeys K f is near };

    fn rule(&self, d: Domain, cell: u32) -> CellRule {
        match forced_value(d, K as u32, cell) {
            Some(value) => CellRule::Value(value),
            None => CellRule::Free,
        }
    }

    fn fails_in(&self, _d: Domain, _masks: &[u8]) -> bool {
        false
    }

    fn holds(&self, t: &OpTable<K>) -> bool {
        let d = t.domain();
        let cells = t.cells();
        for cell in 0..cells.len() {
            if !obeys(d, K as u32, cells, cell as u32) {
                return false;
            }
        }
        true
    }
}
