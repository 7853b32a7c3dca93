ghost use Rattle.std.specs.Prelude.{◌≡◌, ℕ, ◌<◌, ◌^◌, ◌↔◌, List, [], ◌∷◌, IsTrue, IsBitSet, IfSome, IfNone};
ghost use Rattle.pol_base.specs.Masks.{IsMask, IsWithin, single_masks};
ghost use Rattle.pol_optable.specs.Operations.{operation_of, value_at};
ghost use Rattle.pol_optable.specs.Tables.{IsPart};
ghost use Rattle.pol_identity.specs.Association.{Associates, IsAssociative};

use pol_base::{Domain, cell_of, lowest_value, value_mask};
use pol_optable::OpTable;

/// The value of the mask, where it has no other.
fn only_value(d: Domain, mask: u8) -> Option<u8>
    requires mask { IsMask d mask }
    ensures below { IfSome result (λ v. v < d) }
    ensures only { IfSome result (λ v. (w : ℕ) → IsBitSet mask w → w ≡ v) }
    ensures none { IfNone result ((v : ℕ) → ¬ (mask ≡ 2 ^ v)) }
{
    // for its clause that a domain has 1 to 5 values
    let _size = d.size();
    let value = lowest_value(mask);
    if mask == value_mask(value) {
        Some(value)
    } else {
        None
    }
}

/// The mask of the cell of two arguments.
fn mask_at(d: Domain, masks: &[u8], x: u8, y: u8) -> u8
    requires part { IsPart d 2 masks.now }
    requires x { x < d }
    requires y { y < d }
    ensures open { IsMask d result }
    ensures within { (cells : List ℕ) → IsWithin masks.now cells
        → IsBitSet result (value_at (operation_of d 2 cells) (x ∷ y ∷ [])) }
    ensures single { (cells : List ℕ) → masks.now ≡ single_masks cells
        → result ≡ 2 ^ value_at (operation_of d 2 cells) (x ∷ y ∷ []) }
{
    masks[cell_of(d, &[x, y]) as usize]
}

/// Whether the masks settle f(y, z) and f(x, y), and leave f(x, f(y, z)) and f(f(x, y), z) no common
/// value.
fn clash(d: Domain, masks: &[u8], x: u8, y: u8, z: u8) -> bool
    requires part { IsPart d 2 masks.now }
    requires x { x < d }
    requires y { y < d }
    requires z { z < d }
    ensures none_within { IsTrue result → (cells : List ℕ) → IsWithin masks.now cells
        → ¬ Associates (operation_of d 2 cells) x y z }
    ensures decides { (cells : List ℕ) → masks.now ≡ single_masks cells → ¬ IsTrue result
        → Associates (operation_of d 2 cells) x y z }
{
    let Some(right) = only_value(d, mask_at(d, masks, y, z)) else {
        return false;
    };
    let Some(left) = only_value(d, mask_at(d, masks, x, y)) else {
        return false;
    };
    mask_at(d, masks, x, right) & mask_at(d, masks, left, z) == 0
}

/// Whether some three arguments clash. For masks of one value each it tells whether their table is not
/// associative.
pub(crate) fn some_clash(d: Domain, masks: &[u8]) -> bool
    requires part { IsPart d 2 masks.now }
    ensures none_within { IsTrue result → (cells : List ℕ) → IsWithin masks.now cells
        → ¬ IsAssociative (operation_of d 2 cells) }
    ensures decides { (cells : List ℕ) → masks.now ≡ single_masks cells → ¬ IsTrue result
        → IsAssociative (operation_of d 2 cells) }
{
    let size = d.size();
    for x in 0..size {
        for y in 0..size {
            for z in 0..size {
                if clash(d, masks, x, y, z) {
                    return true;
                }
            }
        }
    }
    false
}

/// Whether f(x, f(y, z)) = f(f(x, y), z) at all arguments.
pub(crate) fn is_associative(t: &OpTable<2>) -> bool
    ensures associative { IsTrue result ↔ IsAssociative t.now }
{
    let size = t.domain().size();
    for x in 0..size {
        for y in 0..size {
            for z in 0..size {
                if t.apply(&[x, t.apply(&[y, z])]) != t.apply(&[t.apply(&[x, y]), z]) {
                    return false;
                }
            }
        }
    }
    true
}
