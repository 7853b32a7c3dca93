ghost use Rattle.std.specs.Prelude.{◌≡◌, ℕ, ◌-◌, ◌^◌, ◌<◌, ◌≤◌, ◌↔◌, IsBitSet, IsTrue};
ghost use Rattle.pol_base.specs.Masks.{IsMask};

use crate::Domain;

/// The mask of all values of the domain. In a mask the bit of weight 2^v stands for the value v.
pub fn full_mask(d: Domain) -> u8
    ensures all { result ≡ 2 ^ d - 1 }
    ensures mask { IsMask d result }
{
    (1 << d.size()) - 1
}

/// The mask of one value alone, which is to be below 8.
pub fn value_mask(value: u8) -> u8
    requires value { value < 8 }
    ensures mask { result ≡ 2 ^ value }
{
    1 << value
}

/// Whether the value, which is to be below 8, is in the mask.
pub fn has_value(mask: u8, value: u8) -> bool
    requires value { value < 8 }
    ensures has { IsTrue result ↔ IsBitSet mask value }
{
    mask & (1 << value) != 0
}

/// The least value of a mask that is not empty and has only values below 5.
pub fn lowest_value(mask: u8) -> u8
    requires mask { IsMask 5 mask }
    ensures has { IsBitSet mask result }
    ensures least { (v : ℕ) → IsBitSet mask v → result ≤ v }
    ensures below { result < 5 }
{
    mask.trailing_zeros() as u8
}

/// The mask without the value, which is to be below 8. The answer may be empty, and is the mask itself
/// where the value is not in it.
pub fn without(mask: u8, value: u8) -> u8
    requires value { value < 8 }
    ensures others { (v : ℕ) → IsBitSet result v ↔ (IsBitSet mask v × ¬ (v ≡ value)) }
{
    mask & !(1 << value)
}
