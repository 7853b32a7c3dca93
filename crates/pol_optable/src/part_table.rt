ghost use Rattle.std.specs.Prelude.{◌≡◌, ℕ, ◌^◌, ◌<◌, length, slice_index, IfSome, IfNone};
ghost use Rattle.pol_base.specs.Masks.{IsMask};
ghost use Rattle.pol_optable.specs.Tables.{PartView, IsPart};

use crate::sizes::table_size;
use pol_base::{Domain, full_mask};
use std::marker::Model;

/// Tables of `K` arguments whose value in each cell is open within a nonempty mask. The cells are in the
/// order of those of an `OpTable`, at most 4,096.
#[derive(Drop)]
pub struct PartTable<'a, const K: usize> {
    domain: Domain,
    masks: &'a [u8],
}

impl<'a, const K: usize> Model for PartTable<'a, K> {
    ghost use Rattle.pol_optable.specs.Tables.{PartView, IsPart};

    ghost Value = { PartView };

    ghost view = { λ p. record { domain = p.domain; masks = p.masks.now } };

    ghost invariant = { λ p. IsPart p.domain K p.masks.now };
}

impl<'a, const K: usize> PartTable<'a, K> {
    /// The part with these masks. None exactly where they are not those of a part of a table of `K`
    /// arguments: where `K` is 0, their number is not d^`K` or is above 4,096, or one is empty or has a
    /// value that is not below d.
    pub fn new(d: Domain, masks: &'a [u8]) -> Option<PartTable<'a, K>>
        ensures made { IfSome result (λ p. p ≡ record { domain = d; masks = masks.now }) }
        ensures none { IfNone result (¬ IsPart d K masks.now) }
    {
        let all = full_mask(d);
        if table_size(d, K) != Some(masks.len())
            || !masks.iter().all(|mask| 0 < *mask && *mask <= all)
        {
            return None;
        }
        Some(PartTable { domain: d, masks })
    }

    /// The domain of the arguments and of the values.
    pub fn domain(&self) -> Domain
        ensures domain { result ≡ self.now.domain }
        ensures part { IsPart self.now.domain K self.now.masks }
    {
        self.domain
    }

    /// The d^`K` masks in the order of the cells.
    pub fn masks(&self) -> &[u8]
        ensures masks { result.now ≡ self.now.masks }
        ensures part { IsPart self.now.domain K self.now.masks }
    {
        self.masks
    }

    /// The mask of the cell with a number below d^`K`.
    pub fn mask(&self, cell: u32) -> u8
        requires known { cell < self.now.domain ^ K }
        ensures mask { result ≡ slice_index self.now.masks cell }
        ensures open { IsMask self.now.domain result }
    {
        self.masks[cell as usize]
    }
}
