ghost use Rattle.std.specs.Prelude.{◌≡◌, ℕ, List, length, IsTrue, ⊤};
ghost use Rattle.pol_base.specs.Masks.{AreMasks, IsWithin, single_masks};

use pol_base::Domain;

/// Which of the lists that a problem admits are wanted.
pub trait Filter {
    /// The lists that are wanted.
    ghost wanted: { Self → List ℕ → Type 0 };

    /// The domains and numbers of cells for which it is defined.
    ghost takes: { Self → ℕ → ℕ → Type 0 };

    /// Whether it is known that no list within the masks, one for each cell, is wanted. False tells something
    /// only for masks of one value each: their list is wanted.
    fn fails(&self, d: Domain, masks: &[u8]) -> bool
        requires taken { takes self.now d (length masks.now) }
        requires masks { AreMasks d masks.now }
        ensures none { IsTrue result → (xs : List ℕ) → IsWithin masks.now xs → ¬ wanted self.now xs }
        ensures told { (xs : List ℕ) → masks.now ≡ single_masks xs → ¬ IsTrue result → wanted self.now xs };
}

/// The filter that wants every list.
#[derive(Clone, Copy, Debug)]
pub struct NoFilter;

impl Filter for NoFilter {
    ghost use Rattle.std.specs.Prelude.{⊤};

    ghost wanted = { λ _ _. ⊤ };

    ghost takes = { λ _ _ _. ⊤ };

    fn fails(&self, _d: Domain, _masks: &[u8]) -> bool {
        false
    }
}
