ghost use Rattle.std.specs.Prelude.{◌≡◌, ℕ, ◌^◌, ◌<◌, ◌≤◌, ◌↔◌, List, IsTrue};
ghost use Rattle.pol_base.specs.Masks.{IsWithin, single_masks};
ghost use Rattle.pol_optable.specs.Operations.{Operation, operation_of};
ghost use Rattle.pol_optable.specs.Tables.{IsOpTable, IsPart};
ghost use Rattle.pol_identity.specs.Rules.{ObeysAll, IsRule};
ghost use Rattle.pol_identity.specs.declared.identity.CellRule.{CellRule};

use pol_base::Domain;
use pol_optable::{OpTable, PartTable};

/// What an identity asks of one cell of a table.
#[derive(Clone, Copy, Debug, PartialEq, Eq)]
pub enum CellRule {
    /// Nothing.
    Free,
    /// That it holds this value.
    Value(u8),
    /// That it holds what this lower cell holds.
    SameAs(u32),
}

/// An identity of operations of `K` arguments, and what it asks of the cells of their tables. The cells are
/// numbered as in an `OpTable`, the first argument most significant.
pub trait Identity<const K: usize> {
    /// The operations that satisfy it.
    ghost satisfies: { Self → Operation → Type 0 };

    /// The domains for which it is defined.
    ghost suits: { Self → ℕ → Type 0 };

    /// The rule of a cell in a domain.
    ghost rule_of: { Self → ℕ → ℕ → CellRule };

    /// The rule of the cell. An operation that satisfies the identity obeys the rule of each cell. The domain
    /// is to be one that it is defined for, with at most 4,096 cells.
    fn rule(&self, d: Domain, cell: u32) -> CellRule
        requires suited { suits self.now d }
        requires few { d ^ K ≤ 4096 }
        requires known { cell < d ^ K }
        ensures rule { result ≡ rule_of self.now d cell };

    /// Whether it is known that no table within the masks, one for each cell, satisfies the identity. False
    /// tells something only for masks of one value each whose table obeys every rule: that table satisfies it.
    fn fails_in(&self, d: Domain, masks: &[u8]) -> bool
        requires suited { suits self.now d }
        requires part { IsPart d K masks.now }
        ensures none_within { IsTrue result → (cells : List ℕ) → IsWithin masks.now cells
            → ¬ satisfies self.now (operation_of d K cells) }
        ensures decides { (cells : List ℕ) → IsOpTable K (operation_of d K cells)
            → masks.now ≡ single_masks cells → ObeysAll cells (rule_of self.now d) → ¬ IsTrue result
            → satisfies self.now (operation_of d K cells) };

    /// Whether the operation satisfies the identity, on a domain that this is defined for.
    fn holds(&self, t: &OpTable<K>) -> bool
        requires suited { suits self.now t.now.domain }
        ensures satisfies { IsTrue result ↔ satisfies self.now t.now };

    /// What `fails_in` answers for the domain and the masks of the part: whether it is known that no table
    /// within them satisfies the identity.
    final fn fails(&self, part: &PartTable<'_, K>) -> bool
        requires suited { suits self.now part.now.domain }
        ensures none_within { IsTrue result → (cells : List ℕ) → IsWithin part.now.masks cells
            → ¬ satisfies self.now (operation_of part.now.domain K cells) }
        ensures decides { (cells : List ℕ) → IsOpTable K (operation_of part.now.domain K cells)
            → part.now.masks ≡ single_masks cells → ObeysAll cells (rule_of self.now part.now.domain)
            → ¬ IsTrue result
            → satisfies self.now (operation_of part.now.domain K cells) }
    {
        self.fails_in(part.domain(), part.masks())
    }

    /// A rule names a value of the domain, or a lower cell.
    ghost ruled: { (it : Self) (d cell : ℕ) → 1 ≤ d → suits it d → cell < d ^ K → IsRule d cell (rule_of it d cell) };

    /// An operation that satisfies the identity obeys every rule.
    ghost obeys: { (it : Self) (f : Operation) → IsOpTable K f → suits it f.domain → satisfies it f → ObeysAll f.cells (rule_of it f.domain) };
}
