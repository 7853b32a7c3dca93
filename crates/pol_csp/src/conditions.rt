ghost use Rattle.std.specs.Prelude.{◌≡◌, ℕ, ◌↔◌, List, length, IsTrue, IfOk};
ghost use Rattle.pol_base.specs.Tuples.{IsTuple};
ghost use Rattle.pol_base.specs.Masks.{AreMasks};
ghost use Rattle.pol_relation.specs.Relations.{LanguageView};
ghost use Rattle.pol_csp.specs.Narrowing.{Rejects};
ghost use Rattle.pol_csp.specs.Searching.{FollowFrom};

use crate::Pool;
use pol_base::NoMemory;
use pol_relation::Language;
use std::alloc::Global;

/// Where the look for constraints that a list breaks goes on. It is a hint: no answer rests on it.
#[derive(Clone, Copy, Debug, PartialEq, Eq)]
pub struct Place {
    /// The number of a relation of the language.
    pub relation: u32,
    /// A number within that relation, by which the conditions go on, as that of a row.
    pub row: u32,
}

/// Which lists of values, one for each cell, are wanted, told by constraints where a list is at hand that
/// breaks them.
pub trait Conditions {
    /// The lists that are wanted.
    ghost wanted: { Self → LanguageView → List ℕ → Type 0 };

    /// The languages and numbers of cells for which it is defined.
    ghost takes: { Self → LanguageView → ℕ → Type 0 };

    /// Whether it is known that no list within the masks, one for each cell, is wanted. False tells nothing.
    fn fails(&self, lang: &Language, masks: &[u8]) -> bool
        requires taken { takes self.now lang.now (length masks.now) }
        requires masks { AreMasks lang.now.domain masks.now }
        ensures none { IsTrue result → Rejects (wanted self.now lang.now) masks.now };

    /// Whether the list, a value of the domain for each cell, is wanted. If it is not, constraints may be put
    /// into the pool that every wanted list meets, best some that this one does not. The place is a hint
    /// where the look for them begins, and may be left where it ends.
    fn more(
        &self,
        alloc: Global,
        lang: &Language,
        values: &[u8],
        place: &mut Place,
        pool: &mut Pool,
    ) -> Result<bool, NoMemory>
        requires taken { takes self.now lang.now (length values.now) }
        requires tuple { IsTuple lang.now.domain (length values.now) values.now }
        requires follow { FollowFrom (wanted self.now lang.now) lang.now (length values.now) pool.old }
        ensures follow { IfOk result (λ _.
            FollowFrom (wanted self.now lang.now) lang.now (length values.now) pool.new) }
        ensures wanted { IfOk result (λ yes. IsTrue yes ↔ wanted self.now lang.now values.now) };
}
