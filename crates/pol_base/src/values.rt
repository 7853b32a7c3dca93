ghost use Rattle.std.specs.Prelude.{◌≡◌, ℕ, List, [], ◌∷◌, ◌++◌, IfOk, OnOk, OnErr, Some, nat_eq};
ghost use Rattle.std.specs.Cmp.Lexicographic.{pointwise, slice_cmp, nat_list_cmp_total, nat_list_eq_equiv, texts_po, texts_ties};
ghost use Rattle.std.specs.Ordering.{nat_cmp};
ghost use Rattle.std.specs.Cmp.Rules.{comparing};
ghost use Rattle.std.proofs.Common.{refl, rules};

use crate::NoMemory;
use std::alloc::Global;
use std::cmp::Ordering;
use std::marker::Model;

/// A list of small numbers: an assignment, masks, cells, a row, a name or a text, a byte for each.
/// Lists are compared in lexicographic order, the first number first.
#[derive(Debug, Drop)]
pub struct Values {
    items: Vec<u8>,
}

impl Model for Values {
    ghost Value = { List ℕ };

    ghost view = { λ v. v.items.items };
}

impl Values {
    /// The empty list. Takes no memory.
    pub fn new(alloc: Global) -> Values
        ensures empty { result ≡ [] }
    {
        Values {
            items: Vec::new(alloc),
        }
    }

    /// A list of these numbers, copied.
    pub fn from_slice(alloc: Global, items: &[u8]) -> Result<Values, NoMemory>
        ensures ok { IfOk result (λ values. values ≡ items.now) }
    {
        Ok(Values {
            items: Vec::from_slice(alloc, items)?,
        })
    }

    /// Puts the number last. Where no memory is found the list is as it was.
    pub fn push(&mut self, item: u8) -> Result<(), NoMemory>
        ensures ok { OnOk result (self.new ≡ self.old ++ item ∷ []) }
        ensures err { OnErr result (self.new ≡ self.old) }
    {
        self.items.push(item)?;
        Ok(())
    }

    /// Puts the numbers last, in their order. Where no memory is found the list is as it was.
    pub fn append(&mut self, items: &[u8]) -> Result<(), NoMemory>
        ensures ok { OnOk result (self.new ≡ self.old ++ items.now) }
        ensures err { OnErr result (self.new ≡ self.old) }
    {
        self.items.extend_from_slice(items)?;
        Ok(())
    }

    /// The numbers in their order.
    pub fn as_slice(&self) -> &[u8]
        ensures items { result.now ≡ self.now }
    {
        self.items.as_slice()
    }

    /// An equal list, in memory of its own.
    pub fn copy(&self) -> Result<Values, NoMemory>
        ensures ok { IfOk result (λ values. values ≡ self.now) }
    {
        Ok(Values {
            items: self.items.clone()?,
        })
    }
}

impl PartialEq for Values {
    ghost eq = { pointwise nat_eq };

    ghost laws = { Prim.search (comparing, rules) };

    fn eq(&self, other: &Values) -> bool {
        self.as_slice() == other.as_slice()
    }
}

impl Eq for Values {
    ghost laws = { nat_list_eq_equiv };
}

impl PartialOrd for Values {
    ghost partial_cmp = { λ xs ys. Some (slice_cmp nat_cmp xs ys) };

    ghost laws = { texts_po };

    fn partial_cmp(&self, other: &Values) -> Option<Ordering> {
        Some(self.cmp(other))
    }
}

impl Ord for Values {
    ghost cmp = { slice_cmp nat_cmp };

    ghost total = { nat_list_cmp_total };

    ghost matches_partial_cmp = { λ xs ys. refl };

    ghost matches_eq = { texts_ties };

    fn cmp(&self, other: &Values) -> Ordering {
        self.as_slice().cmp(other.as_slice())
    }
}
