ghost use Rattle.std.specs.Prelude.{◌≡◌, ℕ, List, [], ◌∷◌, ◌++◌, IfOk, OnOk, OnErr};

use crate::NoMemory;
use std::alloc::Global;
use std::marker::Model;

/// A list of numbers: a scope, the references of a step, or sizes.
#[derive(Debug, Drop)]
pub struct Numbers {
    items: Vec<u32>,
}

impl Model for Numbers {
    ghost Value = { List ℕ };

    ghost view = { λ n. n.items.items };
}

impl Numbers {
    /// The empty list. Takes no memory.
    pub fn new(alloc: Global) -> Numbers
        ensures empty { result ≡ [] }
    {
        Numbers {
            items: Vec::new(alloc),
        }
    }

    /// A list of these numbers, copied.
    pub fn from_slice(alloc: Global, items: &[u32]) -> Result<Numbers, NoMemory>
        ensures ok { IfOk result (λ numbers. numbers ≡ items.now) }
    {
        Ok(Numbers {
            items: Vec::from_slice(alloc, items)?,
        })
    }

    /// Puts the number last. Where no memory is found the list is as it was.
    pub fn push(&mut self, item: u32) -> Result<(), NoMemory>
        ensures ok { OnOk result (self.new ≡ self.old ++ item ∷ []) }
        ensures err { OnErr result (self.new ≡ self.old) }
    {
        self.items.push(item)?;
        Ok(())
    }

    /// The numbers in their order.
    pub fn as_slice(&self) -> &[u32]
        ensures items { result.now ≡ self.now }
    {
        self.items.as_slice()
    }

    /// An equal list, in memory of its own.
    pub fn copy(&self) -> Result<Numbers, NoMemory>
        ensures ok { IfOk result (λ numbers. numbers ≡ self.now) }
    {
        Ok(Numbers {
            items: self.items.clone()?,
        })
    }
}
