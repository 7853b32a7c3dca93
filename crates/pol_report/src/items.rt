ghost use Rattle.std.specs.Prelude.{◌≡◌, ◌<◌, [], ◌∷◌, ◌++◌, length, Some, slice_get, OnOk};

use crate::Item;
use pol_base::NoMemory;
use std::alloc::Global;
use std::marker::Model;

/// The items of a report, at most 64.
#[derive(Debug, Drop)]
pub struct Items {
    items: Vec<Item>,
}

impl Model for Items {
    ghost use Rattle.std.specs.Prelude.{◌≤◌, List, length};
    ghost use Rattle.pol_report.specs.declared.item.Item.{Item};
    ghost use Rattle.pol_report.specs.Limits.{most_items};

    ghost Value = { List Item };

    ghost view = { λ l. l.items.items };

    ghost invariant = { λ l. length l.items.items ≤ most_items };
}

impl Items {
    ghost use Rattle.pol_report.specs.Limits.{most_items};

    pub(crate) fn new(alloc: Global) -> Items
        ensures empty { result ≡ [] }
    {
        Items {
            items: Vec::new(alloc),
        }
    }

    /// Adds an item, the last. An item that is not added is dropped.
    pub(crate) fn push(&mut self, item: Item) -> Result<(), NoMemory>
        requires room { length self.old < most_items }
        ensures ok { OnOk result (self.new ≡ self.old ++ item ∷ []) }
    {
        self.items.push(item)?;
        Ok(())
    }

    /// How many items there are.
    pub fn len(&self) -> u32
        ensures counted { result ≡ length self.now }
    {
        self.items.len() as u32
    }

    /// The item with the number `i`.
    pub fn get(&self, i: u32) -> &Item
        requires known { i < length self.now }
        ensures item { slice_get self.now i ≡ Some result.now }
    {
        &self.items[i as usize]
    }
}
