ghost use Rattle.std.specs.Prelude.{◌≡◌, ◌<◌, ◌≤◌, ◌^◌, ◌↔◌, [], ◌∷◌, ◌++◌, length};
ghost use Rattle.std.specs.Prelude.{IsTrue, IfOk, OnOk, OnErr, slice_index_or};
ghost use Rattle.pol_modp.specs.Combinations.{CombinationView};

use pol_base::{NoMemory, Values};
use std::alloc::Global;
use std::marker::Model;

/// An equation on the labels of what is read at the scope of the constraint `c`, with a coefficient for
/// each of its places and the right side `right`, and the multiplier by which it is added up. All of it is
/// modulo the number of values, and `check_combination` is what judges it.
#[derive(Debug, Drop)]
pub struct Part {
    pub c: u32,
    pub multiplier: u8,
    pub right: u8,
    pub coefs: Values,
}

/// A label for each value of the domain, and at most 2^20 parts, that are to add up to 0 equal to another
/// number. Two values may have one label. Whether all this is so is for `check_combination` to say.
#[derive(Debug, Drop)]
pub struct Combination {
    labels: Values,
    parts: Vec<Part>,
}

impl Model for Combination {
    ghost use Rattle.std.specs.Prelude.{◌≤◌, ◌^◌, length};
    ghost use Rattle.pol_modp.specs.Combinations.{CombinationView};
    ghost use Rattle.pol_modp.specs.Parts.{parts_named};

    ghost Value = { CombinationView };

    ghost view = { λ c. record { labels = c.labels; parts = parts_named c.parts.items } };

    ghost invariant = { λ c. length c.parts.items ≤ 2 ^ 20 };
}

impl Combination {
    ghost use Rattle.pol_modp.specs.Combinations.{no_part};
    ghost use Rattle.pol_modp.specs.Parts.{part_named};

    /// The combination with these labels, which are copied, the label of value 0 first, without parts.
    pub fn new(alloc: Global, labels: &[u8]) -> Result<Combination, NoMemory>
        ensures ok { IfOk result (λ c. c ≡ record { labels = labels.now; parts = [] }) }
    {
        Ok(Combination {
            labels: Values::from_slice(alloc, labels)?,
            parts: Vec::new(alloc),
        })
    }

    /// Adds a part, the last. There are to be fewer than 2^20. Where no memory is found the combination is
    /// as it was, and the part is dropped.
    pub fn push(&mut self, part: Part) -> Result<(), NoMemory>
        requires room { length self.old.parts < 2 ^ 20 }
        ensures ok { OnOk result
            (self.new ≡ record { labels = self.old.labels; parts = self.old.parts ++ part_named part ∷ [] }) }
        ensures err { OnErr result (self.new ≡ self.old) }
    {
        self.parts.push(part)?;
        Ok(())
    }

    /// The labels of the values, in the order of the values, as they were given.
    pub fn labels(&self) -> &[u8]
        ensures labels { result.now ≡ self.now.labels }
    {
        self.labels.as_slice()
    }

    /// How many parts there are, at most 2^20.
    pub fn len(&self) -> u32
        ensures parts { result ≡ length self.now.parts }
        ensures few { result ≤ 2 ^ 20 }
    {
        self.parts.len() as u32
    }

    /// Whether there are no parts.
    pub fn is_empty(&self) -> bool
        ensures empty { IsTrue result ↔ (self.now.parts ≡ []) }
    {
        self.parts.is_empty()
    }

    /// The part with the number `i`, from 0 in the order in which they were added.
    pub fn part(&self, i: u32) -> &Part
        requires known { i < length self.now.parts }
        ensures part { part_named result.now ≡ slice_index_or self.now.parts i no_part }
    {
        &self.parts[i as usize]
    }
}
