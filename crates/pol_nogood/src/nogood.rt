ghost use Rattle.std.specs.Prelude.{◌≡◌, ◌<◌, ◌≤◌, ◌↔◌, [], ◌∷◌, ◌++◌, length, IsTrue, slice_get, Some};
ghost use Rattle.std.specs.Bool.{OnTrue, OnFalse};

use std::marker::Model;

pub(crate) const MOST_PAIRS: usize = 3;

/// At most three pairs of a variable and a value, which no solution holds together. Takes 16 bytes.
///
/// (The word is that of R. Stallman and G. Sussman, Forward reasoning and dependency-directed backtracking,
/// Artificial Intelligence 9, 1977.)
#[derive(Debug, Drop)]
pub struct Nogood {
    variables: [u32; MOST_PAIRS],
    values: [u8; MOST_PAIRS],
    len: u8,
}

impl Model for Nogood {
    ghost use Rattle.std.specs.Prelude.{◌≡◌, ◌≤◌, List, length, take};
    ghost use Rattle.pol_nogood.specs.Nogoods.{Pair};
    ghost use Rattle.pol_nogood.specs.Logs.{reading};

    ghost Value = { List Pair };

    ghost view = { λ n. reading (take n.len n.variables) (take n.len n.values) };

    ghost invariant = { λ n. n.len ≤ 3 };
}

impl Nogood {
    /// The nogood without pairs, which every assignment holds. Takes no memory.
    pub fn new() -> Nogood
        ensures empty { result ≡ [] }
    {
        Nogood {
            variables: [0; MOST_PAIRS],
            values: [0; MOST_PAIRS],
            len: 0,
        }
    }

    /// Adds a pair. False exactly where three pairs are there, and then the nogood is as it was. Takes no
    /// memory.
    pub fn push(&mut self, variable: u32, value: u8) -> bool
        ensures added { IsTrue result ↔ (length self.old < 3) }
        ensures pair { OnTrue result (self.new ≡ self.old ++ record { variable = variable; value = value } ∷ []) }
        ensures full { OnFalse result (self.new ≡ self.old) }
    {
        let place = self.len as usize;
        if place == MOST_PAIRS {
            return false;
        }
        self.variables[place] = variable;
        self.values[place] = value;
        self.len += 1;
        true
    }

    /// How many pairs there are.
    pub fn len(&self) -> u32
        ensures pairs { result ≡ length self.now }
        ensures few { result ≤ 3 }
    {
        u32::from(self.len)
    }

    /// Whether there are no pairs.
    pub fn is_empty(&self) -> bool
        ensures empty { IsTrue result ↔ (self.now ≡ []) }
    {
        self.len == 0
    }

    /// The variable and the value of the pair at place `i`.
    pub fn pair(&self, i: u32) -> (u32, u8)
        requires known { i < length self.now }
        ensures pair { slice_get self.now i ≡ Some (record { variable = result.0; value = result.1 }) }
    {
        (self.variables[i as usize], self.values[i as usize])
    }
    /// The same pairs. Takes no memory.
    pub fn copy(&self) -> Nogood
        ensures same { result ≡ self.now }
    {
        Nogood {
            variables: self.variables,
            values: self.values,
            len: self.len,
        }
    }
}
