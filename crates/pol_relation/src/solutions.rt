ghost use Rattle.std.specs.Prelude.{ℕ, ◌<◌, ◌↔◌, length, IsTrue};
ghost use Rattle.pol_base.specs.Tuples.{IsTuple};
ghost use Rattle.pol_relation.specs.Instances.{Fits, Meets, IsSolution, constraint_of};

use crate::Language;
use crate::instance::{Instance, MOST_PLACES};

impl Instance {
    /// Whether the tuple that the assignment reads at the scope of constraint `c` is a row of its relation.
    /// The instance is to fit the language, and the assignment to give a value of the domain to each
    /// variable, in their order. Takes no memory.
    pub fn meets(&self, lang: &Language, c: u32, assignment: &[u8]) -> bool
        requires fits { Fits lang.now self.now }
        requires known { c < length self.now.constraints }
        requires assigns { IsTuple lang.now.domain (length self.now.variables) assignment.now }
        ensures meets { IsTrue result ↔ Meets lang.now (constraint_of self.now c) assignment.now }
    {
        let scope = self.scope(c);
        let mut tuple = [0; MOST_PLACES];
        for (place, variable) in scope.iter().enumerate() {
            tuple[place] = assignment[*variable as usize];
        }
        lang.relation(self.relation_of(c))
            .has(&tuple[..scope.len()])
    }

    /// Whether the assignment meets every constraint. The instance is to fit the language, and the assignment
    /// to give a value of the domain to each variable, in their order. Takes no memory.
    pub fn is_solution(&self, lang: &Language, assignment: &[u8]) -> bool
        requires fits { Fits lang.now self.now }
        requires assigns { IsTuple lang.now.domain (length self.now.variables) assignment.now }
        ensures solution { IsTrue result ↔ IsSolution lang.now self.now assignment.now }
    {
        (0..self.constraints()).all(|c| self.meets(lang, c, assignment))
    }
}
