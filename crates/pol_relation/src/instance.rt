ghost use Rattle.std.specs.Prelude.{◌≡◌, ℕ, ◌<◌, ◌≤◌, ◌↔◌, ◌++◌, List, [], ◌∷◌, length, All, Contains, IfOk, IfSome, IfNone, OnOk, OnErr, IsErrOf, IsTrue, slice_index_or};
ghost use Rattle.pol_base.specs.Lists.{place_in};
ghost use Rattle.pol_relation.specs.Instances.{ConstraintView, InstanceView, IsInstance, FitsAt, Fits, constraint_of, with_variable, with_constraint};

use crate::{AddFault, Language};
use pol_base::{NoMemory, Values};
use smallvec::SmallVec;
use std::alloc::Global;
use std::marker::Model;

pub(crate) const MOST_PLACES: usize = 6;

/// A constraint: the number of a relation, and the variables of its places.
#[derive(Drop)]
struct Constraint {
    relation: u32,
    scope: SmallVec<u32, MOST_PLACES>,
}

impl Model for Constraint {
    ghost Value = { ConstraintView };

    ghost view = { λ c. record { relation = c.relation; scope = c.scope.items } };
}

/// A constraint instance: at most 4,096 variables with names of their own, and at most 4,096 constraints,
/// each the number of a relation and a scope, the variables of its places. Both are numbered from 0 in the
/// order in which they were added. (U. Montanari, Networks of constraints, Information Sciences 7, 1974.)
#[derive(Drop)]
pub struct Instance {
    name: Values,
    variables: Vec<Values>,
    constraints: Vec<Constraint>,
}

impl Model for Instance {
    ghost Value = { InstanceView };

    ghost view = { λ i.
        record { name = i.name; variables = i.variables.items; constraints = i.constraints.items } };

    ghost invariant = { λ i.
        IsInstance (record { name = i.name; variables = i.variables.items; constraints = i.constraints.items })
        × (length i.variables.items ≤ 4096)
        × (length i.constraints.items ≤ 4096) };
}

impl Instance {
    /// The instance with this name, without variables and constraints.
    pub fn new(alloc: Global, name: &[u8]) -> Result<Instance, NoMemory>
        ensures ok { IfOk result (λ inst. inst ≡ record { name = name.now; variables = []; constraints = [] }) }
    {
        Ok(Instance {
            name: Values::from_slice(alloc, name)?,
            variables: Vec::new(alloc),
            constraints: Vec::new(alloc),
        })
    }

    /// Adds a variable, and answers its number. `Repeated` exactly where a variable has the name, `NoMemory`
    /// where no memory is found: the instance is then as it was. There are to be fewer than 4,096 before.
    pub fn add_variable(&mut self, name: &[u8]) -> Result<u32, AddFault>
        requires room { length self.old.variables < 4096 }
        ensures number { IfOk result (λ number. number ≡ length self.old.variables) }
        ensures ok { OnOk result (self.new ≡ with_variable self.old name.now) }
        ensures repeated { IsErrOf result AddFault.Repeated ↔ Contains self.old.variables name.now }
        ensures err { OnErr result (self.new ≡ self.old) }
    {
        if self.find_variable(name).is_some() {
            return Err(AddFault::Repeated);
        }
        let number = self.variables();
        self.push_variable(name)?;
        Ok(number)
    }

    /// Adds a variable with a name that is not there.
    fn push_variable(&mut self, name: &[u8]) -> Result<(), NoMemory>
        requires room { length self.old.variables < 4096 }
        requires new { ¬ Contains self.old.variables name.now }
        ensures ok { OnOk result (self.new ≡ with_variable self.old name.now) }
        ensures err { OnErr result (self.new ≡ self.old) }
    {
        let name = Values::from_slice(*self.variables.allocator(), name)?;
        self.variables.push(name)?;
        Ok(())
    }

    /// Adds a constraint of the relation with this number, which is not looked up, on a scope of 1 to 6
    /// variables of the instance, in which one may repeat. There are to be fewer than 4,096 constraints
    /// before. Where no memory is found the instance is as it was.
    pub fn add_constraint(&mut self, relation: u32, scope: &[u32]) -> Result<(), NoMemory>
        requires some_places { 1 ≤ length scope.now }
        requires few_places { length scope.now ≤ 6 }
        requires below { All (λ x. x < length self.old.variables) scope.now }
        requires room { length self.old.constraints < 4096 }
        ensures ok { OnOk result
            (self.new ≡ with_constraint self.old (record { relation = relation; scope = scope.now })) }
        ensures err { OnErr result (self.new ≡ self.old) }
    {
        let scope = SmallVec::from_slice(*self.constraints.allocator(), scope)?;
        self.constraints.push(Constraint { relation, scope })?;
        Ok(())
    }

    /// The bytes of the name of the instance.
    pub fn name(&self) -> &[u8]
        ensures name { result.now ≡ self.now.name }
    {
        self.name.as_slice()
    }

    /// How many variables there are, at most 4,096.
    pub fn variables(&self) -> u32
        ensures variables { result ≡ length self.now.variables }
        ensures few { result ≤ 4096 }
        ensures instance { IsInstance self.now }
    {
        self.variables.len() as u32
    }

    /// The bytes of the name of the variable with the number `i`.
    pub fn variable(&self, i: u32) -> &[u8]
        requires known { i < length self.now.variables }
        ensures name { result.now ≡ slice_index_or self.now.variables i [] }
    {
        self.variables[i as usize].as_slice()
    }

    /// The number of the variable that has the name. None exactly where no variable has it.
    pub fn find_variable(&self, name: &[u8]) -> Option<u32>
        ensures place { result ≡ place_in self.now.variables name.now }
        ensures known { IfSome result (λ i. i < length self.now.variables) }
        ensures found { IfSome result (λ i. slice_index_or self.now.variables i [] ≡ name.now) }
        ensures none { IfNone result (¬ Contains self.now.variables name.now) }
    {
        let place = self
            .variables
            .iter()
            .position(|variable| variable.as_slice() == name)?;
        Some(place as u32)
    }

    /// How many constraints there are, at most 4,096.
    pub fn constraints(&self) -> u32
        ensures constraints { result ≡ length self.now.constraints }
        ensures few { result ≤ 4096 }
        ensures instance { IsInstance self.now }
    {
        self.constraints.len() as u32
    }

    /// The number of the relation of constraint `c`, as it was given.
    pub fn relation_of(&self, c: u32) -> u32
        requires known { c < length self.now.constraints }
        ensures relation { result ≡ (constraint_of self.now c).relation }
    {
        self.constraints[c as usize].relation
    }

    /// The variables of the places of constraint `c`, by their numbers: from 1 to 6, in which one may repeat.
    pub fn scope(&self, c: u32) -> &[u32]
        requires known { c < length self.now.constraints }
        ensures scope { result.now ≡ (constraint_of self.now c).scope }
        ensures some_places { 1 ≤ length result.now }
        ensures few_places { length result.now ≤ 6 }
        ensures below { All (λ x. x < length self.now.variables) result.now }
    {
        self.constraints[c as usize].scope.as_slice()
    }

    /// Whether each constraint is one of a relation of the language, with a scope of its arity.
    pub fn fits(&self, lang: &Language) -> bool
        ensures fits { IsTrue result ↔ Fits lang.now self.now }
    {
        (0..self.constraints()).all(|c| self.fits_at(lang, c))
    }

    /// Whether constraint `c` is one of a relation of the language, with a scope of its arity.
    fn fits_at(&self, lang: &Language, c: u32) -> bool
        requires known { c < length self.now.constraints }
        ensures fits { IsTrue result ↔ FitsAt lang.now (length self.now.variables) (constraint_of self.now c) }
    {
        let relation = self.relation_of(c);
        relation < lang.len() && lang.relation(relation).arity() as usize == self.scope(c).len()
    }
}
