ghost use Rattle.std.specs.Prelude.{◌≡◌, ℕ, ◌-◌, ◌^◌, ◌<◌, ◌≤◌, ◌↔◌, min, length, Contains, IfOk, IfSome, IfNone, OnOk, OnErr, IsErrOf, [], ◌∷◌};
ghost use Rattle.pol_base.specs.Tuples.{IsTuple};
ghost use Rattle.pol_base.specs.Lists.{place_in};
ghost use Rattle.pol_relation.specs.Relations.{LanguageView, IsLanguage, IsRelationOver, names_of, name_of, relation_of, last_of, with_relation, with_last_row};
ghost use Rattle.pol_relation.specs.Weights.{weight_of, subset_weight_of};

use crate::Relation;
use indexmap::IndexMap;
use pol_base::{Domain, NoMemory};
use std::alloc::Global;
use std::marker::Model;

/// Relations over one domain, each under a name of its own, at most 4,096. They are numbered from 0 in the
/// order in which they were added. (P. Jeavons, D. Cohen and M. Gyssens, Closure properties of constraints,
/// Journal of the ACM 44, 1997.)
#[derive(Drop)]
pub struct Language {
    domain: Domain,
    relations: IndexMap<Vec<u8>, Relation>,
}

impl Model for Language {
    ghost use Rattle.std.specs.Prelude.{◌≤◌, length};
    ghost use Rattle.pol_relation.specs.Relations.{LanguageView, IsLanguage};
    ghost use Rattle.pol_relation.specs.Named.{named_relations};

    ghost Value = { LanguageView };

    ghost view = { λ l. record { domain = l.domain; relations = named_relations l.relations.entries } };

    ghost invariant = { λ l.
        IsLanguage (record { domain = l.domain; relations = named_relations l.relations.entries })
        × (length l.relations.entries ≤ 4096) };
}

/// Why a relation was not added to a language, or a variable to an instance; that is then as it was.
#[derive(Clone, Copy, Debug, PartialEq, Eq)]
pub enum AddFault {
    /// The name is that of a relation or a variable that is there already.
    Repeated,
    /// No memory was found.
    NoMemory,
}

impl From<NoMemory> for AddFault {
    ghost use Rattle.std.specs.Prelude.{◌≡◌};
    ghost use Rattle.pol_relation.specs.declared.language.AddFault.TheVariants.{NoMemory as OutOfMemory};

    ghost from_gives = { λ _ e. e ≡ OutOfMemory };

    fn from(_error: NoMemory) -> AddFault {
        AddFault::NoMemory
    }
}

impl Language {
    /// The language without relations over the domain. Takes no memory.
    pub fn new(alloc: Global, d: Domain) -> Language
        ensures empty { result ≡ record { domain = d; relations = [] } }
    {
        Language {
            domain: d,
            relations: IndexMap::new(alloc),
        }
    }

    /// Adds a relation over the domain of the language, and answers its number. `Repeated` exactly where the
    /// name is there, `NoMemory` where no memory is found: the relation is then dropped, and the language as
    /// it was. There are to be fewer than 4,096 relations before.
    pub fn add(&mut self, name: &[u8], relation: Relation) -> Result<u32, AddFault>
        requires domain { relation.domain ≡ self.old.domain }
        requires room { length self.old.relations < 4096 }
        ensures number { IfOk result (λ number. number ≡ length self.old.relations) }
        ensures ok { OnOk result (self.new ≡ with_relation self.old name.now relation) }
        ensures repeated { IsErrOf result AddFault.Repeated ↔ Contains (names_of self.old) name.now }
        ensures err { OnErr result (self.new ≡ self.old) }
    {
        if self.relations.contains_key(name) {
            return Err(AddFault::Repeated);
        }
        let number = self.len();
        self.push(name, relation)?;
        Ok(number)
    }

    /// Adds a relation under a name that is not there.
    fn push(&mut self, name: &[u8], relation: Relation) -> Result<(), NoMemory>
        requires domain { relation.domain ≡ self.old.domain }
        requires room { length self.old.relations < 4096 }
        requires new { ¬ Contains (names_of self.old) name.now }
        ensures ok { OnOk result (self.new ≡ with_relation self.old name.now relation) }
        ensures err { OnErr result (self.new ≡ self.old) }
    {
        let name = Vec::from_slice(*self.relations.allocator(), name)?;
        self.relations.insert(name, relation)?;
        Ok(())
    }

    /// Adds a tuple of its arity to the relation that was added last; there is to be one. Where the tuple is
    /// a row of it already, or where no memory is found, the language is as it was.
    pub fn insert(&mut self, tuple: &[u8]) -> Result<(), NoMemory>
        requires some { 0 < length self.old.relations }
        requires tuple { IsTuple (last_of self.old).domain (last_of self.old).arity tuple.now }
        ensures ok { OnOk result (self.new ≡ with_last_row self.old tuple.now) }
        ensures err { OnErr result (self.new ≡ self.old) }
    {
        match self.relations.last_mut() {
            Some(relation) => relation.insert(tuple),
            None => Ok(()),
        }
    }

    /// The number of the relation that has the name. None exactly where no relation has it.
    pub fn find(&self, name: &[u8]) -> Option<u32>
        ensures place { result ≡ place_in (names_of self.now) name.now }
        ensures known { IfSome result (λ i. i < length self.now.relations) }
        ensures found { IfSome result (λ i. name_of self.now i ≡ name.now) }
        ensures none { IfNone result (¬ Contains (names_of self.now) name.now) }
    {
        let place = self.relations.get_index_of(name)?;
        Some(place as u32)
    }

    /// How many relations there are, at most 4,096.
    pub fn len(&self) -> u32
        ensures relations { result ≡ length self.now.relations }
        ensures few { result ≤ 4096 }
        ensures language { IsLanguage self.now }
    {
        self.relations.len() as u32
    }

    /// The sum over the relations of the `k`-th powers of their numbers of rows, or the greatest `u64` where
    /// the sum is above it, for `k` from 1 to 16. Takes no memory.
    pub fn weight(&self, k: u32) -> u64
        requires some { 1 ≤ k }
        requires few { k ≤ 16 }
        ensures sum { result ≡ min (weight_of k self.now.relations) (2 ^ 64 - 1) }
    {
        let mut weight = 0u64;
        for i in 0..self.len() {
            let rows = u64::from(self.relation(i).len());
            weight = weight.saturating_add(rows.saturating_pow(k));
        }
        weight
    }

    /// The sum over the relations of the number of vectors of nonempty sets of values, one set for
    /// each place. Takes no memory.
    pub fn subset_weight(&self) -> u64
        ensures sum { result ≡ subset_weight_of self.now.domain self.now.relations }
    {
        let mut weight = 0u64;
        for i in 0..self.len() {
            weight += self.set_vectors(i);
        }
        weight
    }

    /// How many vectors of nonempty sets of values there are, one set for each place of relation `i`.
    fn set_vectors(&self, i: u32) -> u64
        requires known { i < length self.now.relations }
        ensures vectors { result ≡ (2 ^ self.now.domain - 1) ^ (relation_of self.now i).arity }
        ensures few { result ≤ 887503681 }
    {
        let sets = 2u64.pow(u32::from(self.domain().size())) - 1;
        sets.pow(self.relation(i).arity())
    }

    /// The domain that all relations are over.
    pub fn domain(&self) -> Domain
        ensures domain { result ≡ self.now.domain }
        ensures language { IsLanguage self.now }
    {
        self.domain
    }

    /// The relation with the number `i`, counted from 0.
    pub fn relation(&self, i: u32) -> &Relation
        requires known { i < length self.now.relations }
        ensures relation { result.now ≡ relation_of self.now i }
        ensures over { IsRelationOver self.now.domain result.now }
    {
        &self.relations[i as usize]
    }

    /// The bytes of the name of the relation with the number `i`, counted from 0.
    pub fn name(&self, i: u32) -> &[u8]
        requires known { i < length self.now.relations }
        ensures name { result.now ≡ name_of self.now i }
    {
        match self.relations.get_index(i as usize) {
            Some((name, _)) => name.as_slice(),
            None => &[],
        }
    }
}
