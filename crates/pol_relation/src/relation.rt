ghost use Rattle.std.specs.Prelude.{◌≡◌, ℕ, ◌<◌, ◌≤◌, ◌%◌, ◌/◌, ◌↔◌, length, All, Contains, IfOk, IfErr, OnOk, OnErr, IsTrue, slice_index_or, insert, []};
ghost use Rattle.pol_base.specs.Tuples.{IsTuple};
ghost use Rattle.pol_relation.specs.Relations.{RelationView, IsRelation, with_row, with_row_in, tuples_in, SameMembers};

use pol_base::{Domain, NoMemory, Values};
use std::alloc::Global;
use std::marker::Model;

/// A set of tuples of one length, its arity, from 1 to 6, over a domain. Its rows, the tuples that it
/// holds, stand in ascending lexicographic order, each once, so that one set is one relation.
#[derive(Debug, Drop)]
pub struct Relation {
    domain: Domain,
    arity: u32,
    rows: Vec<Values>,
}

impl Model for Relation {
    ghost Value = { RelationView };

    ghost view = { λ r. record { domain = r.domain; arity = r.arity; rows = r.rows.items } };

    ghost invariant = { λ r. IsRelation (record { domain = r.domain; arity = r.arity; rows = r.rows.items }) };
}

impl Relation {
    /// The relation without rows, of an arity from 1 to 6. Takes no memory.
    pub fn new(alloc: Global, d: Domain, arity: u32) -> Relation
        requires some_places { 1 ≤ arity }
        requires few_places { arity ≤ 6 }
        ensures empty { result ≡ record { domain = d; arity = arity; rows = [] } }
    {
        // for its clause that a domain has 1 to 5 values
        let _size = d.size();
        Relation {
            domain: d,
            arity,
            rows: Vec::new(alloc),
        }
    }

    /// The relation of the tuples that stand one behind another in `rows`, in any order, each of `arity`
    /// values of the domain. The arity is to be from 1 to 6. Repeated tuples count once.
    pub fn from_rows(
        alloc: Global,
        d: Domain,
        arity: u32,
        rows: &[u8],
    ) -> Result<Relation, NoMemory>
        requires some_places { 1 ≤ arity }
        requires few_places { arity ≤ 6 }
        requires whole { length rows.now % arity ≡ 0 }
        requires below { All (λ v. v < d) rows.now }
        ensures domain { IfOk result (λ r. r.domain ≡ d) }
        ensures arity { IfOk result (λ r. r.arity ≡ arity) }
        ensures members { IfOk result (λ r.
            SameMembers r.rows (tuples_in arity (length rows.now / arity) rows.now)) }
        ensures relation { IfOk result IsRelation }
    {
        let mut relation = Relation {
            domain: d,
            arity,
            rows: Vec::new(alloc),
        };
        let mut rest = rows;
        while !rest.is_empty() {
            let (row, behind) = rest.split_at(arity as usize);
            relation.insert(row)?;
            rest = behind;
        }
        Ok(relation)
    }

    /// Adds the tuple, of the arity and over the domain. Where it is a row already, or where no memory is
    /// found, the relation is as it was.
    pub fn insert(&mut self, tuple: &[u8]) -> Result<(), NoMemory>
        requires tuple { IsTuple self.old.domain self.old.arity tuple.now }
        ensures ok { OnOk result (self.new ≡ with_row_in self.old tuple.now) }
        ensures err { OnErr result (self.new ≡ self.old) }
    {
        if let Err(place) = self.search(tuple) {
            let row = Values::from_slice(*self.rows.allocator(), tuple)?;
            self.rows.insert(place, row)?;
        }
        Ok(())
    }

    /// Whether the tuple, of the arity and over the domain, is a row.
    pub fn has(&self, tuple: &[u8]) -> bool
        requires tuple { IsTuple self.now.domain self.now.arity tuple.now }
        ensures row { IsTrue result ↔ Contains self.now.rows tuple.now }
    {
        self.search(tuple).is_ok()
    }

    /// How many rows there are, at most 15,625.
    pub fn len(&self) -> u32
        ensures rows { result ≡ length self.now.rows }
        ensures few { result ≤ 15625 }
        ensures relation { IsRelation self.now }
    {
        self.rows.len() as u32
    }

    /// Whether there is no row.
    pub fn is_empty(&self) -> bool
        ensures empty { IsTrue result ↔ (self.now.rows ≡ []) }
    {
        self.rows.is_empty()
    }

    /// The length of the tuples, from 1 to 6.
    pub fn arity(&self) -> u32
        ensures arity { result ≡ self.now.arity }
        ensures relation { IsRelation self.now }
    {
        self.arity
    }

    /// The domain of the values in the tuples.
    pub fn domain(&self) -> Domain
        ensures domain { result ≡ self.now.domain }
        ensures relation { IsRelation self.now }
    {
        self.domain
    }

    /// The values of the row with the number `i`, counted from 0 in ascending order.
    pub fn row(&self, i: u32) -> &[u8]
        requires known { i < length self.now.rows }
        ensures row { result.now ≡ slice_index_or self.now.rows i [] }
        ensures tuple { IsTuple self.now.domain self.now.arity result.now }
    {
        self.rows[i as usize].as_slice()
    }

    /// An equal relation, in memory of its own.
    pub fn copy(&self) -> Result<Relation, NoMemory>
        ensures ok { IfOk result (λ r. r ≡ self.now) }
    {
        let mut rows = Vec::new(*self.rows.allocator());
        for row in &self.rows {
            rows.push(row.copy()?)?;
        }
        Ok(Relation {
            domain: self.domain,
            arity: self.arity,
            rows,
        })
    }

    /// The place of the row, or the place where the tuple would go.
    fn search(&self, tuple: &[u8]) -> Result<usize, usize>
        requires tuple { IsTuple self.now.domain self.now.arity tuple.now }
        ensures found { OnOk result (Contains self.now.rows tuple.now) }
        ensures absent { OnErr result (¬ Contains self.now.rows tuple.now) }
        ensures within { IfErr result (λ place. place ≤ length self.now.rows) }
        ensures goes { IfErr result (λ place.
            with_row tuple.now self.now.rows ≡ insert self.now.rows place tuple.now) }
    {
        self.rows.binary_search_by(|row| row.as_slice().cmp(tuple))
    }
}
