ghost use Rattle.std.specs.Prelude.{◌≡◌, ℕ, ◌-◌, ◌^◌, ◌<◌, ◌≤◌, [], ◌∷◌, ◌++◌, length, replicate, IfOk, OnOk, OnErr};
ghost use Rattle.std.specs.Prelude.{slice_set, slice_index, slice_index_or};
ghost use Rattle.std.specs.List.{range_with_len};
ghost use Rattle.pol_base.specs.Masks.{IsMask};
ghost use Rattle.pol_relation.specs.Instances.{IsScope, no_constraint};
ghost use Rattle.pol_csp.specs.Problems.{ProblemView, IsProblem};

use crate::Pool;
use pol_base::{Domain, NoMemory, full_mask};
use std::alloc::Global;
use std::marker::Model;

/// A problem over 1 to 4,096 cells that take values of a domain: a nonempty mask of open values for each
/// cell, cells that have to be equal, and constraints, at most 2^22, each the number of a relation and the
/// cells of its places. Cells and constraints are numbered from 0.
#[derive(Drop)]
pub struct Problem {
    domain: Domain,
    masks: Vec<u8>,
    ties: Vec<u32>,
    pool: Pool,
}

impl Model for Problem {
    ghost use Rattle.pol_csp.specs.Problems.{ProblemView, IsProblem};

    ghost Value = { ProblemView };

    ghost view = { λ p. record {
      domain = p.domain;
      masks = p.masks.items;
      ties = p.ties.items;
      constraints = p.pool;
    } };

    ghost invariant = { λ p. IsProblem (record {
      domain = p.domain;
      masks = p.masks.items;
      ties = p.ties.items;
      constraints = p.pool;
    }) };
}

impl Problem {
    /// The problem of so many cells, from 1 to 4,096, with all values open, without ties and constraints.
    pub fn new(alloc: Global, d: Domain, cells: u32) -> Result<Problem, NoMemory>
        requires some { 1 ≤ cells }
        requires few { cells ≤ 4096 }
        ensures ok { IfOk result (λ p. p ≡ record {
          domain = d;
          masks = replicate cells (2 ^ d - 1);
          ties = range_with_len 0 cells;
          constraints = [];
        }) }
    {
        let _size = d.size();
        let masks = vec![in alloc; full_mask(d); cells as usize]?;
        let mut ties = Vec::new(alloc);
        for cell in 0..cells {
            ties.push(cell)?;
        }
        Ok(Problem {
            domain: d,
            masks,
            ties,
            pool: Pool::new(alloc),
        })
    }

    /// The domain of the values.
    pub fn domain(&self) -> Domain
        ensures domain { result ≡ self.now.domain }
        ensures problem { IsProblem self.now }
    {
        self.domain
    }

    /// The nonempty mask of each cell, in their order.
    pub fn masks(&self) -> &[u8]
        ensures masks { result.now ≡ self.now.masks }
        ensures problem { IsProblem self.now }
    {
        self.masks.as_slice()
    }

    /// The tie of each cell, in their order: a lower cell, or the cell itself where it is not tied.
    pub fn ties(&self) -> &[u32]
        ensures ties { result.now ≡ self.now.ties }
        ensures problem { IsProblem self.now }
    {
        self.ties.as_slice()
    }

    /// Replaces the mask of the cell by a nonempty one over the domain, which need not lie in the old one.
    pub fn restrict(&mut self, cell: u32, mask: u8)
        requires cell { cell < length self.old.masks }
        requires mask { IsMask self.old.domain mask }
        ensures put { self.new ≡ record {
          domain = self.old.domain;
          masks = slice_set self.old.masks cell mask;
          ties = self.old.ties;
          constraints = self.old.constraints;
        } }
    {
        self.masks[cell as usize] = mask;
    }

    /// Ties the cell, which is not tied, to a lower one, which may itself be tied: the two have to be equal.
    pub fn tie(&mut self, cell: u32, to: u32)
        requires cell { cell < length self.old.masks }
        requires lower { to < cell }
        requires free { slice_index self.old.ties cell ≡ cell }
        ensures put { self.new ≡ record {
          domain = self.old.domain;
          masks = self.old.masks;
          ties = slice_set self.old.ties cell to;
          constraints = self.old.constraints;
        } }
    {
        self.ties[cell as usize] = to;
    }

    /// Adds a constraint of the relation with this number, which is not looked up, on 1 to 6 cells, in which
    /// one may repeat. There are to be fewer than 2^22 before. Where no memory is found the problem is as it
    /// was.
    pub fn add(&mut self, relation: u32, scope: &[u32]) -> Result<(), NoMemory>
        requires scope { IsScope (length self.old.masks) scope.now }
        requires room { length self.old.constraints < 2 ^ 22 }
        ensures ok { OnOk result (self.new ≡ record {
          domain = self.old.domain;
          masks = self.old.masks;
          ties = self.old.ties;
          constraints = self.old.constraints ++ record { relation = relation; scope = scope.now } ∷ [];
        }) }
        ensures err { OnErr result (self.new ≡ self.old) }
    {
        self.pool.add(relation, scope)
    }

    /// How many constraints there are, at most 2^22.
    pub fn constraints(&self) -> u32
        ensures counted { result ≡ length self.now.constraints }
        ensures problem { IsProblem self.now }
    {
        self.pool.len() as u32
    }

    /// The number of the relation of constraint `c`, as it was given.
    pub fn relation_of(&self, c: u32) -> u32
        requires known { c < length self.now.constraints }
        ensures relation { result ≡ (slice_index_or self.now.constraints c no_constraint).relation }
    {
        self.pool.relation_of(c as usize)
    }

    /// The cells of the places of constraint `c`: from 1 to 6, in which one may repeat.
    pub fn scope(&self, c: u32) -> &[u32]
        requires known { c < length self.now.constraints }
        ensures scope { result.now ≡ (slice_index_or self.now.constraints c no_constraint).scope }
        ensures cells { IsScope (length self.now.masks) result.now }
    {
        self.pool.scope(c as usize)
    }
}
