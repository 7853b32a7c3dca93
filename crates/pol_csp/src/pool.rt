ghost use Rattle.std.specs.Prelude.{◌≡◌, ℕ, ◌<◌, [], ◌∷◌, ◌++◌, length, OnOk, OnErr, slice_index_or};
ghost use Rattle.pol_relation.specs.Instances.{no_constraint};

use pol_base::NoMemory;
use smallvec::SmallVec;
use std::alloc::Global;
use std::marker::Model;

/// How many places a relation may have.
pub(crate) const MOST_PLACES: usize = 6;

/// The number of a relation, and the cells that its places read.
#[derive(Drop)]
struct Constraint {
    relation: u32,
    scope: SmallVec<u32, MOST_PLACES>,
}

impl Model for Constraint {
    ghost use Rattle.pol_relation.specs.Instances.{ConstraintView};

    ghost Value = { ConstraintView };

    ghost view = { λ c. record { relation = c.relation; scope = c.scope.items } };
}

/// Constraints on cells, each the number of a relation and the cells of its places, numbered from 0 in the
/// order in which they were added.
#[derive(Drop)]
pub struct Pool {
    constraints: Vec<Constraint>,
}

impl Model for Pool {
    ghost use Rattle.std.specs.Prelude.{List};
    ghost use Rattle.pol_relation.specs.Instances.{ConstraintView};

    ghost Value = { List ConstraintView };

    ghost view = { λ p. p.constraints.items };
}

impl Pool {
    /// The pool without constraints. Takes no memory.
    pub fn new(alloc: Global) -> Pool
        ensures empty { result ≡ [] }
    {
        Pool {
            constraints: Vec::new(alloc),
        }
    }

    /// Puts a constraint last: the number of its relation, and the cell of each of its places. Neither is
    /// looked up. Where no memory is found the pool is as it was.
    pub fn add(&mut self, relation: u32, scope: &[u32]) -> Result<(), NoMemory>
        ensures ok { OnOk result (self.new ≡ self.old ++ record { relation = relation; scope = scope.now } ∷ []) }
        ensures err { OnErr result (self.new ≡ self.old) }
    {
        let scope = SmallVec::from_slice(*self.constraints.allocator(), scope)?;
        self.constraints.push(Constraint { relation, scope })?;
        Ok(())
    }

    /// How many constraints there are.
    pub fn len(&self) -> usize
        ensures counted { result ≡ length self.now }
    {
        self.constraints.len()
    }

    /// The number of the relation of constraint `c`.
    pub fn relation_of(&self, c: usize) -> u32
        requires known { c < length self.now }
        ensures relation { result ≡ (slice_index_or self.now c no_constraint).relation }
    {
        self.constraints[c].relation
    }

    /// The cells of the places of constraint `c`.
    pub fn scope(&self, c: usize) -> &[u32]
        requires known { c < length self.now }
        ensures scope { result.now ≡ (slice_index_or self.now c no_constraint).scope }
    {
        self.constraints[c].scope.as_slice()
    }
}
