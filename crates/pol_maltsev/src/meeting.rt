ghost use Rattle.std.specs.Prelude.{◌≡◌, ◌↔◌, ℕ, ◌<◌, ◌≤◌, List, length, All, Contains, IsTrue, OnOk};
ghost use Rattle.pol_relation.specs.Instances.{read_at};
ghost use Rattle.pol_optable.specs.Operations.{Preserves};
ghost use Rattle.pol_maltsev.specs.Representations.{ReadsRow};
ghost use Rattle.pol_maltsev.specs.Orders.{IsNatural};
ghost use Rattle.pol_maltsev.specs.Scopes.{ReadsOnly, ReadsOnlyAt};
ghost use Rattle.pol_maltsev.specs.Views.{InTable, IsSoundTable, IsReordered, HaveOneShape};

use crate::full::natural_order;
use crate::table::Table;
use pol_base::NoMemory;
use pol_optable::OpTable;
use pol_relation::Relation;
use std::alloc::Global;

const MOST_PLACES: usize = 6;

/// Whether the tuple reads a row of the relation at the scope.
fn reads_row(tuple: &[u8], scope: &[u32], r: &Relation) -> bool
    requires places { All (λ p. p < length tuple.now) scope.now }
    requires long { length scope.now ≡ r.now.arity }
    requires below { All (λ v. v < r.now.domain) tuple.now }
    ensures reads { IsTrue result ↔ Contains r.now.rows (read_at tuple.now scope.now) }
{
    // for its clause that a relation has at most 6 places
    let _arity = r.arity();
    let mut word = [0; MOST_PLACES];
    for (k, p) in scope.iter().enumerate() {
        word[k] = tuple[*p as usize];
    }
    r.has(&word[..scope.len()])
}

impl Table {
    /// Whether each row of the place reads a row of the relation at the scope.
    fn reads_only_at(&self, p: u32, scope: &[u32], r: &Relation) -> bool
        requires place { p < self.now.width }
        requires scope { All (λ p. p < self.now.width) scope.now }
        requires long { length scope.now ≡ r.now.arity }
        requires domain { r.now.domain ≡ self.now.domain }
        ensures reads { IsTrue result ↔ ReadsOnlyAt self.now p scope.now r.now.rows }
    {
        let d = self.domain().size();
        for a in 0..d {
            if self.root(p, a) < d && !reads_row(self.row(p, a), scope, r) {
                return false;
            }
        }
        true
    }

    /// Whether each row of the table does.
    fn reads_only(&self, scope: &[u32], r: &Relation) -> bool
        requires scope { All (λ p. p < self.now.width) scope.now }
        requires long { length scope.now ≡ r.now.arity }
        requires domain { r.now.domain ≡ self.now.domain }
        ensures reads { IsTrue result ↔ ReadsOnly self.now scope.now r.now.rows }
    {
        for p in 0..self.width() {
            if !self.reads_only_at(p, scope, r) {
                return false;
            }
        }
        true
    }

    /// Brings the places into the natural order.
    pub(crate) fn to_natural(&mut self, alloc: Global, op: &OpTable<3>) -> Result<(), NoMemory>
        requires sound { IsSoundTable op.now self.old }
        ensures reordered { IsReordered op.now 0 self.old self.new }
        ensures natural { OnOk result (IsNatural self.new.width self.new.order) }
    {
        let order = natural_order(alloc, self.width())?;
        self.to_front(alloc, op, order.as_slice())
    }

    /// Leaves the members that read a row of the relation at the scope. Where each row of the table does,
    /// each member does, and nothing changes.
    pub(crate) fn meet(
        &mut self,
        alloc: Global,
        op: &OpTable<3>,
        scope: &[u32],
        r: &Relation,
    ) -> Result<(), NoMemory>
        requires sound { IsSoundTable op.now self.old }
        requires natural { IsNatural self.old.width self.old.order }
        requires scope { All (λ p. p < self.old.width) scope.now }
        requires some { 1 ≤ length scope.now }
        requires long { length scope.now ≡ r.now.arity }
        requires domain { r.now.domain ≡ self.old.domain }
        requires preserved { Preserves op.now r.now }
        ensures shape { OnOk result (HaveOneShape self.old self.new) }
        ensures sound { OnOk result (IsSoundTable op.now self.new) }
        ensures natural { OnOk result (IsNatural self.new.width self.new.order) }
        ensures set { OnOk result ((t : List ℕ) → InTable op.now self.new t
            ↔ ReadsRow (InTable op.now self.old) scope.now r.now.rows t) }
    {
        // for its clause that a relation has at most 6 places
        let _arity = r.arity();
        if self.reads_only(scope, r) {
            return Ok(());
        }
        let first = self.scope_to_front(alloc, op, scope)?;
        let found = self.readers(alloc, op, scope, first.as_slice(), r)?;
        let mut met = self.restrict(alloc, op, first.as_slice().len() as u32, found.as_slice())?;
        met.to_natural(alloc, op)?;
        *self = met;
        Ok(())
    }
}
