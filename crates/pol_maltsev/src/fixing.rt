ghost use Rattle.std.specs.Prelude.{◌≡◌, ◌↔◌, ◌<◌, ◌≤◌, ℕ, List, length, All, IfOk};
ghost use Rattle.pol_optable.specs.Operations.{Preserves};
ghost use Rattle.pol_maltsev.specs.Compacts.{IsCompact, Members};
ghost use Rattle.pol_maltsev.specs.Representations.{Begins, ReadsRow};
ghost use Rattle.pol_maltsev.specs.Fronts.{AreBeginners};
ghost use Rattle.pol_maltsev.specs.Orders.{IsNatural};
ghost use Rattle.pol_maltsev.specs.Views.{InTable, IsSoundTable, HaveOneShape};

use crate::compact::Compact;
use crate::row::Row;
use crate::table::Table;
use pol_base::NoMemory;
use pol_optable::OpTable;
use pol_relation::Relation;
use std::alloc::Global;

impl Table {
    /// In the natural order of the places: a member that begins with the front, or none where none does.
    fn beginners(&self, alloc: Global, op: &OpTable<3>, front: &[u8]) -> Result<Vec<Row>, NoMemory>
        requires sound { IsSoundTable op.now self.now }
        requires natural { IsNatural self.now.width self.now.order }
        requires some { 1 ≤ length front.now }
        requires few { length front.now ≤ self.now.width }
        requires below { All (λ v. v < self.now.domain) front.now }
        ensures begin { IfOk result (λ found. AreBeginners (InTable op.now self.now) front.now found.items) }
    {
        let mut found = Vec::new(alloc);
        if let Some(member) = self.walk(alloc, op, front)? {
            found.push(member)?;
        }
        Ok(found)
    }

    /// In the natural order of the places: the members that begin with the front.
    fn fixed(self, alloc: Global, op: &OpTable<3>, front: &[u8]) -> Result<Table, NoMemory>
        requires sound { IsSoundTable op.now self }
        requires natural { IsNatural self.width self.order }
        requires few { length front.now ≤ self.width }
        requires below { All (λ v. v < self.domain) front.now }
        ensures shape { IfOk result (λ t. HaveOneShape self t) }
        ensures sound { IfOk result (IsSoundTable op.now) }
        ensures natural { IfOk result (λ t. IsNatural t.width t.order) }
        ensures set { IfOk result (λ t. (u : List ℕ) → InTable op.now t u
            ↔ Begins (InTable op.now self) front.now u) }
    {
        if front.is_empty() {
            return Ok(self);
        }
        let found = self.beginners(alloc, op, front)?;
        self.restrict(alloc, op, front.len() as u32, found.as_slice())
    }
}

impl Compact {
    /// The set of the members that begin with the front: at most as many values of the domain as the width.
    /// All members begin with the empty front. (What Fix-values of Bulatov and Dalmau, 2006, answers.)
    pub fn fix(&self, alloc: Global, op: &OpTable<3>, front: &[u8]) -> Result<Compact, NoMemory>
        requires compact { IsCompact op.now self.now }
        requires few { length front.now ≤ self.now.width }
        requires below { All (λ v. v < self.now.domain) front.now }
        ensures width { IfOk result (λ c. c.width ≡ self.now.width) }
        ensures domain { IfOk result (λ c. c.domain ≡ self.now.domain) }
        ensures compact { IfOk result (IsCompact op.now) }
        ensures members { IfOk result (λ c. (t : List ℕ) → Members op.now c t
            ↔ Begins (Members op.now self.now) front.now t) }
    {
        let fixed = Table::of_rows(alloc, op, self.rows())?.fixed(alloc, op, front)?;
        Ok(Compact::new(fixed.to_rows(alloc)?))
    }

    /// The set of the members that read a row of the relation at the places, which are below the width, as
    /// many as the relation's arity and at least one; one may repeat. The relation is to be over the same
    /// domain, and the operation to preserve it. (What Next of Bulatov and Dalmau, 2006, answers.)
    pub fn next(
        &self,
        alloc: Global,
        op: &OpTable<3>,
        places: &[u32],
        r: &Relation,
    ) -> Result<Compact, NoMemory>
        requires compact { IsCompact op.now self.now }
        requires some { 1 ≤ length places.now }
        requires below { All (λ p. p < self.now.width) places.now }
        requires long { length places.now ≡ r.now.arity }
        requires domain { r.now.domain ≡ self.now.domain }
        requires preserved { Preserves op.now r.now }
        ensures width { IfOk result (λ c. c.width ≡ self.now.width) }
        ensures domain { IfOk result (λ c. c.domain ≡ self.now.domain) }
        ensures compact { IfOk result (IsCompact op.now) }
        ensures members { IfOk result (λ c. (t : List ℕ) → Members op.now c t
            ↔ ReadsRow (Members op.now self.now) places.now r.now.rows t) }
    {
        let mut table = Table::of_rows(alloc, op, self.rows())?;
        table.meet(alloc, op, places, r)?;
        Ok(Compact::new(table.to_rows(alloc)?))
    }
}
