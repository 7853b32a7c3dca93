ghost use Rattle.std.specs.Prelude.{◌≡◌, ℕ, ◌<◌, ◌≤◌, List, length, All, IsTrue, ◌↔◌, IfOk, IfSome, IfNone};
ghost use Rattle.pol_base.specs.Tuples.{IsTuple};
ghost use Rattle.pol_relation.specs.Instances.{read_at};
ghost use Rattle.pol_maltsev.specs.Restrictions.{AreFirsts, AreReaders, IsReader};
ghost use Rattle.pol_maltsev.specs.Views.{InTable, IsSoundTable};

use crate::row::Row;
use crate::table::Table;
use pol_base::NoMemory;
use pol_optable::OpTable;
use pol_relation::Relation;
use std::alloc::Global;

/// The values of the row at the places.
fn read(alloc: Global, row: &[u8], places: &[u32]) -> Result<Vec<u8>, NoMemory>
    requires places { All (λ p. p < length row.now) places.now }
    ensures read { IfOk result (λ word. word.items ≡ read_at row.now places.now) }
{
    let mut word = Vec::with_capacity(alloc, places.len())?;
    for p in places {
        word.push(row[*p as usize])?;
    }
    Ok(word)
}

/// Whether the row reads the word at the places.
fn reads(row: &[u8], places: &[u32], word: &[u8]) -> bool
    requires places { All (λ p. p < length row.now) places.now }
    requires word { length word.now ≡ length places.now }
    ensures reads { IsTrue result ↔ (read_at row.now places.now ≡ word.now) }
{
    for (k, p) in places.iter().enumerate() {
        if row[*p as usize] != word[k] {
            return false;
        }
    }
    true
}

impl Table {
    /// A member that reads the row at the scope, whose places are the first of the order, those at the
    /// numbers `first` of the scope. None exactly where no member does.
    fn reader(
        &self,
        alloc: Global,
        op: &OpTable<3>,
        scope: &[u32],
        first: &[u32],
        row: &[u8],
    ) -> Result<Option<Row>, NoMemory>
        requires sound { IsSoundTable op.now self.now }
        requires scope { All (λ p. p < self.now.width) scope.now }
        requires firsts { AreFirsts self.now.order scope.now first.now }
        requires some { 1 ≤ length first.now }
        requires few { length first.now ≤ self.now.width }
        requires row { IsTuple self.now.domain (length scope.now) row.now }
        ensures reads { IfOk result (λ found. IfSome found
            (IsReader (InTable op.now self.now) scope.now row.now)) }
        ensures none { IfOk result (λ found. IfNone found ((t : List ℕ)
            → ¬ IsReader (InTable op.now self.now) scope.now row.now t)) }
    {
        let word = read(alloc, row, first)?;
        let Some(member) = self.walk(alloc, op, word.as_slice())? else {
            return Ok(None);
        };
        if reads(member.as_slice(), scope, row) {
            Ok(Some(member))
        } else {
            Ok(None)
        }
    }

    /// Members that read rows of the relation at the scope, one for each row that some member reads. The
    /// places of the scope are the first of the order, those at the numbers `first` of the scope.
    pub(crate) fn readers(
        &self,
        alloc: Global,
        op: &OpTable<3>,
        scope: &[u32],
        first: &[u32],
        r: &Relation,
    ) -> Result<Vec<Row>, NoMemory>
        requires sound { IsSoundTable op.now self.now }
        requires scope { All (λ p. p < self.now.width) scope.now }
        requires firsts { AreFirsts self.now.order scope.now first.now }
        requires some { 1 ≤ length first.now }
        requires few { length first.now ≤ self.now.width }
        requires long { length scope.now ≡ r.now.arity }
        requires domain { r.now.domain ≡ self.now.domain }
        ensures readers { IfOk result (λ found.
            AreReaders (InTable op.now self.now) scope.now r.now.rows found.items) }
    {
        let mut found = Vec::new(alloc);
        for i in 0..r.len() {
            if let Some(member) = self.reader(alloc, op, scope, first, r.row(i))? {
                found.push(member)?;
            }
        }
        Ok(found)
    }
}
