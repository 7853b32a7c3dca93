ghost use Rattle.std.specs.Prelude.{◌≡◌, ◌≢◌, ℕ, ◌<◌, ◌≤◌, List, length, All, IfOk, IfSome, IfNone};
ghost use Rattle.pol_base.specs.Tuples.{IsTuple};
ghost use Rattle.pol_maltsev.specs.Restrictions.{IsReading};
ghost use Rattle.pol_maltsev.specs.Views.{InTable, IsSoundTable};

use crate::row::Row;
use crate::table::Table;
use pol_base::NoMemory;
use pol_optable::OpTable;
use std::alloc::Global;

impl Table {
    /// A member that has the values at the first places of the order. None exactly where no member has.
    pub(crate) fn walk(
        &self,
        alloc: Global,
        op: &OpTable<3>,
        word: &[u8],
    ) -> Result<Option<Row>, NoMemory>
        requires sound { IsSoundTable op.now self.now }
        requires some { 1 ≤ length word.now }
        requires few { length word.now ≤ self.now.width }
        requires below { All (λ v. v < self.now.domain) word.now }
        ensures reads { IfOk result (λ found. IfSome found
            (IsReading (InTable op.now self.now) self.now.order word.now (length word.now))) }
        ensures none { IfOk result (λ found. IfNone found ((t : List ℕ)
            → ¬ IsReading (InTable op.now self.now) self.now.order word.now (length word.now) t)) }
    {
        let start = self.place(0);
        if self.root(start, word[0]) == self.domain().size() {
            return Ok(None);
        }
        let mut member = Row::from_slice(alloc, self.row(start, word[0]))?;
        for k in 1..word.len() {
            let p = self.place(k as u32);
            let from = member.as_slice()[p as usize];
            if !self.same(p, from, word[k]) {
                return Ok(None);
            }
            member = self.step(alloc, op, p, member.as_slice(), word[k])?;
        }
        Ok(Some(member))
    }
}
