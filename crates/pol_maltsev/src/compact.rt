ghost use Rattle.std.specs.Prelude.{◌≡◌, ◌↔◌, ℕ, ◌≤◌, List, [], IsTrue, IfOk};
ghost use Rattle.pol_base.specs.Tuples.{IsTuple};
ghost use Rattle.pol_optable.specs.Identities.{IsMaltsev};
ghost use Rattle.pol_maltsev.specs.Compacts.{IsCompact, Members};

use crate::table::Table;
use pol_base::NoMemory;
use pol_optable::OpTable;
use pol_rows::Rows;
use std::alloc::Global;
use std::marker::Model;

/// A set of tuples that a Mal'tsev operation preserves, by a compact representation: members with the same
/// signature, at most two for each of its triples. The set is what the operation makes of these rows. The
/// operation is not kept, and each call that needs it is to be given it. (A. Bulatov and V. Dalmau, A
/// simple algorithm for Mal'tsev constraints, SIAM Journal on Computing 36, 2006.)
#[derive(Debug, Drop)]
pub struct Compact {
    rows: Rows,
}

impl Model for Compact {
    ghost use Rattle.pol_rows.specs.RowLists.{RowsView};

    ghost Value = { RowsView };

    ghost view = { λ c. c.rows };
}

impl Compact {
    /// By these rows.
    pub(crate) fn new(rows: Rows) -> Compact
        ensures rows { result ≡ rows }
    {
        Compact { rows }
    }

    /// The set of all tuples of `n` values of the operation's domain, where `n` is to be from 1 to 40, and
    /// the operation a Mal'tsev operation: f(x, y, y) = f(y, y, x) = x.
    pub fn full(alloc: Global, op: &OpTable<3>, n: u32) -> Result<Compact, NoMemory>
        requires maltsev { IsMaltsev op.now }
        requires some_places { 1 ≤ n }
        requires few_places { n ≤ 40 }
        ensures width { IfOk result (λ c. c.width ≡ n) }
        ensures domain { IfOk result (λ c. c.domain ≡ op.now.domain) }
        ensures compact { IfOk result (IsCompact op.now) }
        ensures members { IfOk result (λ c. (t : List ℕ) → Members op.now c t ↔ IsTuple op.now.domain n t) }
    {
        Ok(Compact::new(Table::full(alloc, op, n)?.to_rows(alloc)?))
    }

    /// The rows that represent the set, as wide as its tuples and with its signature. Takes no memory.
    pub fn rows(&self) -> &Rows
        ensures rows { result.now ≡ self.now }
    {
        &self.rows
    }

    /// Whether there is no row, and so no member. Takes no memory.
    pub fn is_empty(&self) -> bool
        ensures empty { IsTrue result ↔ (self.now.rows ≡ []) }
    {
        self.rows.len() == 0
    }
}
