ghost use Rattle.std.specs.Prelude.{◌≡◌, ◌↔◌, ℕ, ◌<◌, ◌≤◌, List, IfOk};
ghost use Rattle.pol_base.specs.Tuples.{IsTuple};
ghost use Rattle.pol_optable.specs.Identities.{IsMaltsev};
ghost use Rattle.pol_maltsev.specs.Orders.{IsNatural};
ghost use Rattle.pol_maltsev.specs.Views.{AreMade, InTable, IsFullAt, IsSoundTable};

use crate::classes::ValueClasses;
use crate::row::Row;
use crate::table::Table;
use pol_base::{Domain, NoMemory};
use pol_optable::OpTable;
use std::alloc::Global;

/// The places in ascending order.
pub(crate) fn natural_order(alloc: Global, n: u32) -> Result<Vec<u32>, NoMemory>
    ensures natural { IfOk result (λ order. IsNatural n order.items) }
{
    let mut order = Vec::with_capacity(alloc, n as usize)?;
    for p in 0..n {
        order.push(p)?;
    }
    Ok(order)
}

/// Of all tuples, the classes of one place: each value in the class of 0.
fn full_at(alloc: Global, d: Domain, n: u32, p: u32) -> Result<ValueClasses, NoMemory>
    requires place { p < n }
    ensures made { IfOk result (λ made. AreMade (IsFullAt n p) d n d made) }
{
    let mut made = ValueClasses::new(alloc);
    for a in 0..d.size() {
        made.push(Row::unit(alloc, n, p, a)?, 0)?;
    }
    Ok(made)
}

impl Table {
    /// The set of all tuples of `n` values, for the natural order of their places.
    pub(crate) fn full(alloc: Global, op: &OpTable<3>, n: u32) -> Result<Table, NoMemory>
        requires maltsev { IsMaltsev op.now }
        requires some_places { 1 ≤ n }
        requires few_places { n ≤ 4096 }
        ensures width { IfOk result (λ t. t.width ≡ n) }
        ensures sound { IfOk result (IsSoundTable op.now) }
        ensures order { IfOk result (λ t. IsNatural n t.order) }
        ensures set { IfOk result (λ t. (u : List ℕ) → InTable op.now t u ↔ IsTuple op.now.domain n u) }
    {
        let domain = op.domain();
        let mut places = Vec::with_capacity(alloc, n as usize)?;
        for p in 0..n {
            places.push(full_at(alloc, domain, n, p)?)?;
        }
        Ok(Table {
            domain,
            width: n,
            order: natural_order(alloc, n)?,
            places,
        })
    }
}
