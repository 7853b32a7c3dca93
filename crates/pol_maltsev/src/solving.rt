ghost use Rattle.std.specs.Prelude.{◌≡◌, ◌+◌, ◌<◌, ◌≤◌, ℕ, length, IfOk, OnOk, IfSome, IfNone};
ghost use Rattle.pol_relation.specs.Instances.{Fits, IsSolution, HasNoSolution};
ghost use Rattle.pol_optable.specs.Operations.{IsPolymorphism};
ghost use Rattle.pol_optable.specs.Identities.{IsMaltsev};
ghost use Rattle.pol_maltsev.specs.Compacts.{AreSizes};
ghost use Rattle.pol_maltsev.specs.Solutions.{IsPresent, IsRowAt, IsTableOfFirst, IsSizeOfFirst};

use crate::table::Table;
use pol_base::{NoMemory, Numbers, Values};
use pol_optable::OpTable;
use pol_relation::{Instance, Language};
use std::alloc::Global;

/// The answer of a solver that goes from constraint to constraint by signatures.
#[derive(Debug, Drop)]
pub struct MaltsevAnswer {
    /// A solution: a value for each variable, in their order. None exactly where there is none.
    pub solution: Option<Values>,
    /// For each number of constraints, from 0 to all of them, the size of the signature of the assignments
    /// that meet so many of the first. It is 0 exactly where no assignment does.
    pub sizes: Numbers,
}

/// Answers the instance, where the operation is a Mal'tsev operation and preserves each relation of the
/// language. A table of all assignments is restricted to those that meet one constraint after the other;
/// the rows that it has then for values of its members are solutions, and one of them is answered, if there
/// is any.
///
/// The operation is to be one on the domain of the language, and the instance to fit the language and to
/// have 1 to 40 variables.
///
/// (A. Bulatov and V. Dalmau, A simple algorithm for Mal'tsev constraints, SIAM Journal on Computing 36,
/// 2006.)
pub fn solve_maltsev(
    alloc: Global,
    lang: &Language,
    inst: &Instance,
    op: &OpTable<3>,
) -> Result<MaltsevAnswer, NoMemory>
    requires maltsev { IsMaltsev op.now }
    requires polymorphism { IsPolymorphism op.now lang.now }
    requires domain { op.now.domain ≡ lang.now.domain }
    requires fits { Fits lang.now inst.now }
    requires some_variables { 1 ≤ length inst.now.variables }
    requires few_variables { length inst.now.variables ≤ 40 }
    ensures yes { IfOk result (λ a. IfSome a.solution (IsSolution lang.now inst.now)) }
    ensures no_only_without_solution { IfOk result (λ a. IfNone a.solution (HasNoSolution lang.now inst.now)) }
    ensures sizes { IfOk result (λ a. AreSizes lang.now inst.now a.sizes) }
{
    let mut table = Table::full(alloc, op, inst.variables())?;
    let mut size = table.size();
    let mut sizes = Numbers::new(alloc);
    sizes.push(size)?;
    for c in 0..inst.constraints() {
        size = meet_constraint(alloc, lang, inst, op, &mut table, size, c)?;
        sizes.push(size)?;
    }
    let solution = table.first_row(alloc)?;
    Ok(MaltsevAnswer { solution, sizes })
}

/// Leaves the assignments that meet constraint `c` too, and answers the size of their signature. Where the
/// size is 0 before, there is none, and nothing is to be done.
fn meet_constraint(
    alloc: Global,
    lang: &Language,
    inst: &Instance,
    op: &OpTable<3>,
    table: &mut Table,
    size: u32,
    c: u32,
) -> Result<u32, NoMemory>
    requires polymorphism { IsPolymorphism op.now lang.now }
    requires domain { op.now.domain ≡ lang.now.domain }
    requires fits { Fits lang.now inst.now }
    requires known { c < length inst.now.constraints }
    requires table { IsTableOfFirst op.now lang.now inst.now c table.old }
    requires size { IsSizeOfFirst lang.now inst.now c size }
    ensures table { OnOk result (IsTableOfFirst op.now lang.now inst.now (c + 1) table.new) }
    ensures size { IfOk result (IsSizeOfFirst lang.now inst.now (c + 1)) }
{
    if size == 0 {
        return Ok(0);
    }
    table.meet(alloc, op, inst.scope(c), lang.relation(inst.relation_of(c)))?;
    Ok(table.size())
}

impl Table {
    /// The row of the least value that a member has at place 0. None exactly where there is no such value.
    fn first_row(&self, alloc: Global) -> Result<Option<Values>, NoMemory>
        ensures row { IfOk result (λ found. IfSome found (IsRowAt self.now 0)) }
        ensures none { IfOk result (λ found. IfNone found ((a : ℕ) → ¬ IsPresent self.now 0 a)) }
    {
        // for its clause that there is a place
        let _width = self.width();
        let d = self.domain().size();
        for a in 0..d {
            if self.root(0, a) < d {
                return Ok(Some(Values::from_slice(alloc, self.row(0, a))?));
            }
        }
        Ok(None)
    }
}
