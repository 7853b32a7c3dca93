ghost use Rattle.std.specs.Prelude.{◌≡◌, ◌-◌, ℕ, ◌≤◌, length, IfOk, IfSome, IfNone};
ghost use Rattle.pol_base.specs.declared.class_name.ClassName.TheVariants as class;
ghost use Rattle.pol_relation.specs.Relations.{LanguageView};
ghost use Rattle.pol_relation.specs.Instances.{InstanceView, Fits, IsSolution, HasNoSolution};
ghost use Rattle.pol_nogood.specs.Answers.{YesSolves, NoOnlyWithoutSolution, NoHasCertificate};
ghost use Rattle.pol_affine.specs.Answers.{SumYesSolves, SumNoOnlyWithoutSolution, SumNoHasCertificate};
ghost use Rattle.pol_maltsev.specs.Compacts.{AreSizes};
ghost use Rattle.pol_optable.specs.Operations.{IsPolymorphism};
ghost use Rattle.pol_optable.specs.Identities.{IsNearUnanimity};
ghost use Rattle.pol_optable.specs.Choices.{AreTables, HasTable};
ghost use Rattle.pol_solve.specs.Answers.{IsLogAnswer, IsSumAnswer, IsSizesAnswer, AnswersByFirst};

use crate::choosing::chosen_solution;
use crate::solve_constant;
use pol_affine::{SumAnswer, solve_affine};
use pol_arc::{Consistency, arc, solve_width_one};
use pol_base::{ClassName, NoMemory, Numbers, Values};
use pol_maltsev::{MaltsevAnswer, solve_maltsev};
use pol_modp::Combination;
use pol_nogood::{Log, LogAnswer, trimmed};
use pol_optable::{Classes, Nu4, OpTable};
use pol_relation::{Instance, Language};
use pol_setfn::fold;
use pol_strong::solve_nu;
use std::alloc::Global;

/// What is answered of an instance. A solution is a value for each variable, in their order.
#[derive(Debug, Drop)]
pub enum InstanceAnswer {
    /// A solution, by a class other than `maltsev`.
    Yes(Values),
    /// A log that shows that there is no solution.
    NoLog(Log),
    /// A combination that shows that there is no solution.
    NoSum(Combination),
    /// A solution by the class `maltsev`, and for each number of constraints from 0 on the size of the signature
    /// of the assignments that meet so many of the first.
    YesSizes(Values, Numbers),
    /// There is no solution, by the class `maltsev`; the same sizes.
    NoSizes(Numbers),
    /// No table of any class was found.
    Undecided,
}

/// Answers the instance by the first class of which a table was found: a solution, or exactly where
/// there is none No; with a log, of which each step but the last is referred to, with a combination, or
/// with the sizes of the run, by the class. Undecided exactly where no table was found.
pub fn answer(
    alloc: Global,
    lang: &Language,
    inst: &Instance,
    classes: &Classes,
) -> Result<InstanceAnswer, NoMemory>
    requires fits { Fits lang.now inst.now }
    requires some_variables { 1 ≤ length inst.now.variables }
    requires few_variables { length inst.now.variables ≤ 40 }
    requires few_constraints { length inst.now.constraints ≤ 256 }
    requires tables { AreTables lang.now classes.now }
    ensures answers { IfOk result (AnswersByFirst lang.now inst.now classes.now) }
{
    match classes.first() {
        Some(ClassName::Constant) => by_constant(alloc, lang, inst, classes),
        Some(ClassName::Semilattice) => by_semilattice(alloc, lang, inst, classes),
        Some(ClassName::SetFunction) => by_set_function(alloc, lang, inst, classes),
        Some(ClassName::Majority) => by_majority(alloc, lang, inst, classes),
        Some(ClassName::Nu4) => by_nu4(alloc, lang, inst, classes),
        Some(ClassName::Affine) => by_affine(alloc, lang, inst, classes),
        Some(ClassName::Maltsev) => by_maltsev(alloc, lang, inst, classes),
        None => Ok(InstanceAnswer::Undecided),
    }
}

/// Answers by the constant operation, and leaves the instance undecided where there is none.
fn by_constant(
    alloc: Global,
    lang: &Language,
    inst: &Instance,
    classes: &Classes,
) -> Result<InstanceAnswer, NoMemory>
    requires fits { Fits lang.now inst.now }
    requires tables { AreTables lang.now classes.now }
    ensures answers { HasTable classes.now class.Constant → IfOk result (IsLogAnswer 1 lang.now inst.now) }
{
    match &classes.constant {
        Some(op) => by_log(alloc, solve_constant(alloc, lang, inst, op)?),
        None => Ok(InstanceAnswer::Undecided),
    }
}

/// Answers by the semilattice operation, through the set function that folds it.
fn by_semilattice(
    alloc: Global,
    lang: &Language,
    inst: &Instance,
    classes: &Classes,
) -> Result<InstanceAnswer, NoMemory>
    requires fits { Fits lang.now inst.now }
    requires few_variables { length inst.now.variables ≤ 40 }
    requires tables { AreTables lang.now classes.now }
    ensures answers { HasTable classes.now class.Semilattice → IfOk result (IsLogAnswer 1 lang.now inst.now) }
{
    let _domain = lang.domain();
    match &classes.semilattice {
        Some(op) => {
            let _cells = op.cells();
            let g = fold(alloc, op)?;
            by_log(alloc, solve_width_one(alloc, lang, inst, &g)?)
        }
        None => Ok(InstanceAnswer::Undecided),
    }
}

/// Answers by the set function.
fn by_set_function(
    alloc: Global,
    lang: &Language,
    inst: &Instance,
    classes: &Classes,
) -> Result<InstanceAnswer, NoMemory>
    requires fits { Fits lang.now inst.now }
    requires few_variables { length inst.now.variables ≤ 40 }
    requires tables { AreTables lang.now classes.now }
    ensures answers { HasTable classes.now class.SetFunction → IfOk result (IsLogAnswer 1 lang.now inst.now) }
{
    match &classes.setfn {
        Some(g) => {
            let _cells = g.cells();
            by_log(alloc, solve_width_one(alloc, lang, inst, g)?)
        }
        None => Ok(InstanceAnswer::Undecided),
    }
}

/// Answers by the majority operation.
fn by_majority(
    alloc: Global,
    lang: &Language,
    inst: &Instance,
    classes: &Classes,
) -> Result<InstanceAnswer, NoMemory>
    requires fits { Fits lang.now inst.now }
    requires few_variables { length inst.now.variables ≤ 40 }
    requires tables { AreTables lang.now classes.now }
    ensures answers { HasTable classes.now class.Majority → IfOk result (IsLogAnswer 2 lang.now inst.now) }
{
    let _domain = lang.domain();
    match &classes.majority {
        Some(op) => {
            let _cells = op.cells();
            by_near_unanimity(alloc, lang, inst, op)
        }
        None => Ok(InstanceAnswer::Undecided),
    }
}

/// Answers by the near-unanimity operation of arity four.
fn by_nu4(
    alloc: Global,
    lang: &Language,
    inst: &Instance,
    classes: &Classes,
) -> Result<InstanceAnswer, NoMemory>
    requires fits { Fits lang.now inst.now }
    requires few_variables { length inst.now.variables ≤ 40 }
    requires tables { AreTables lang.now classes.now }
    ensures answers { HasTable classes.now class.Nu4 → IfOk result (IsLogAnswer 3 lang.now inst.now) }
{
    let _domain = lang.domain();
    match &classes.nu4 {
        Nu4::Found(op) => {
            let _cells = op.cells();
            by_near_unanimity(alloc, lang, inst, op)
        }
        Nu4::Beyond | Nu4::Absent => Ok(InstanceAnswer::Undecided),
    }
}

/// Answers by the affine operation.
fn by_affine(
    alloc: Global,
    lang: &Language,
    inst: &Instance,
    classes: &Classes,
) -> Result<InstanceAnswer, NoMemory>
    requires fits { Fits lang.now inst.now }
    requires few_variables { length inst.now.variables ≤ 40 }
    requires few_constraints { length inst.now.constraints ≤ 256 }
    requires tables { AreTables lang.now classes.now }
    ensures answers { HasTable classes.now class.Affine → IfOk result (IsSumAnswer lang.now inst.now) }
{
    let _domain = lang.domain();
    match &classes.affine {
        Some(op) => {
            let _cells = op.cells();
            by_sum(solve_affine(alloc, lang, inst, op)?)
        }
        None => Ok(InstanceAnswer::Undecided),
    }
}

/// Answers by the Mal'tsev operation.
fn by_maltsev(
    alloc: Global,
    lang: &Language,
    inst: &Instance,
    classes: &Classes,
) -> Result<InstanceAnswer, NoMemory>
    requires fits { Fits lang.now inst.now }
    requires some_variables { 1 ≤ length inst.now.variables }
    requires few_variables { length inst.now.variables ≤ 40 }
    requires few_constraints { length inst.now.constraints ≤ 256 }
    requires tables { AreTables lang.now classes.now }
    ensures answers { HasTable classes.now class.Maltsev → IfOk result (IsSizesAnswer lang.now inst.now) }
{
    let _domain = lang.domain();
    match &classes.maltsev {
        Some(op) => {
            let _cells = op.cells();
            Ok(by_sizes(solve_maltsev(alloc, lang, inst, op)?))
        }
        None => Ok(InstanceAnswer::Undecided),
    }
}

/// Answers by a near-unanimity operation: where arc consistency leaves a variable no value, by its log;
/// where values that are chosen one by one are a solution, by these; and else by strong consistency.
fn by_near_unanimity<const K: usize>(
    alloc: Global,
    lang: &Language,
    inst: &Instance,
    op: &OpTable<K>,
) -> Result<InstanceAnswer, NoMemory>
    requires some_arguments { 3 ≤ K }
    requires few_arguments { K ≤ 4 }
    requires near_unanimity { IsNearUnanimity op.now }
    requires polymorphism { IsPolymorphism op.now lang.now }
    requires domain { op.now.domain ≡ lang.now.domain }
    requires fits { Fits lang.now inst.now }
    requires few_variables { length inst.now.variables ≤ 40 }
    ensures answers { IfOk result (IsLogAnswer (K - 1) lang.now inst.now) }
{
    match arc(alloc, lang, inst)? {
        Consistency::Wiped(log) => by_log(alloc, LogAnswer::No(log)),
        Consistency::Domains(masks) => match chosen_solution(alloc, lang, inst, masks.as_slice())? {
            Some(values) => Ok(InstanceAnswer::Yes(values)),
            None => by_log(alloc, solve_nu(alloc, lang, inst, op)?),
        },
    }
}

/// What a solver with logs answers. Of a log it is the part that its last step leads to.
fn by_log(alloc: Global, given: LogAnswer) -> Result<InstanceAnswer, NoMemory>
    ensures answers { (most : ℕ) (lang : LanguageView) (inst : InstanceView)
        → YesSolves lang inst given
        → NoOnlyWithoutSolution lang inst given
        → NoHasCertificate most lang inst given
        → IfOk result (IsLogAnswer most lang inst) }
{
    match given {
        LogAnswer::Yes(values) => Ok(InstanceAnswer::Yes(values)),
        LogAnswer::No(log) => Ok(InstanceAnswer::NoLog(trimmed(alloc, &log)?)),
    }
}

/// What the solver with combinations answers.
fn by_sum(given: SumAnswer) -> Result<InstanceAnswer, NoMemory>
    ensures answers { (lang : LanguageView) (inst : InstanceView)
        → SumYesSolves lang inst given
        → SumNoOnlyWithoutSolution lang inst given
        → SumNoHasCertificate lang inst given
        → IfOk result (IsSumAnswer lang inst) }
{
    Ok(match given {
        SumAnswer::Yes(values) => InstanceAnswer::Yes(values),
        SumAnswer::No(combination) => InstanceAnswer::NoSum(combination),
    })
}

/// What the solver with sizes answers.
fn by_sizes(given: MaltsevAnswer) -> InstanceAnswer
    ensures answers { (lang : LanguageView) (inst : InstanceView)
        → IfSome given.solution (IsSolution lang inst)
        → IfNone given.solution (HasNoSolution lang inst)
        → AreSizes lang inst given.sizes
        → IsSizesAnswer lang inst result }
{
    let MaltsevAnswer { solution, sizes } = given;
    match solution {
        Some(values) => InstanceAnswer::YesSizes(values, sizes),
        None => InstanceAnswer::NoSizes(sizes),
    }
}
