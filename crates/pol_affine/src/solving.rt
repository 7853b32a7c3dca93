ghost use Rattle.std.specs.Prelude.{◌≡◌, ◌≢◌, ℕ, ◌<◌, ◌≤◌, ◌↔◌, length, map, take, All, IfOk, IsTrue};
ghost use Rattle.std.specs.Bool.{OnTrue, OnFalse};
ghost use Rattle.pol_relation.specs.Instances.{Fits, constraint_of};
ghost use Rattle.pol_optable.specs.Operations.{IsPolymorphism};
ghost use Rattle.pol_optable.specs.Identities.{IsAffine, IsLabelling, IsAffineSize};
ghost use Rattle.pol_identity.specs.Labels.{labelled};
ghost use Rattle.pol_affine.specs.Answers.{SumYesSolves, SumNoOnlyWithoutSolution, SumNoHasCertificate};
ghost use Rattle.pol_affine.specs.RelationEquations.{ArePreservedBy};
ghost use Rattle.pol_affine.specs.Systems.{DescribeUsed};

use crate::placing::{combined, placed_equations, spread_equations};
use crate::{Equations, equations_of};
use pol_base::{Domain, NoMemory, Values};
use pol_identity::affine_labels;
use pol_modp::{Combination, Elim, eliminate};
use pol_optable::OpTable;
use pol_relation::{Instance, Language};
use std::alloc::Global;

/// The answer of a solver whose No is a combination.
#[derive(Debug, Drop)]
pub enum SumAnswer {
    /// A solution: a value for each variable, in their order.
    Yes(Values),
    /// A combination that shows that there is no solution: `check_combination` accepts it. It has at most
    /// seven parts for each constraint, and none with multiplier 0.
    No(Combination),
}

/// Answers the instance, where the operation is affine and preserves each relation of the language: No
/// exactly where there is no solution. The equations of the constraints' relations are one system over the
/// labels of the variables' values; where elimination finds values, these are the labels of a solution, and
/// else its multipliers are those of a combination. The labels are the least, in the order of lists, that
/// turn the operation into x - y + z.
///
/// The operation is to be one on the domain of the language, and the instance to fit the language and to
/// have at most 40 variables and 256 constraints.
///
/// (P. Jeavons, D. Cohen and M. Gyssens, Closure properties of constraints, Journal of the ACM 44, 1997.)
pub fn solve_affine(
    alloc: Global,
    lang: &Language,
    inst: &Instance,
    op: &OpTable<3>,
) -> Result<SumAnswer, NoMemory>
    requires affine { IsAffine op.now }
    requires polymorphism { IsPolymorphism op.now lang.now }
    requires domain { op.now.domain ≡ lang.now.domain }
    requires fits { Fits lang.now inst.now }
    requires few_variables { length inst.now.variables ≤ 40 }
    requires few_constraints { length inst.now.constraints ≤ 256 }
    ensures yes { IfOk result (SumYesSolves lang.now inst.now) }
    ensures no_only_without_solution { IfOk result (SumNoOnlyWithoutSolution lang.now inst.now) }
    ensures certificate { IfOk result (SumNoHasCertificate lang.now inst.now) }
{
    // for their clauses on what a language and a table are
    let _domains = (lang.domain(), op.domain());
    solve_by_labels(alloc, lang, inst, affine_labels(op).unwrap())
}

/// The same, by labels that turn an operation that preserves each relation into x - y + z.
fn solve_by_labels(
    alloc: Global,
    lang: &Language,
    inst: &Instance,
    labels: [u8; 5],
) -> Result<SumAnswer, NoMemory>
    requires size { IsAffineSize lang.now.domain }
    requires labelling { IsLabelling lang.now.domain (take lang.now.domain labels) }
    requires preserved { ArePreservedBy (take lang.now.domain labels) lang.now }
    requires fits { Fits lang.now inst.now }
    requires few_variables { length inst.now.variables ≤ 40 }
    requires few_constraints { length inst.now.constraints ≤ 256 }
    ensures yes { IfOk result (SumYesSolves lang.now inst.now) }
    ensures no_only_without_solution { IfOk result (SumNoOnlyWithoutSolution lang.now inst.now) }
    ensures certificate { IfOk result (SumNoHasCertificate lang.now inst.now) }
{
    let d = lang.domain();
    let tables = used_equations(alloc, lang, inst, labels)?;
    let placed = placed_equations(alloc, inst, &tables)?;
    let system = spread_equations(alloc, d, inst, &placed)?;
    let labels = &labels[..usize::from(d.size())];
    match eliminate(alloc, d.size(), inst.variables(), &system)? {
        Elim::Values(values) => {
            Ok(SumAnswer::Yes(values_of(alloc, d, labels, values.as_slice())?))
        }
        Elim::Clash(multipliers) => {
            Ok(SumAnswer::No(combined(alloc, labels, &placed, multipliers.as_slice())?))
        }
    }
}

/// The equations of each relation that some constraint uses, and none of the others.
fn used_equations(
    alloc: Global,
    lang: &Language,
    inst: &Instance,
    labels: [u8; 5],
) -> Result<Vec<Equations>, NoMemory>
    requires size { IsAffineSize lang.now.domain }
    requires labelling { IsLabelling lang.now.domain (take lang.now.domain labels) }
    requires preserved { ArePreservedBy (take lang.now.domain labels) lang.now }
    ensures many { IfOk result (λ tables. length tables.items ≡ length lang.now.relations) }
    ensures described { IfOk result (λ tables.
        DescribeUsed (take lang.now.domain labels) lang.now inst.now tables.items) }
{
    let mut tables = Vec::new(alloc);
    for r in 0..lang.len() {
        let equations = if is_used(inst, r) {
            equations_of(alloc, lang.relation(r), labels)?
        } else {
            Equations::none(alloc)
        };
        tables.push(equations)?;
    }
    Ok(tables)
}

/// Whether some constraint is one of the relation.
fn is_used(inst: &Instance, r: u32) -> bool
    ensures unused { OnFalse result ((c : ℕ) → c < length inst.now.constraints → (constraint_of inst.now c).relation ≢ r) }
{
    for c in 0..inst.constraints() {
        if inst.relation_of(c) == r {
            return true;
        }
    }
    false
}

/// The values that have the labels.
fn values_of(alloc: Global, d: Domain, labels: &[u8], found: &[u8]) -> Result<Values, NoMemory>
    requires labelling { IsLabelling d labels.now }
    requires below { All (λ l. l < d) found.now }
    ensures values { IfOk result (λ values. values ≡ map (labelled labels.now) found.now) }
{
    let mut values = Values::new(alloc);
    for label in found {
        values.push(value_of(d, labels, *label))?;
    }
    Ok(values)
}

/// The value that has the label.
fn value_of(d: Domain, labels: &[u8], label: u8) -> u8
    requires labelling { IsLabelling d labels.now }
    requires label { label < d }
    ensures value { result ≡ labelled labels.now label }
{
    for value in 0..d.size() {
        if labels[value as usize] == label {
            return value;
        }
    }
    0
}
