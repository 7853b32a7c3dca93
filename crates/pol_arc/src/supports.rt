ghost use Rattle.std.specs.Prelude.{◌≡◌, ℕ, ◌<◌, ◌≤◌, ◌↔◌, length, All, IsTrue, IfOk, slice_index};
ghost use Rattle.pol_relation.specs.Instances.{Fits, constraint_of};
ghost use Rattle.pol_relation.specs.Relations.{rows_of};
ghost use Rattle.pol_nogood.specs.Logs.{Basis, value_case, nogood_at, cases_of};
ghost use Rattle.pol_nogood.specs.ValidLogs.{HasReferences};
ghost use Rattle.pol_arc.specs.Arcs.{LiesIn, Supports, IsSupported};
ghost use Rattle.pol_arc.specs.Pruned.{IsDeleted, HasSteps, IsPruned, IsReference};

use pol_base::{NoMemory, Numbers, has_value};
use pol_nogood::{Log, Nogood, is_case};
use pol_relation::{Instance, Language};
use std::alloc::Global;

/// The nogood of one pair.
pub(crate) fn one_pair(x: u32, a: u8) -> Nogood
    ensures pair { result ≡ value_case x a }
{
    let mut nogood = Nogood::new();
    nogood.push(x, a);
    nogood
}

/// Whether the nogood is the value at the variable alone.
fn is_pair(nogood: &Nogood, x: u32, a: u8) -> bool
    ensures pair { IsTrue result ↔ (nogood.now ≡ value_case x a) }
{
    if nogood.len() != 1 {
        return false;
    }
    let (variable, value) = nogood.pair(0);
    variable == x && value == a
}

/// The number of the step that deleted the value.
pub(crate) fn step_of(log: &Log, x: u32, a: u8) -> u32
    requires deleted { IsDeleted log.now x a }
    ensures known { result < length log.now }
    ensures nogood { nogood_at log.now result ≡ value_case x a }
{
    for s in 0..log.len() {
        if is_pair(log.step(s).nogood(), x, a) {
            return s;
        }
    }
    0
}

/// Whether each value of the row is in the mask of the variable at its place.
fn lies_in(scope: &[u32], row: &[u8], d: u8, masks: &[u8]) -> bool
    requires long { length row.now ≡ length scope.now }
    requires variables { All (λ x. x < length masks.now) scope.now }
    requires values { All (λ v. v < d) row.now }
    requires small { d ≤ 5 }
    ensures lies { IsTrue result ↔ LiesIn masks.now scope.now row.now }
{
    for j in 0..scope.len() {
        if !has_value(masks[scope[j] as usize], row[j]) {
            return false;
        }
    }
    true
}

/// Whether the row supports the value at the variable.
fn supports(scope: &[u32], row: &[u8], d: u8, masks: &[u8], nogood: &Nogood, x: u32, a: u8) -> bool
    requires long { length row.now ≡ length scope.now }
    requires variables { All (λ x. x < length masks.now) scope.now }
    requires values { All (λ v. v < d) row.now }
    requires small { d ≤ 5 }
    requires pair { nogood.now ≡ value_case x a }
    ensures supports { IsTrue result ↔ Supports masks.now scope.now x a row.now }
{
    if !is_case(scope, nogood, row) {
        return false;
    }
    lies_in(scope, row, d, masks)
}

/// Whether a row of the constraint supports the value at place `j`.
pub(crate) fn is_supported(
    lang: &Language,
    inst: &Instance,
    masks: &[u8],
    c: u32,
    j: usize,
    a: u8,
) -> bool
    requires fits { Fits lang.now inst.now }
    requires known { c < length inst.now.constraints }
    requires place { j < length (constraint_of inst.now c).scope }
    requires long { length masks.now ≡ length inst.now.variables }
    ensures supported { IsTrue result ↔ IsSupported (rows_of lang.now (constraint_of inst.now c).relation)
        masks.now (constraint_of inst.now c).scope (slice_index (constraint_of inst.now c).scope j) a }
{
    let relation = lang.relation(inst.relation_of(c));
    let scope = inst.scope(c);
    let size = lang.domain().size();
    let x = scope[j];
    let nogood = one_pair(x, a);
    for i in 0..relation.len() {
        let row = relation.row(i);
        if row[j] == a && supports(scope, row, size, masks, &nogood, x, a) {
            return true;
        }
    }
    false
}

/// The step that deleted the first value of the row that is not in its mask.
fn reference(scope: &[u32], row: &[u8], d: u8, masks: &[u8], log: &Log) -> u32
    requires long { length row.now ≡ length scope.now }
    requires variables { All (λ x. x < length masks.now) scope.now }
    requires values { All (λ v. v < d) row.now }
    requires small { d ≤ 5 }
    requires steps { HasSteps (length masks.now) d masks.now log.now }
    requires outside { ¬ LiesIn masks.now scope.now row.now }
    ensures reference { IsReference log.now scope.now row.now result }
{
    for j in 0..scope.len() {
        if !has_value(masks[scope[j] as usize], row[j]) {
            return step_of(log, scope[j], row[j]);
        }
    }
    0
}

/// One reference for each case of a value that no row of the constraint supports.
pub(crate) fn references(
    alloc: Global,
    lang: &Language,
    inst: &Instance,
    masks: &[u8],
    log: &Log,
    c: u32,
    x: u32,
    a: u8,
) -> Result<Numbers, NoMemory>
    requires fits { Fits lang.now inst.now }
    requires known { c < length inst.now.constraints }
    requires pruned { IsPruned lang.now inst.now masks.now log.now }
    requires unsupported { ¬ IsSupported (rows_of lang.now (constraint_of inst.now c).relation)
        masks.now (constraint_of inst.now c).scope x a }
    ensures referred { IfOk result (λ references. HasReferences log.now (value_case x a)
        (cases_of lang.now inst.now (Basis.ByConstraint c) (value_case x a)) references) }
{
    let relation = lang.relation(inst.relation_of(c));
    let scope = inst.scope(c);
    let size = lang.domain().size();
    let nogood = one_pair(x, a);
    let mut references = Numbers::new(alloc);
    for i in 0..relation.len() {
        let row = relation.row(i);
        if is_case(scope, &nogood, row) {
            references.push(reference(scope, row, size, masks, log))?;
        }
    }
    Ok(references)
}
