ghost use Rattle.std.specs.Prelude.{◌≡◌, ◌<◌, ◌↔◌, [], ◌∷◌, length, drop, take, All};
ghost use Rattle.std.specs.Prelude.{is_some, IsOk, IsTrue, OnOk, IfErr, IfSome};
ghost use Rattle.std.specs.Result.{result_err};
ghost use Rattle.pol_relation.specs.Instances.{Fits, HasNoSolution};
ghost use Rattle.pol_nogood.specs.Logs.{Basis, step_at, reading, value_cases, cases_of};
ghost use Rattle.pol_nogood.specs.Steps.{step_named};
ghost use Rattle.pol_nogood.specs.LogFaults.{covered, is_placed, refer_below, step_fault, ends_empty, log_fault};
ghost use Rattle.pol_nogood.specs.ValidLogs.{IsValidLog, IsFirstFault};

use crate::cases::{
    first_places, is_ascending, is_case_at, is_contained, names, pairs_placed, repeats,
};
use crate::{Log, Nogood, Step};
use pol_relation::{Instance, Language};

/// Why a log is not valid, in the order in which the faults of a step are told.
#[derive(Clone, Copy, Debug, PartialEq, Eq)]
pub enum Why {
    /// What the step rests on or a pair of its nogood does not exist, the variables of the pairs do not
    /// ascend strictly, or a step by a variable names it.
    BadPlace,
    /// A reference is not to an earlier step.
    BadReference,
    /// The nogood of a reference is not contained in that of the step joined with the case.
    NotContained,
    /// There are more or fewer references than cases.
    WrongCount,
    /// Behind all steps: there is none, or the last nogood is not empty.
    NoEmptyEnd,
}

/// The first fault of a log: the number of the step, or of steps where the end is wrong, and why.
#[derive(Clone, Copy, Debug, PartialEq, Eq)]
pub struct LogFault {
    pub step: u32,
    pub why: Why,
}

/// Checks that the log shows that the instance, which is to fit the language, has no solution, whoever made
/// it, and answers its first fault where it does not. Takes no memory. Once for each step by a constraint,
/// the places of its scope are compared with each other, and the first place of the variable of each pair
/// of the step's nogood, of at most three, is sought among them. Then it goes once over the rows of the
/// relation. A row is compared at one place at most for each of these pairs, and at each place only where
/// the scope repeats a variable: there each place costs a search for the first place of its variable. Each
/// pair of the nogood that a case refers to is compared with the pairs of the step's nogood, and only where
/// it is none of these with the row.
pub fn check_log(lang: &Language, inst: &Instance, log: &Log) -> Result<(), LogFault>
    requires fits { Fits lang.now inst.now }
    ensures valid { IsOk result ↔ IsValidLog lang.now inst.now log.now }
    ensures refuted { OnOk result (HasNoSolution lang.now inst.now) }
    ensures first { IfErr result (λ fault. IsFirstFault lang.now inst.now log.now fault) }
    ensures first_fault { result_err result ≡ log_fault lang.now inst.now log.now }
{
    match first_fault(lang, inst, log) {
        None => Ok(()),
        Some(fault) => Err(fault),
    }
}

/// The first fault of the log: of a step, or else of its end.
fn first_fault(lang: &Language, inst: &Instance, log: &Log) -> Option<LogFault>
    requires fits { Fits lang.now inst.now }
    ensures fault { result ≡ log_fault lang.now inst.now log.now }
{
    for s in 0..log.len() {
        if let Some(why) = step_fault(lang, inst, log, s) {
            return Some(LogFault { step: s, why });
        }
    }
    if ends_empty(log) {
        return None;
    }
    Some(LogFault {
        step: log.len(),
        why: Why::NoEmptyEnd,
    })
}

/// The first fault of the step with the number `s`, behind those before it.
fn step_fault(lang: &Language, inst: &Instance, log: &Log, s: u32) -> Option<Why>
    requires fits { Fits lang.now inst.now }
    requires known { s < length log.now }
    ensures fault { result ≡ step_fault lang.now inst.now (take s log.now) (step_at log.now s) }
{
    let step = log.step(s);
    let references = step.references();
    if !is_placed(lang, inst, step) {
        return Some(Why::BadPlace);
    }
    if !are_earlier(references, s) {
        return Some(Why::BadReference);
    }
    match covered_cases(lang, inst, log, step) {
        None => Some(Why::NotContained),
        Some(cases) if cases as usize != references.len() => Some(Why::WrongCount),
        Some(_) => None,
    }
}

/// Whether the step rests on what exists, and its nogood has ascending pairs that exist.
fn is_placed(lang: &Language, inst: &Instance, step: &Step) -> bool
    ensures placed { result ≡ is_placed lang.now inst.now (step_named step.now) }
{
    let nogood = step.nogood();
    let can_rest = match step {
        Step::ByConstraint { c, .. } => *c < inst.constraints(),
        Step::ByVariable { v, .. } => *v < inst.variables() && !names(nogood, *v),
    };
    can_rest && pairs_placed(nogood, inst.variables(), lang.domain().size()) && is_ascending(nogood)
}

/// Whether each reference is to one of the first `s` steps.
fn are_earlier(references: &[u32], s: u32) -> bool
    ensures earlier { result ≡ refer_below s references.now }
{
    references.iter().all(|reference| *reference < s)
}

/// The number of cases of the step, where each reference is to a nogood that is contained in that of the
/// step joined with the reading of its case.
fn covered_cases(lang: &Language, inst: &Instance, log: &Log, step: &Step) -> Option<u32>
    requires fits { Fits lang.now inst.now }
    requires placed { IsTrue (is_placed lang.now inst.now (step_named step.now)) }
    requires earlier { All (λ r. r < length log.now) (step_named step.now).references }
    ensures covered { let s = step_named step.now in
        is_some result ≡ covered log.now s.nogood (cases_of lang.now inst.now s.basis s.nogood) s.references }
    ensures count { let s = step_named step.now in
        IfSome result (λ cases. cases ≡ length (cases_of lang.now inst.now s.basis s.nogood)) }
{
    match step {
        Step::ByConstraint { c, nogood, refs } => {
            covered_rows(lang, inst, log, *c, nogood, refs.as_slice())
        }
        Step::ByVariable { v, nogood, refs } => {
            covered_values(lang, log, *v, nogood, refs.as_slice())
        }
    }
}

/// The same for a step by the constraint `c`: its cases are rows of the constraint's relation.
fn covered_rows(
    lang: &Language,
    inst: &Instance,
    log: &Log,
    c: u32,
    nogood: &Nogood,
    references: &[u32],
) -> Option<u32>
    requires fits { Fits lang.now inst.now }
    requires known { c < length inst.now.constraints }
    requires earlier { All (λ r. r < length log.now) references.now }
    ensures covered { let cases = cases_of lang.now inst.now (Basis.ByConstraint c) nogood.now in
        is_some result ≡ covered log.now nogood.now cases references.now }
    ensures count { IfSome result
        (λ cases. cases ≡ length (cases_of lang.now inst.now (Basis.ByConstraint c) nogood.now)) }
{
    let relation = lang.relation(inst.relation_of(c));
    let scope = inst.scope(c);
    let may_repeat = repeats(scope);
    let places = first_places(nogood, scope);
    let mut cases = 0;
    for i in 0..relation.len() {
        let row = relation.row(i);
        if is_case_at(scope, may_repeat, nogood, &places, row) {
            if !is_covered(log, references, cases, nogood, scope, row) {
                return None;
            }
            cases += 1;
        }
    }
    Some(cases)
}

/// The same for a step by the variable `v`: each value is a case.
fn covered_values(
    lang: &Language,
    log: &Log,
    v: u32,
    nogood: &Nogood,
    references: &[u32],
) -> Option<u32>
    requires earlier { All (λ r. r < length log.now) references.now }
    ensures covered { is_some result
        ≡ covered log.now nogood.now (value_cases v lang.now.domain) references.now }
    ensures count { IfSome result (λ cases. cases ≡ length (value_cases v lang.now.domain)) }
{
    let size = lang.domain().size();
    for value in 0..size {
        if !is_covered(log, references, u32::from(value), nogood, &[v], &[value]) {
            return None;
        }
    }
    Some(u32::from(size))
}

/// Whether the reference for the case with this number, if there is one, is to a nogood that is contained
/// in `nogood` joined with what the row reads.
fn is_covered(
    log: &Log,
    references: &[u32],
    number: u32,
    nogood: &Nogood,
    scope: &[u32],
    row: &[u8],
) -> bool
    requires earlier { All (λ r. r < length log.now) references.now }
    ensures covered { result
        ≡ covered log.now nogood.now (reading scope.now row.now ∷ []) (drop number references.now) }
{
    match references.get(number as usize) {
        Some(reference) => is_contained(log.step(*reference).nogood(), nogood, scope, row),
        None => true,
    }
}

/// Whether the last step has the empty nogood.
fn ends_empty(log: &Log) -> bool
    ensures ends { result ≡ ends_empty log.now }
{
    !log.is_empty() && log.step(log.len() - 1).nogood().is_empty()
}
