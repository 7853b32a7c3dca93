ghost use Rattle.std.specs.Prelude.{◌≡◌, ◌↔◌, length, IsTrue, IfSome, IfNone};
ghost use Rattle.pol_base.specs.Tuples.{IsTuple};
ghost use Rattle.pol_relation.specs.Instances.{Fits, IsSolution};
ghost use Rattle.pol_checker.specs.Verdicts.{IsFirstWithout, MeetsAt, IsSolutionVerdict, IsLogVerdict, IsSumVerdict, IsNoVerdict, IsAnswerVerdict};

use crate::{Cause, Verdict};
use pol_base::Domain;
use pol_lang::File;
use pol_modp::{Combination, check_combination};
use pol_nogood::{Log, check_log};
use pol_relation::{Instance, Language};

/// The verdict on a solution of the instance with the name.
pub(crate) fn check_values_of(file: &File, name: &[u8], values: &[u8]) -> Verdict
    ensures verdict { IsAnswerVerdict (IsSolutionVerdict file.now.language values.now) file.now name.now result }
{
    match file.find_instance(name) {
        None => Verdict::Rejected(Cause::Unknown),
        Some(i) => check_values(file.lang(), file.instance(i), values),
    }
}

/// The verdict on a log for the instance with the name.
pub(crate) fn check_log_of(file: &File, name: &[u8], log: &Log) -> Verdict
    ensures verdict { IsAnswerVerdict (IsLogVerdict file.now.language log.now) file.now name.now result }
{
    match file.find_instance(name) {
        None => Verdict::Rejected(Cause::Unknown),
        Some(i) => check_steps(file.lang(), file.instance(i), log),
    }
}

/// The verdict on a combination for the instance with the name.
pub(crate) fn check_combination_of(file: &File, name: &[u8], combination: &Combination) -> Verdict
    ensures verdict { IsAnswerVerdict (IsSumVerdict file.now.language combination.now) file.now name.now result }
{
    match file.find_instance(name) {
        None => Verdict::Rejected(Cause::Unknown),
        Some(i) => check_parts(file.lang(), file.instance(i), combination),
    }
}

/// The verdict on an answer that has nothing to check.
pub(crate) fn check_named(file: &File, name: &[u8]) -> Verdict
    ensures verdict { IsAnswerVerdict IsNoVerdict file.now name.now result }
{
    match file.find_instance(name) {
        None => Verdict::Rejected(Cause::Unknown),
        Some(_) => Verdict::Unchecked,
    }
}

fn check_steps(lang: &Language, inst: &Instance, log: &Log) -> Verdict
    requires fits { Fits lang.now inst.now }
    ensures verdict { IsLogVerdict lang.now log.now inst.now result }
{
    match check_log(lang, inst, log) {
        Ok(()) => Verdict::Accepted,
        Err(fault) => Verdict::Rejected(Cause::BadLog(fault)),
    }
}

fn check_parts(lang: &Language, inst: &Instance, combination: &Combination) -> Verdict
    requires fits { Fits lang.now inst.now }
    ensures verdict { IsSumVerdict lang.now combination.now inst.now result }
{
    match check_combination(lang, inst, combination) {
        Ok(()) => Verdict::Accepted,
        Err(fault) => Verdict::Rejected(Cause::BadSum(fault)),
    }
}

fn check_values(lang: &Language, inst: &Instance, values: &[u8]) -> Verdict
    requires fits { Fits lang.now inst.now }
    ensures verdict { IsSolutionVerdict lang.now values.now inst.now result }
{
    if !is_assignment(lang.domain(), inst, values) {
        return Verdict::Rejected(Cause::Assignment);
    }
    match first_unmet(lang, inst, values) {
        None => Verdict::Accepted,
        Some(c) => Verdict::Rejected(Cause::Constraint { c }),
    }
}

/// Whether there is a value of the domain for each variable.
fn is_assignment(d: Domain, inst: &Instance, values: &[u8]) -> bool
    ensures assigns { IsTrue result ↔ IsTuple d (length inst.now.variables) values.now }
{
    let size = d.size();
    values.len() == inst.variables() as usize && values.iter().all(|value| *value < size)
}

/// The first constraint that the assignment does not meet.
fn first_unmet(lang: &Language, inst: &Instance, assignment: &[u8]) -> Option<u32>
    requires fits { Fits lang.now inst.now }
    requires assigns { IsTuple lang.now.domain (length inst.now.variables) assignment.now }
    ensures first { IfSome result
        (IsFirstWithout (MeetsAt lang.now inst.now assignment.now) (length inst.now.constraints)) }
    ensures none { IfNone result (IsSolution lang.now inst.now assignment.now) }
{
    for c in 0..inst.constraints() {
        if !inst.meets(lang, c, assignment) {
            return Some(c);
        }
    }
    None
}
