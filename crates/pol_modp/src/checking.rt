ghost use Rattle.std.specs.Prelude.{◌≡◌, ◌↔◌, length, All, IsOk, OnOk, IfErr, IfNone};
ghost use Rattle.std.specs.Result.{result_err};
ghost use Rattle.pol_relation.specs.Instances.{Fits, HasNoSolution};
ghost use Rattle.pol_modp.specs.Parts.{part_named};
ghost use Rattle.pol_modp.specs.ValidCombinations.{IsPlaced, IsValidCombination, IsFirstFault};
ghost use Rattle.pol_modp.specs.CombinationFaults.{are_below, are_labels, part_placed, part_implied, is_zero_at};
ghost use Rattle.pol_modp.specs.CombinationFaults.{variables_of, first_failing, combination_fault};

use crate::sums::{left_side, sum_at, sum_right};
use crate::{Combination, Part};
use pol_relation::{Instance, Language};

/// Why a combination is not valid, in the order in which the faults are told. Parts and variables go by
/// their numbers, from 0, and all sums are modulo the number of values.
#[derive(Clone, Copy, Debug, PartialEq, Eq)]
pub enum CombFault {
    /// There are more or fewer labels than values, or a label is not below their number.
    BadLabels,
    /// The first part whose constraint does not exist, whose coefficients are not as many as the
    /// relation's places, or one of whose numbers is not below the number of values.
    BadPlace { part: u32 },
    /// The first part whose equation the labels of some row of its constraint's relation do not meet.
    NotImplied { part: u32 },
    /// The first variable whose coefficient in the sum of multiplier times equation is not 0.
    Remainder { variable: u32 },
    /// The right side of that sum is 0.
    ZeroRight,
}

/// Checks that the combination shows that the instance, which is to fit the language, has no solution,
/// whoever made it, and answers its first fault where it does not. The labels of each row of a part's
/// relation are to meet its equation, and the sum of multiplier times equation is to say that 0 is equal to
/// another number. Takes no memory. Goes over the rows of a relation once for each part on a constraint of
/// it, and over all parts once for each variable.
pub fn check_combination(
    lang: &Language,
    inst: &Instance,
    combination: &Combination,
) -> Result<(), CombFault>
    requires fits { Fits lang.now inst.now }
    ensures valid { IsOk result ↔ IsValidCombination lang.now inst.now combination.now }
    ensures refuted { OnOk result (HasNoSolution lang.now inst.now) }
    ensures first { IfErr result (IsFirstFault lang.now inst.now combination.now) }
    ensures first_fault { result_err result ≡ combination_fault lang.now inst.now combination.now }
{
    match first_fault(lang, inst, combination) {
        None => Ok(()),
        Some(fault) => Err(fault),
    }
}

/// The first fault of the combination.
fn first_fault(lang: &Language, inst: &Instance, combination: &Combination) -> Option<CombFault>
    requires fits { Fits lang.now inst.now }
    ensures fault { result ≡ combination_fault lang.now inst.now combination.now }
{
    let d = lang.domain().size();
    if !are_labels(d, combination.labels()) {
        return Some(CombFault::BadLabels);
    }
    if let Some(part) = misplaced(lang, inst, combination) {
        return Some(CombFault::BadPlace { part });
    }
    if let Some(part) = not_implied(lang, inst, combination) {
        return Some(CombFault::NotImplied { part });
    }
    if let Some(variable) = remainder(lang, inst, combination) {
        return Some(CombFault::Remainder { variable });
    }
    if sum_right(d, combination) == 0 {
        return Some(CombFault::ZeroRight);
    }
    None
}

/// Whether there are `d` labels below `d`.
fn are_labels(d: u8, labels: &[u8]) -> bool
    ensures labels { result ≡ are_labels d labels.now }
{
    if labels.len() != usize::from(d) {
        return false;
    }
    are_below(d, labels)
}

/// Whether the numbers are below `d`.
fn are_below(d: u8, numbers: &[u8]) -> bool
    ensures below { result ≡ are_below d numbers.now }
{
    numbers.iter().all(|number| *number < d)
}

/// The first part that is not placed right.
fn misplaced(lang: &Language, inst: &Instance, combination: &Combination) -> Option<u32>
    requires fits { Fits lang.now inst.now }
    ensures first { result ≡ first_failing (part_placed lang.now inst.now) combination.now.parts }
    ensures placed { IfNone result (All (IsPlaced lang.now inst.now) combination.now.parts) }
{
    for i in 0..combination.len() {
        if !is_placed(lang, inst, combination.part(i)) {
            return Some(i);
        }
    }
    None
}

/// Whether the part's constraint exists, with as many coefficients as places, and numbers below the
/// number of values.
fn is_placed(lang: &Language, inst: &Instance, part: &Part) -> bool
    requires fits { Fits lang.now inst.now }
    ensures placed { result ≡ part_placed lang.now inst.now (part_named part.now) }
{
    let d = lang.domain().size();
    if part.c >= inst.constraints() {
        return false;
    }
    let coefs = part.coefs.as_slice();
    if coefs.len() != lang.relation(inst.relation_of(part.c)).arity() as usize {
        return false;
    }
    if part.multiplier >= d {
        return false;
    }
    if part.right >= d {
        return false;
    }
    are_below(d, coefs)
}

/// The first part that some row of its relation does not meet.
fn not_implied(lang: &Language, inst: &Instance, combination: &Combination) -> Option<u32>
    requires fits { Fits lang.now inst.now }
    requires placed { All (IsPlaced lang.now inst.now) combination.now.parts }
    requires labels { length combination.now.labels ≡ lang.now.domain }
    ensures first { result
        ≡ first_failing (part_implied lang.now inst.now combination.now.labels) combination.now.parts }
{
    for i in 0..combination.len() {
        if !is_implied(lang, inst, combination.labels(), combination.part(i)) {
            return Some(i);
        }
    }
    None
}

/// Whether the labels of each row of the relation meet the part.
fn is_implied(lang: &Language, inst: &Instance, labels: &[u8], part: &Part) -> bool
    requires fits { Fits lang.now inst.now }
    requires placed { IsPlaced lang.now inst.now (part_named part.now) }
    requires labels { length labels.now ≡ lang.now.domain }
    ensures implied { result ≡ part_implied lang.now inst.now labels.now (part_named part.now) }
{
    let relation = lang.relation(inst.relation_of(part.c));
    let d = lang.domain().size();
    for i in 0..relation.len() {
        let left = left_side(d, labels, part.coefs.as_slice(), relation.row(i));
        if left != part.right % d {
            return false;
        }
    }
    true
}

/// The first variable at which the sum is not 0.
fn remainder(lang: &Language, inst: &Instance, combination: &Combination) -> Option<u32>
    requires fits { Fits lang.now inst.now }
    requires placed { All (IsPlaced lang.now inst.now) combination.now.parts }
    ensures first { result
        ≡ first_failing (is_zero_at lang.now inst.now combination.now.parts) (variables_of inst.now) }
{
    let d = lang.domain().size();
    for v in 0..inst.variables() {
        if sum_at(d, lang, inst, combination, v) != 0 {
            return Some(v);
        }
    }
    None
}
