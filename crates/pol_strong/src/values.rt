ghost use Rattle.std.specs.Prelude.{◌≡◌, ◌<◌, ◌++◌, ◌∷◌, [], ℕ, length, All, AllPairs, IfOk, IfSome, IfNone, IsBitSet, ◌↔◌};
ghost use Rattle.pol_relation.specs.Instances.{Fits, IsSolution};
ghost use Rattle.pol_strong.specs.Contradictions.{Avoids, Completes, IsIndifferent, AreOpenNext};
ghost use Rattle.pol_strong.specs.Finished.{IsDecided};

use pol_base::{Domain, NoMemory, Values, full_mask, lowest_value, without};
use pol_nogood::{Log, Nogood};
use pol_relation::{Instance, Language};
use std::alloc::Global;

/// The value with which the next variable behind those with values completes the nogood: the last
/// pair is of that variable, and the others are held.
fn completing_value(nogood: &Nogood, values: &[u8]) -> Option<u8>
    requires ascending { AllPairs (λ p q. p.variable < q.variable) nogood.now }
    ensures completes { IfSome result (Completes nogood.now values.now) }
    ensures value { (d : ℕ) → All (λ p. p.value < d) nogood.now → IfSome result (λ value. value < d) }
    ensures indifferent { IfNone result (IsIndifferent nogood.now values.now) }
{
    if nogood.is_empty() {
        return None;
    }
    let last = nogood.len() - 1;
    let (variable, value) = nogood.pair(last);
    if variable as usize != values.len() {
        return None;
    }
    for i in 0..last {
        let (earlier, held) = nogood.pair(i);
        if values[earlier as usize] != held {
            return None;
        }
    }
    Some(value)
}

/// The mask of the values of the next variable with which no nogood of the log is held.
fn open_values(d: Domain, log: &Log, values: &[u8]) -> u8
    requires ascending { All (λ s. AllPairs (λ p q. p.variable < q.variable) s.nogood) log.now }
    requires below { All (λ s. All (λ p. p.value < 5) s.nogood) log.now }
    requires avoids { Avoids log.now values.now }
    ensures next { AreOpenNext d log.now (length log.now) values.now result }
{
    let mut left = full_mask(d);
    for s in 0..log.len() {
        if let Some(value) = completing_value(log.step(s).nogood(), values) {
            left = without(left, value);
        }
    }
    left
}

/// A solution, from a log to which nothing is left to add: one variable after another takes its
/// least value with which those so far hold no nogood of the log. Goes once over the log for each
/// variable.
pub(crate) fn assignment(
    alloc: Global,
    lang: &Language,
    inst: &Instance,
    log: &Log,
) -> Result<Values, NoMemory>
    requires fits { Fits lang.now inst.now }
    requires decided { IsDecided lang.now inst.now log.now }
    ensures solution { IfOk result (IsSolution lang.now inst.now) }
{
    let d = lang.domain();
    let mut values = Values::new(alloc);
    for _ in 0..inst.variables() {
        let left = open_values(d, log, values.as_slice());
        values.push(lowest_value(left))?;
    }
    Ok(values)
}
