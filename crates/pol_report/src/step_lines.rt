ghost use Rattle.std.specs.Prelude.{◌≡◌, ◌++◌, [], ◌∷◌, length, codes, decimal, OnErr, ◌≤◌, OnOk};
ghost use Rattle.pol_outside.specs.Faults.{Rose};
ghost use Rattle.pol_text.specs.Texts.{PutsIn, joined, spaced_texts, printed_line};
ghost use Rattle.pol_nogood.specs.Steps.{step_named};
ghost use Rattle.pol_report.specs.Texts.{step_line, nogood_tokens, pair_tokens, reference_tokens};

use pol_base::Numbers;
use pol_nogood::{Log, Nogood, Step};
use pol_text::{Text, put_numbers, put_spaced};

/// Appends the lines of the steps.
pub(crate) fn put_steps<T: Text>(out: &mut T, log: &Log) -> Result<(), T::Fault>
    ensures puts { PutsIn result (T.bytes out.old) (T.bytes out.new) (joined step_line log.now) }
    ensures place { T.place out.new ≡ T.place out.old }
    ensures sent { T.sent out.old ≤ T.sent out.new }
    ensures calm { OnOk result (T.faults out.new ≡ T.faults out.old) }
    ensures fault { OnErr result (Rose (T.faults out.old) (T.faults out.new)) }
{
    for s in 0..log.len() {
        put_step(out, log.step(s))?;
    }
    Ok(())
}

fn put_step<T: Text>(out: &mut T, step: &Step) -> Result<(), T::Fault>
    ensures puts { PutsIn result (T.bytes out.old) (T.bytes out.new) (step_line (step_named step.now)) }
    ensures place { T.place out.new ≡ T.place out.old }
    ensures sent { T.sent out.old ≤ T.sent out.new }
    ensures calm { OnOk result (T.faults out.new ≡ T.faults out.old) }
    ensures fault { OnErr result (Rose (T.faults out.old) (T.faults out.new)) }
{
    match step {
        Step::ByConstraint { c, nogood, refs } => put_step_parts(out, b"c", *c, nogood, refs),
        Step::ByVariable { v, nogood, refs } => put_step_parts(out, b"v", *v, nogood, refs),
    }
}

fn put_step_parts<T: Text>(
    out: &mut T,
    letter: &[u8],
    number: u32,
    nogood: &Nogood,
    refs: &Numbers,
) -> Result<(), T::Fault>
    ensures puts { PutsIn result (T.bytes out.old) (T.bytes out.new)
        (printed_line
        ((letter.now ∷ decimal number ∷ []) ++ nogood_tokens nogood.now ++ reference_tokens refs.now)) }
    ensures place { T.place out.new ≡ T.place out.old }
    ensures sent { T.sent out.old ≤ T.sent out.new }
    ensures calm { OnOk result (T.faults out.new ≡ T.faults out.old) }
    ensures fault { OnErr result (Rose (T.faults out.old) (T.faults out.new)) }
{
    put_basis(out, letter, number)?;
    put_nogood(out, nogood)?;
    put_references(out, refs.as_slice())?;
    out.append(b"\n")
}

/// Appends what a step rests on: a letter and a number.
fn put_basis<T: Text>(out: &mut T, letter: &[u8], number: u32) -> Result<(), T::Fault>
    ensures puts { PutsIn result (T.bytes out.old) (T.bytes out.new) (letter.now ++ spaced_texts (decimal number ∷ [])) }
    ensures place { T.place out.new ≡ T.place out.old }
    ensures sent { T.sent out.old ≤ T.sent out.new }
    ensures calm { OnOk result (T.faults out.new ≡ T.faults out.old) }
    ensures fault { OnErr result (Rose (T.faults out.old) (T.faults out.new)) }
{
    out.append(letter)?;
    put_spaced(out, u64::from(number))
}

/// Appends the pairs behind their number.
fn put_nogood<T: Text>(out: &mut T, nogood: &Nogood) -> Result<(), T::Fault>
    ensures puts { PutsIn result (T.bytes out.old) (T.bytes out.new) (spaced_texts (nogood_tokens nogood.now)) }
    ensures place { T.place out.new ≡ T.place out.old }
    ensures sent { T.sent out.old ≤ T.sent out.new }
    ensures calm { OnOk result (T.faults out.new ≡ T.faults out.old) }
    ensures fault { OnErr result (Rose (T.faults out.old) (T.faults out.new)) }
{
    put_spaced(out, u64::from(nogood.len()))?;
    put_pairs(out, nogood)
}

fn put_pairs<T: Text>(out: &mut T, nogood: &Nogood) -> Result<(), T::Fault>
    ensures puts { PutsIn result (T.bytes out.old) (T.bytes out.new) (joined (λ p. spaced_texts (pair_tokens p)) nogood.now) }
    ensures place { T.place out.new ≡ T.place out.old }
    ensures sent { T.sent out.old ≤ T.sent out.new }
    ensures calm { OnOk result (T.faults out.new ≡ T.faults out.old) }
    ensures fault { OnErr result (Rose (T.faults out.old) (T.faults out.new)) }
{
    for i in 0..nogood.len() {
        let (variable, value) = nogood.pair(i);
        put_pair(out, variable, value)?;
    }
    Ok(())
}

fn put_pair<T: Text>(out: &mut T, variable: u32, value: u8) -> Result<(), T::Fault>
    ensures puts { PutsIn result (T.bytes out.old) (T.bytes out.new)
        (spaced_texts (pair_tokens (record { variable = variable; value = value }))) }
    ensures place { T.place out.new ≡ T.place out.old }
    ensures sent { T.sent out.old ≤ T.sent out.new }
    ensures calm { OnOk result (T.faults out.new ≡ T.faults out.old) }
    ensures fault { OnErr result (Rose (T.faults out.old) (T.faults out.new)) }
{
    put_spaced(out, u64::from(variable))?;
    put_spaced(out, u64::from(value))
}

/// Appends the references behind their number.
fn put_references<T: Text>(out: &mut T, references: &[u32]) -> Result<(), T::Fault>
    ensures puts { PutsIn result (T.bytes out.old) (T.bytes out.new) (spaced_texts (reference_tokens references.now)) }
    ensures place { T.place out.new ≡ T.place out.old }
    ensures sent { T.sent out.old ≤ T.sent out.new }
    ensures calm { OnOk result (T.faults out.new ≡ T.faults out.old) }
    ensures fault { OnErr result (Rose (T.faults out.old) (T.faults out.new)) }
{
    put_spaced(out, references.len() as u64)?;
    put_numbers(out, references)
}
