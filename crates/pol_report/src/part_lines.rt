ghost use Rattle.std.specs.Prelude.{◌≡◌, ◌++◌, [], ◌∷◌, codes, decimal, OnErr, ◌≤◌, OnOk};
ghost use Rattle.pol_outside.specs.Faults.{Rose};
ghost use Rattle.pol_text.specs.Texts.{PutsIn, joined, spaced_texts};
ghost use Rattle.pol_modp.specs.Parts.{part_named};
ghost use Rattle.pol_report.specs.Texts.{part_line};

use pol_modp::{Combination, Part};
use pol_text::{Text, put_spaced, put_values};

/// Appends the lines of the parts.
pub(crate) fn put_parts<T: Text>(out: &mut T, combination: &Combination) -> Result<(), T::Fault>
    ensures puts { PutsIn result (T.bytes out.old) (T.bytes out.new) (joined part_line combination.now.parts) }
    ensures place { T.place out.new ≡ T.place out.old }
    ensures sent { T.sent out.old ≤ T.sent out.new }
    ensures calm { OnOk result (T.faults out.new ≡ T.faults out.old) }
    ensures fault { OnErr result (Rose (T.faults out.old) (T.faults out.new)) }
{
    for i in 0..combination.len() {
        put_part(out, combination.part(i))?;
    }
    Ok(())
}

fn put_part<T: Text>(out: &mut T, part: &Part) -> Result<(), T::Fault>
    ensures puts { PutsIn result (T.bytes out.old) (T.bytes out.new) (part_line (part_named part.now)) }
    ensures place { T.place out.new ≡ T.place out.old }
    ensures sent { T.sent out.old ≤ T.sent out.new }
    ensures calm { OnOk result (T.faults out.new ≡ T.faults out.old) }
    ensures fault { OnErr result (Rose (T.faults out.old) (T.faults out.new)) }
{
    put_constraint(out, part.c)?;
    put_sides(out, part.multiplier, part.right)?;
    put_values(out, part.coefs.as_slice())?;
    out.append(b"\n")
}

/// Appends `part` and the number of the constraint.
fn put_constraint<T: Text>(out: &mut T, c: u32) -> Result<(), T::Fault>
    ensures puts { PutsIn result (T.bytes out.old) (T.bytes out.new) (codes "part" ++ spaced_texts (decimal c ∷ [])) }
    ensures place { T.place out.new ≡ T.place out.old }
    ensures sent { T.sent out.old ≤ T.sent out.new }
    ensures calm { OnOk result (T.faults out.new ≡ T.faults out.old) }
    ensures fault { OnErr result (Rose (T.faults out.old) (T.faults out.new)) }
{
    out.append(b"part")?;
    put_spaced(out, u64::from(c))
}

/// Appends the multiplier, and the right side behind it.
fn put_sides<T: Text>(out: &mut T, multiplier: u8, right: u8) -> Result<(), T::Fault>
    ensures puts { PutsIn result (T.bytes out.old) (T.bytes out.new) (spaced_texts (decimal multiplier ∷ decimal right ∷ [])) }
    ensures place { T.place out.new ≡ T.place out.old }
    ensures sent { T.sent out.old ≤ T.sent out.new }
    ensures calm { OnOk result (T.faults out.new ≡ T.faults out.old) }
    ensures fault { OnErr result (Rose (T.faults out.old) (T.faults out.new)) }
{
    put_spaced(out, u64::from(multiplier))?;
    put_spaced(out, u64::from(right))
}
