ghost use Rattle.std.specs.Prelude.{◌≡◌};
ghost use Rattle.pol_modp.specs.Parts.{part_named};
ghost use Rattle.pol_nogood.specs.Steps.{step_named};
ghost use Rattle.pol_report.specs.Tokens.{one};
ghost use Rattle.pol_report.specs.Certificates.{as_basis, step_from, part_from, sizes_from};
ghost use Rattle.pol_report.specs.Reading.{Took, Takes, itself, basis_named};

use crate::limits::{MOST_COEFFICIENTS, MOST_SIZES};
use crate::opening::RestsOn;
use crate::taking::{
    is_done, some_numbers, some_values, take, take_keyword, take_nogood, take_number,
    take_references, take_value,
};
use pol_base::Numbers;
use pol_modp::Part;
use pol_nogood::Step;
use pol_text::{Line, LineFail, Tokens, Word};
use std::alloc::Global;

/// `c` or `v`.
#[tactic(auto, unfolding(crate::specs::Certificates::as_basis))]
fn take_basis(tokens: &mut Tokens<'_>) -> Result<RestsOn, LineFail>
    ensures took { Took basis_named result tokens.new (one as_basis tokens.old) }
{
    let token = take(tokens)?;
    if token == b"c".as_slice() {
        return Ok(RestsOn::Constraint);
    }
    if token == b"v".as_slice() {
        return Ok(RestsOn::Variable);
    }
    Err(LineFail::Refused(Word::BadLine))
}

/// `c C` or `v V`, the pairs behind their number, and the references behind their number.
#[tactic(auto, unfolding(crate::specs::Certificates::step_from))]
pub(crate) fn step_line(alloc: Global, line: &Line<'_>) -> Result<Step, LineFail>
    ensures step { Takes step_named result (step_from line.now.tokens) }
{
    let mut tokens = line.tokens();
    let basis = take_basis(&mut tokens)?;
    let number = take_number(&mut tokens)?;
    let nogood = take_nogood(&mut tokens)?;
    let refs = take_references(alloc, &mut tokens)?;
    if !is_done(tokens) {
        return Err(LineFail::Refused(Word::BadLine));
    }
    Ok(match basis {
        RestsOn::Constraint => Step::ByConstraint {
            c: number,
            nogood,
            refs,
        },
        RestsOn::Variable => Step::ByVariable {
            v: number,
            nogood,
            refs,
        },
    })
}

/// `part C M B A1 .. An`.
#[tactic(auto, unfolding(crate::specs::Certificates::part_from))]
pub(crate) fn part_line(alloc: Global, line: &Line<'_>) -> Result<Part, LineFail>
    ensures part { Takes part_named result (part_from line.now.tokens) }
{
    let mut tokens = line.tokens();
    let _keyword = take_keyword(&mut tokens, b"part")?;
    let c = take_number(&mut tokens)?;
    let multiplier = take_value(&mut tokens)?;
    let right = take_value(&mut tokens)?;
    let coefs = some_values(alloc, tokens, MOST_COEFFICIENTS)?;
    Ok(Part {
        c,
        multiplier,
        right,
        coefs,
    })
}

/// `sizes N1 .. Nk`.
#[tactic(auto, unfolding(crate::specs::Certificates::sizes_from))]
pub(crate) fn sizes_line(alloc: Global, line: &Line<'_>) -> Result<Numbers, LineFail>
    ensures sizes { Takes itself result (sizes_from line.now.tokens) }
{
    let mut tokens = line.tokens();
    let _keyword = take_keyword(&mut tokens, b"sizes")?;
    some_numbers(alloc, tokens, MOST_SIZES)
}
