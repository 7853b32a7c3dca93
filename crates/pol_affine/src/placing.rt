ghost use Rattle.std.specs.Prelude.{◌≡◌, ℕ, ◌+◌, ◌<◌, ◌≤◌, ◌++◌, map, length, replicate, All, IfOk, OnOk, slice_index_or};
ghost use Rattle.pol_modp.specs.Parts.{part_named};
ghost use Rattle.pol_affine.specs.Systems.{PlacedView, placed_at, placed_in, AreKnown, IsKnown, weights, spread_over, part_with, used_parts};

use crate::Equations;
use pol_base::{Domain, NoMemory, Values};
use pol_modp::{Combination, Equation, Part};
use pol_relation::Instance;
use std::alloc::Global;
use std::marker::Model;

/// An equation on the labels of what is read at the scope of a constraint.
#[derive(Drop)]
pub(crate) struct Placed {
    c: u32,
    equation: Equation,
}

impl Model for Placed {
    ghost Value = { PlacedView };

    ghost view = { λ p. record { constraint = p.c; equation = p.equation } };
}

/// The equations of each constraint's relation, constraint after constraint.
pub(crate) fn placed_equations(
    alloc: Global,
    inst: &Instance,
    tables: &[Equations],
) -> Result<Vec<Placed>, NoMemory>
    requires tables { All (λ c. c.relation < length tables.now) inst.now.constraints }
    ensures placed { IfOk result (λ placed.
        placed.items ≡ placed_in inst.now tables.now (length inst.now.constraints)) }
{
    let mut placed = Vec::new(alloc);
    for c in 0..inst.constraints() {
        place(alloc, c, &tables[inst.relation_of(c) as usize], &mut placed)?;
    }
    Ok(placed)
}

/// Adds the equations, each with the constraint.
fn place(
    alloc: Global,
    c: u32,
    equations: &Equations,
    placed: &mut Vec<Placed>,
) -> Result<(), NoMemory>
    ensures ok { OnOk result (placed.new.items ≡ placed.old.items ++ map (placed_at c) equations.now) }
{
    for i in 0..equations.len() {
        let equation = equations.get(i);
        placed.push(Placed {
            c,
            equation: Equation::new(alloc, equation.coefs(), equation.right())?,
        })?;
    }
    Ok(())
}

/// The same equations over the variables of the instance.
pub(crate) fn spread_equations(
    alloc: Global,
    d: Domain,
    inst: &Instance,
    placed: &[Placed],
) -> Result<Vec<Equation>, NoMemory>
    requires few_variables { length inst.now.variables ≤ 40 }
    requires known { AreKnown d inst.now placed.now }
    ensures equations { IfOk result (λ equations.
        equations.items ≡ map (spread_over d inst.now) placed.now) }
{
    let mut equations = Vec::new(alloc);
    for one in placed {
        equations.push(spread_over(alloc, d, inst, one)?)?;
    }
    Ok(equations)
}

/// The same equation over the variables of the instance.
fn spread_over(
    alloc: Global,
    d: Domain,
    inst: &Instance,
    placed: &Placed,
) -> Result<Equation, NoMemory>
    requires few_variables { length inst.now.variables ≤ 40 }
    requires known { IsKnown d inst.now placed.now }
    ensures equation { IfOk result (λ equation. equation ≡ spread_over d inst.now placed.now) }
{
    let mut row = vec![in alloc; 0u8; inst.variables() as usize]?;
    add_at_scope(d, inst.scope(placed.c), placed.equation.coefs(), &mut row);
    Equation::new(alloc, &row, placed.equation.right())
}

/// Adds each coefficient at the variable of its place, in numbers that are 0.
fn add_at_scope(d: Domain, scope: &[u32], coefs: &[u8], row: &mut [u8])
    requires nothing { row.old ≡ replicate (length row.old) 0 }
    requires scope { All (λ x. x < length row.old) scope.now }
    requires as_many { length coefs.now ≡ length scope.now }
    requires below { All (λ a. a < d) coefs.now }
    ensures weights { row.new ≡ weights d (length row.old) scope.now coefs.now }
{
    let size = d.size();
    for i in 0..coefs.len() {
        let variable = scope[i] as usize;
        row[variable] = (row[variable] + coefs[i]) % size;
    }
}

/// The equations with their multipliers, but those with multiplier 0.
pub(crate) fn combined(
    alloc: Global,
    labels: &[u8],
    placed: &[Placed],
    multipliers: &[u8],
) -> Result<Combination, NoMemory>
    requires few { length placed.now ≤ 4096 }
    requires as_many { length multipliers.now ≡ length placed.now }
    ensures combined { IfOk result (λ c.
        c ≡ record { labels = labels.now; parts = used_parts multipliers.now placed.now }) }
{
    let mut combination = Combination::new(alloc, labels)?;
    for i in 0..placed.len() {
        if multipliers[i] != 0 {
            combination.push(part_with(alloc, multipliers[i], &placed[i])?)?;
        }
    }
    Ok(combination)
}

/// The equation with the multiplier.
fn part_with(alloc: Global, multiplier: u8, placed: &Placed) -> Result<Part, NoMemory>
    ensures part { IfOk result (λ part. part_named part ≡ part_with multiplier placed.now) }
{
    Ok(Part {
        c: placed.c,
        multiplier,
        right: placed.equation.right(),
        coefs: Values::from_slice(alloc, placed.equation.coefs())?,
    })
}
