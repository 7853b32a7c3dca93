//! Sizes of signatures, counted over the list of all assignments of three variables.
ghost use Rattle.std.specs.Prelude.{◌≡◌, ◌<◌, ◌≤◌, length};
ghost use Rattle.pol_relation.specs.Instances.{Fits};

use pol_base::{NoMemory, cells, digit};
use pol_relation::{Instance, Language};
use std::alloc::Global;

/// Whether there is a size for each number of first constraints, and it is that of the assignments that
/// meet these.
pub(crate) fn are_sizes(
    alloc: Global,
    lang: &Language,
    inst: &Instance,
    sizes: &[u32],
) -> Result<bool, NoMemory>
    requires fits { Fits lang.now inst.now }
    requires three { length inst.now.variables ≡ 3 }
{
    if sizes.len() != inst.constraints() as usize + 1 {
        return Ok(false);
    }
    for j in 0..inst.constraints() + 1 {
        let members = meeting_first(alloc, lang, inst, j)?;
        if sizes[j as usize] != count_triples(lang.domain().size(), &members) {
            return Ok(false);
        }
    }
    Ok(true)
}

/// The assignments that meet the first constraints, so many.
fn meeting_first(
    alloc: Global,
    lang: &Language,
    inst: &Instance,
    count: u32,
) -> Result<Vec<[u8; 3]>, NoMemory>
    requires fits { Fits lang.now inst.now }
    requires three { length inst.now.variables ≡ 3 }
    requires known { count ≤ length inst.now.constraints }
{
    let mut members = Vec::new(alloc);
    let d = lang.domain();
    if let Some(assignments) = cells(d, 3) {
        for cell in 0..assignments {
            let values = [
                digit(d, 3, cell, 0),
                digit(d, 3, cell, 1),
                digit(d, 3, cell, 2),
            ];
            if (0..count).all(|c| inst.meets(lang, c, &values)) {
                members.push(values)?;
            }
        }
    }
    Ok(members)
}

/// How many triples of a place and two values the members show.
fn count_triples(d: u8, members: &[[u8; 3]]) -> u32
    requires small { d ≤ 5 }
{
    let mut count = 0u32;
    for place in 0..3 {
        for a in 0..d {
            for b in 0..d {
                if is_shown(members, place, a, b) {
                    count = count.saturating_add(1);
                }
            }
        }
    }
    count
}

/// Whether two members agree before the place and have the values there.
fn is_shown(members: &[[u8; 3]], place: usize, a: u8, b: u8) -> bool
    requires place { place < 3 }
{
    for one in members {
        if one[place] == a {
            for other in members {
                if other[place] == b && one[..place] == other[..place] {
                    return true;
                }
            }
        }
    }
    false
}
