ghost use Rattle.std.specs.Prelude.{◌≡◌, ℕ, List, [], ◌∷◌, ◌<◌, length, slice_set, replicate, IfOk};
ghost use Rattle.pol_base.specs.Tuples.{IsTuple};
ghost use Rattle.pol_optable.specs.Operations.{image};

use pol_base::NoMemory;
use pol_optable::OpTable;
use std::alloc::Global;
use std::marker::Model;

/// A tuple that a table keeps.
#[derive(Debug, Drop)]
pub(crate) struct Row {
    values: Vec<u8>,
}

impl Model for Row {
    ghost Value = { List ℕ };

    ghost view = { λ r. r.values.items };
}

/// Writes what the operation makes of three tuples, place by place.
fn image_into(op: &OpTable<3>, one: &[u8], two: &[u8], three: &[u8], out: &mut [u8])
    requires first { IsTuple op.now.domain (length out.old) one.now }
    requires second { IsTuple op.now.domain (length out.old) two.now }
    requires third { IsTuple op.now.domain (length out.old) three.now }
    ensures image { out.new ≡ image op.now (length out.old) (one.now ∷ two.now ∷ three.now ∷ []) }
{
    for (place, value) in out.iter_mut().enumerate() {
        *value = op.apply(&[one[place], two[place], three[place]]);
    }
}

impl Row {
    pub(crate) fn from_slice(alloc: Global, values: &[u8]) -> Result<Row, NoMemory>
        ensures ok { IfOk result (λ r. r ≡ values.now) }
    {
        Ok(Row {
            values: Vec::from_slice(alloc, values)?,
        })
    }

    /// The value at one place, and 0 at the others.
    pub(crate) fn unit(alloc: Global, n: u32, p: u32, a: u8) -> Result<Row, NoMemory>
        requires place { p < n }
        ensures unit { IfOk result (λ r. r ≡ slice_set (replicate n 0) p a) }
    {
        let mut values = vec![in alloc; 0u8; n as usize]?;
        values[p as usize] = a;
        Ok(Row { values })
    }

    /// What the operation makes of three tuples.
    pub(crate) fn image(
        alloc: Global,
        op: &OpTable<3>,
        one: &[u8],
        two: &[u8],
        three: &[u8],
    ) -> Result<Row, NoMemory>
        requires first { IsTuple op.now.domain (length one.now) one.now }
        requires second { IsTuple op.now.domain (length one.now) two.now }
        requires third { IsTuple op.now.domain (length one.now) three.now }
        ensures image { IfOk result (λ r. r ≡ image op.now (length one.now) (one.now ∷ two.now ∷ three.now ∷ [])) }
    {
        let mut values = vec![in alloc; 0u8; one.len()]?;
        image_into(op, one, two, three, &mut values);
        Ok(Row { values })
    }

    pub(crate) fn as_slice(&self) -> &[u8]
        ensures values { result.now ≡ self.now }
    {
        self.values.as_slice()
    }
}
