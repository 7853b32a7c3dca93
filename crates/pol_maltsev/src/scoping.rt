ghost use Rattle.std.specs.Prelude.{◌≡◌, ℕ, ◌≤◌, ◌<◌, ◌↔◌, length, All, Contains, IsTrue, IfOk};
ghost use Rattle.pol_maltsev.specs.Restrictions.{AreFirsts};
ghost use Rattle.pol_maltsev.specs.Scopes.{AreFirstPlaces};
ghost use Rattle.pol_maltsev.specs.Views.{IsReordered, IsSoundTable};

use crate::table::Table;
use pol_base::{NoMemory, Numbers};
use pol_optable::OpTable;
use std::alloc::Global;

/// The places of a scope, each once, and the numbers in the scope at which they stand first.
#[derive(Debug, Drop)]
pub(crate) struct FirstPlaces {
    pub(crate) numbers: Numbers,
    pub(crate) places: Numbers,
}

/// The places of a scope, each once, in the order in which they first stand there.
pub(crate) fn first_places(alloc: Global, scope: &[u32]) -> Result<FirstPlaces, NoMemory>
    requires few { length scope.now ≤ 7 }
    ensures first { IfOk result (λ f. AreFirstPlaces scope.now f.numbers f.places) }
{
    let mut numbers = Numbers::new(alloc);
    let mut places = Numbers::new(alloc);
    for (e, p) in scope.iter().enumerate() {
        if !has(places.as_slice(), *p) {
            numbers.push(e as u32)?;
            places.push(*p)?;
        }
    }
    Ok(FirstPlaces { numbers, places })
}

/// Whether the place is one of these.
fn has(places: &[u32], p: u32) -> bool
    ensures has { IsTrue result ↔ Contains places.now p }
{
    places.contains(&p)
}

impl Table {
    /// Brings the places of a scope to the front of the order, each once, and answers the numbers in the
    /// scope at which they stand first.
    pub(crate) fn scope_to_front(
        &mut self,
        alloc: Global,
        op: &OpTable<3>,
        scope: &[u32],
    ) -> Result<Numbers, NoMemory>
        requires sound { IsSoundTable op.now self.old }
        requires some { 1 ≤ length scope.now }
        requires few { length scope.now ≤ 7 }
        requires scope { All (λ p. p < self.old.width) scope.now }
        ensures reordered { IsReordered op.now 0 self.old self.new }
        ensures firsts { IfOk result (AreFirsts self.new.order scope.now) }
        ensures some { IfOk result (λ first. 1 ≤ length first) }
        ensures few { IfOk result (λ first. length first ≤ self.new.width) }
    {
        let FirstPlaces { numbers, places } = first_places(alloc, scope)?;
        self.to_front(alloc, op, places.as_slice())?;
        Ok(numbers)
    }
}
