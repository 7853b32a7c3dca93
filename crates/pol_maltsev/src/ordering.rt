ghost use Rattle.std.specs.Prelude.{◌≡◌, ◌≢◌, ℕ, ◌<◌, ◌≤◌, length, slice_index, All, AllPairs, OnOk};
ghost use Rattle.pol_maltsev.specs.Orders.{AreFirst, InFront};
ghost use Rattle.pol_maltsev.specs.Views.{IsReordered, IsSoundTable};

use crate::table::Table;
use pol_base::NoMemory;
use pol_optable::OpTable;
use std::alloc::Global;

impl Table {
    /// The position of a place in the order.
    fn position(&self, p: u32) -> u32
        requires there { InFront self.now.order self.now.width p }
        ensures position { slice_index self.now.order result ≡ p }
        ensures below { result < self.now.width }
    {
        for k in 0..self.width() {
            if self.place(k) == p {
                return k;
            }
        }
        // not reached: the place has a position
        0
    }

    /// Brings a place to position `to`, where those from there on go one position on.
    fn bring(&mut self, alloc: Global, op: &OpTable<3>, p: u32, to: u32) -> Result<(), NoMemory>
        requires sound { IsSoundTable op.now self.old }
        requires place { p < self.old.width }
        requires later { (i : ℕ) → i < to → slice_index self.old.order i ≢ p }
        ensures reordered { IsReordered op.now to self.old self.new }
        ensures there { OnOk result (slice_index self.new.order to ≡ p) }
    {
        let mut k = self.position(p);
        while to < k {
            self.swap(alloc, op, k - 1)?;
            k -= 1;
        }
        Ok(())
    }

    /// Brings different places to the front of the order, as they are listed.
    pub(crate) fn to_front(
        &mut self,
        alloc: Global,
        op: &OpTable<3>,
        places: &[u32],
    ) -> Result<(), NoMemory>
        requires sound { IsSoundTable op.now self.old }
        requires few { length places.now ≤ self.old.width }
        requires below { All (λ p. p < self.old.width) places.now }
        requires apart { AllPairs (λ p q. p ≢ q) places.now }
        ensures reordered { IsReordered op.now 0 self.old self.new }
        ensures front { OnOk result (AreFirst places.now self.new.order) }
    {
        let _width = self.width();
        for (k, p) in places.iter().enumerate() {
            self.bring(alloc, op, *p, k as u32)?;
        }
        Ok(())
    }
}
