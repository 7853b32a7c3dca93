ghost use Rattle.std.specs.Prelude.{◌≡◌, ◌≢◌, ℕ, ◌<◌, ◌≤◌, length, All, IfOk, OnOk, IsTrue};
ghost use Rattle.pol_relation.specs.Instances.{Fits, constraint_of};
ghost use Rattle.pol_arc.specs.Arcs.{IsSupportedAt, SupportsAll, IsSettled};
ghost use Rattle.pol_arc.specs.Pruned.{IsPruned, IsWithout, Prunes};
ghost use Rattle.pol_arc.specs.Waiting.{IsDone, DoneAreSupported, KeepsDone, IsTouched};

use crate::supports::{is_supported, one_pair, references};
use pol_base::{Domain, NoMemory, full_mask, has_value, without};
use pol_nogood::{Log, Step};
use pol_relation::{Instance, Language};
use std::alloc::Global;

/// The values that are left to each variable, the log of the deleted ones, and which constraints wait to
/// be looked at, since a variable of theirs lost a value.
#[derive(Drop)]
pub(crate) struct Pruning {
    pub(crate) masks: Vec<u8>,
    pub(crate) log: Log,
    waits: Vec<bool>,
}

impl Pruning {
    /// All values are left, and all constraints wait.
    pub(crate) fn new(alloc: Global, lang: &Language, inst: &Instance) -> Result<Pruning, NoMemory>
        ensures pruned { IfOk result (λ p. IsPruned lang.now inst.now p.masks.items p.log) }
        ensures long { IfOk result (λ p. length p.waits.items ≡ length inst.now.constraints) }
        ensures waiting { IfOk result (λ p. DoneAreSupported lang.now inst.now p.masks.items p.waits.items) }
    {
        let d = lang.domain();
        Ok(Pruning {
            masks: vec![in alloc; full_mask(d); inst.variables() as usize]?,
            log: Log::new(alloc),
            waits: vec![in alloc; true; inst.constraints() as usize]?,
        })
    }

    /// The value is left no longer.
    fn drop_value(&mut self, d: Domain, x: u32, a: u8)
        requires variable { x < length self.old.masks.items }
        requires value { a < d }
        ensures without { IsWithout d self.old.masks.items x a self.new.masks.items }
        ensures log { self.new.log ≡ self.old.log }
        ensures waits { self.new.waits.items ≡ self.old.waits.items }
    {
        // for its clause that a domain has at most 5 values
        let _size = d.size();
        self.masks[x as usize] = without(self.masks[x as usize], a);
    }

    /// The constraints that have the variable in their scope wait.
    fn touch(&mut self, inst: &Instance, x: u32)
        requires long { length self.old.waits.items ≡ length inst.now.constraints }
        ensures touched { IsTouched inst.now x self.old.waits.items self.new.waits.items }
        ensures log { self.new.log ≡ self.old.log }
        ensures masks { self.new.masks.items ≡ self.old.masks.items }
    {
        for c in 0..inst.constraints() {
            if inst.scope(c).contains(&x) {
                self.waits[c as usize] = true;
            }
        }
    }

    /// Deletes the value at place `j` of the constraint, unless it is supported.
    fn revise(
        &mut self,
        alloc: Global,
        lang: &Language,
        inst: &Instance,
        c: u32,
        j: usize,
        a: u8,
    ) -> Result<(), NoMemory>
        requires fits { Fits lang.now inst.now }
        requires few { length inst.now.variables ≤ 40 }
        requires known { c < length inst.now.constraints }
        requires place { j < length (constraint_of inst.now c).scope }
        requires value { a < lang.now.domain }
        requires pruned { IsPruned lang.now inst.now self.old.masks.items self.old.log }
        requires long { length self.old.waits.items ≡ length inst.now.constraints }
        ensures prunes { OnOk result (Prunes lang.now inst.now
            (λ m. IsSupportedAt lang.now inst.now m c j a)
            self.old.masks.items self.old.log self.new.masks.items self.new.log) }
        ensures done { OnOk result (KeepsDone lang.now inst.now
            self.old.masks.items self.old.waits.items self.new.masks.items self.new.waits.items) }
        ensures again { OnOk result (IsDone self.new.waits.items c → length self.new.log ≤ length self.old.log) }
    {
        let d = lang.domain();
        let x = inst.scope(c)[j];
        if !has_value(self.masks[x as usize], a) {
            return Ok(());
        }
        if is_supported(lang, inst, self.masks.as_slice(), c, j, a) {
            return Ok(());
        }
        let refs = references(alloc, lang, inst, self.masks.as_slice(), &self.log, c, x, a)?;
        self.log.push(Step::ByConstraint {
            c,
            nogood: one_pair(x, a),
            refs,
        })?;
        self.drop_value(d, x, a);
        self.touch(inst, x);
        Ok(())
    }

    /// The same for each value at place `j` of the constraint.
    fn revise_place(
        &mut self,
        alloc: Global,
        lang: &Language,
        inst: &Instance,
        c: u32,
        j: usize,
    ) -> Result<(), NoMemory>
        requires fits { Fits lang.now inst.now }
        requires few { length inst.now.variables ≤ 40 }
        requires known { c < length inst.now.constraints }
        requires place { j < length (constraint_of inst.now c).scope }
        requires pruned { IsPruned lang.now inst.now self.old.masks.items self.old.log }
        requires long { length self.old.waits.items ≡ length inst.now.constraints }
        ensures prunes { OnOk result (Prunes lang.now inst.now
            (λ m. (a : ℕ) → a < lang.now.domain → IsSupportedAt lang.now inst.now m c j a)
            self.old.masks.items self.old.log self.new.masks.items self.new.log) }
        ensures done { OnOk result (KeepsDone lang.now inst.now
            self.old.masks.items self.old.waits.items self.new.masks.items self.new.waits.items) }
        ensures again { OnOk result (IsDone self.new.waits.items c → length self.new.log ≤ length self.old.log) }
    {
        for a in 0..lang.domain().size() {
            self.revise(alloc, lang, inst, c, j, a)?;
        }
        Ok(())
    }

    /// The same for each place of the constraint.
    fn revise_constraint(
        &mut self,
        alloc: Global,
        lang: &Language,
        inst: &Instance,
        c: u32,
    ) -> Result<(), NoMemory>
        requires fits { Fits lang.now inst.now }
        requires few { length inst.now.variables ≤ 40 }
        requires known { c < length inst.now.constraints }
        requires pruned { IsPruned lang.now inst.now self.old.masks.items self.old.log }
        requires long { length self.old.waits.items ≡ length inst.now.constraints }
        ensures prunes { OnOk result (Prunes lang.now inst.now
            (λ m. SupportsAll lang.now inst.now m c)
            self.old.masks.items self.old.log self.new.masks.items self.new.log) }
        ensures done { OnOk result (KeepsDone lang.now inst.now
            self.old.masks.items self.old.waits.items self.new.masks.items self.new.waits.items) }
        ensures again { OnOk result (IsDone self.new.waits.items c → length self.new.log ≤ length self.old.log) }
    {
        for j in 0..inst.scope(c).len() {
            self.revise_place(alloc, lang, inst, c, j)?;
        }
        Ok(())
    }

    /// Looks at the constraint if it waits, and then it waits no longer, unless a value was deleted.
    fn visit(
        &mut self,
        alloc: Global,
        lang: &Language,
        inst: &Instance,
        c: u32,
    ) -> Result<(), NoMemory>
        requires fits { Fits lang.now inst.now }
        requires few { length inst.now.variables ≤ 40 }
        requires known { c < length inst.now.constraints }
        requires pruned { IsPruned lang.now inst.now self.old.masks.items self.old.log }
        requires long { length self.old.waits.items ≡ length inst.now.constraints }
        requires waiting { DoneAreSupported lang.now inst.now self.old.masks.items self.old.waits.items }
        ensures prunes { OnOk result (Prunes lang.now inst.now
            (λ m. SupportsAll lang.now inst.now m c)
            self.old.masks.items self.old.log self.new.masks.items self.new.log) }
        ensures long { OnOk result (length self.new.waits.items ≡ length inst.now.constraints) }
        ensures waiting { OnOk result (DoneAreSupported lang.now inst.now self.new.masks.items self.new.waits.items) }
    {
        if !self.waits[c as usize] {
            return Ok(());
        }
        self.waits[c as usize] = false;
        self.revise_constraint(alloc, lang, inst, c)
    }

    /// Whether some variable has no value left.
    fn is_wiped(&self) -> bool
        ensures wiped { IsTrue result → ¬ All (λ m. m ≢ 0) self.now.masks.items }
    {
        self.masks.contains(&0)
    }

    /// Looks at each constraint that waits, in their order, until some variable has no value left.
    fn visit_all(&mut self, alloc: Global, lang: &Language, inst: &Instance) -> Result<(), NoMemory>
        requires fits { Fits lang.now inst.now }
        requires few { length inst.now.variables ≤ 40 }
        requires pruned { IsPruned lang.now inst.now self.old.masks.items self.old.log }
        requires long { length self.old.waits.items ≡ length inst.now.constraints }
        requires waiting { DoneAreSupported lang.now inst.now self.old.masks.items self.old.waits.items }
        ensures prunes { OnOk result (Prunes lang.now inst.now
            (λ m. IsSettled lang.now inst.now m)
            self.old.masks.items self.old.log self.new.masks.items self.new.log) }
        ensures long { OnOk result (length self.new.waits.items ≡ length inst.now.constraints) }
        ensures waiting { OnOk result (DoneAreSupported lang.now inst.now self.new.masks.items self.new.waits.items) }
    {
        for c in 0..inst.constraints() {
            self.visit(alloc, lang, inst, c)?;
            if self.is_wiped() {
                return Ok(());
            }
        }
        Ok(())
    }

    /// Looks at the constraints that wait, until none waits or some variable has no value left.
    pub(crate) fn settle(
        &mut self,
        alloc: Global,
        lang: &Language,
        inst: &Instance,
    ) -> Result<(), NoMemory>
        requires fits { Fits lang.now inst.now }
        requires few { length inst.now.variables ≤ 40 }
        requires pruned { IsPruned lang.now inst.now self.old.masks.items self.old.log }
        requires long { length self.old.waits.items ≡ length inst.now.constraints }
        requires waiting { DoneAreSupported lang.now inst.now self.old.masks.items self.old.waits.items }
        ensures pruned { OnOk result (IsPruned lang.now inst.now self.new.masks.items self.new.log) }
        ensures settled { OnOk result (IsSettled lang.now inst.now self.new.masks.items) }
    {
        loop {
            let before = self.log.len();
            self.visit_all(alloc, lang, inst)?;
            if self.log.len() == before || self.is_wiped() {
                return Ok(());
            }
        }
    }
}
