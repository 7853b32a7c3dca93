ghost use Rattle.std.specs.Prelude.{◌≡◌, ◌↔◌, ℕ, ◌<◌, ◌≤◌, length, slice_index, IsTrue, IfOk, OnOk, IfSome, IfNone};
ghost use Rattle.pol_base.specs.Tuples.{IsTuple};
ghost use Rattle.pol_optable.specs.Tables.{IsOpTable};
ghost use Rattle.pol_maltsev.specs.Views.{AreClasses, AreMade};
ghost use Rattle.pol_maltsev.specs.Samples.{Restriction, IsKept, IsLatePlace, HasSample, AreSamples, AreMoreSamples, HaveAll, IsSpread, IsMissing, AreClosed, HaveKeptRows, AreKeptBefore, AreLateClasses, SampleRows, listed_at};

use crate::classes::ValueClasses;
use crate::row::Row;
use crate::table::Table;
use pol_base::{Domain, NoMemory};
use pol_optable::OpTable;
use std::alloc::Global;

/// No samples at a place: for each value a row that stands for nothing, and no root.
fn no_samples(alloc: Global, d: Domain, n: u32, p: u32) -> Result<ValueClasses, NoMemory>
    requires place { p < n }
    ensures none { IfOk result (λ samples. AreMade (λ a row root. root ≡ d) d n d samples) }
{
    let mut samples = ValueClasses::new(alloc);
    for a in 0..d.size() {
        samples.push(Row::unit(alloc, n, p, a)?, d.size())?;
    }
    Ok(samples)
}

/// Whether the values have samples, and what the operation makes of them has none.
fn is_missing(op: &OpTable<3>, samples: &ValueClasses, x: u8, y: u8, z: u8) -> bool
    requires samples { length samples.now.roots ≡ op.now.domain }
    requires first { x < op.now.domain }
    requires second { y < op.now.domain }
    requires third { z < op.now.domain }
    ensures missing { IsTrue result ↔ IsMissing op.now samples.now x y z }
{
    let d = op.domain();
    if !samples.has(d, x) || !samples.has(d, y) || !samples.has(d, z) {
        return false;
    }
    !samples.has(d, op.apply(&[x, y, z]))
}

/// The third of three values with samples of which the operation makes one that has none.
fn missing_third(op: &OpTable<3>, samples: &ValueClasses, x: u8, y: u8) -> Option<u8>
    requires samples { length samples.now.roots ≡ op.now.domain }
    requires first { x < op.now.domain }
    requires second { y < op.now.domain }
    ensures missing { IfSome result (IsMissing op.now samples.now x y) }
    ensures none { IfNone result ((z : ℕ) → ¬ IsMissing op.now samples.now x y z) }
{
    for z in 0..op.domain().size() {
        if is_missing(op, samples, x, y, z) {
            return Some(z);
        }
    }
    None
}

/// The second and the third of such values after a first.
fn missing_pair(op: &OpTable<3>, samples: &ValueClasses, x: u8) -> Option<(u8, u8)>
    requires samples { length samples.now.roots ≡ op.now.domain }
    requires first { x < op.now.domain }
    ensures missing { IfSome result (λ m. IsMissing op.now samples.now x m.0 m.1) }
    ensures none { IfNone result ((y z : ℕ) → ¬ IsMissing op.now samples.now x y z) }
{
    for y in 0..op.domain().size() {
        if let Some(z) = missing_third(op, samples, x, y) {
            return Some((y, z));
        }
    }
    None
}

/// Three values with samples of which the operation makes one that has none. None exactly where there are
/// no such values.
fn missing(op: &OpTable<3>, samples: &ValueClasses) -> Option<(u8, u8, u8)>
    requires samples { length samples.now.roots ≡ op.now.domain }
    ensures missing { IfSome result (λ m. IsMissing op.now samples.now m.0 m.1 m.2) }
    ensures none { IfNone result ((x y z : ℕ) → ¬ IsMissing op.now samples.now x y z) }
{
    for x in 0..op.domain().size() {
        if let Some((y, z)) = missing_pair(op, samples, x) {
            return Some((x, y, z));
        }
    }
    None
}

impl Table {
    /// Whether each value that a member of the table has at the place has a sample.
    fn has_all(&self, p: u32, samples: &ValueClasses) -> bool
        requires place { p < self.now.width }
        requires samples { length samples.now.roots ≡ self.now.domain }
        ensures all { IsTrue result ↔ HaveAll self.now p samples.now }
    {
        let d = self.domain();
        for a in 0..d.size() {
            if self.root(p, a) < d.size() && !samples.has(d, a) {
                return false;
            }
        }
        true
    }

    /// Gives each value of one class with the member's own at the place a sample, by a step of the member.
    fn spread(
        &self,
        alloc: Global,
        op: &OpTable<3>,
        p: u32,
        member: &[u8],
        samples: &mut ValueClasses,
    ) -> Result<(), NoMemory>
        requires table { IsOpTable 3 op.now }
        requires domain { self.now.domain ≡ op.now.domain }
        requires place { p < self.now.width }
        requires member { IsTuple self.now.domain self.now.width member.now }
        requires samples { AreClasses self.now.domain self.now.width samples.old }
        ensures spread { OnOk result (IsSpread op.now self.now p member.now samples.old samples.new) }
    {
        let value = member[p as usize];
        for c in 0..self.domain().size() {
            if self.same(p, value, c) {
                let row = self.step(alloc, op, p, member, c)?;
                samples.set(c, row, self.root(p, c));
            }
        }
        Ok(())
    }

    /// Adds a kept member to the samples of the place at position `k`, if its value there has none, and its
    /// steps to the other values of the class.
    fn sample(
        &self,
        alloc: Global,
        op: &OpTable<3>,
        k: u32,
        member: &[u8],
        samples: &mut ValueClasses,
    ) -> Result<(), NoMemory>
        ghost kept: { Restriction }
        requires place { IsLatePlace op.now self.now kept k }
        requires member { IsKept op.now self.now kept member.now }
        requires samples { AreSamples op.now self.now kept k samples.old }
        ensures samples { OnOk result (AreMoreSamples op.now self.now kept k samples.old samples.new) }
        ensures there { OnOk result (HasSample self.now.domain samples.new
            (slice_index member.now (slice_index self.now.order k))) }
    {
        let p = self.place(k);
        if samples.has(self.domain(), member[p as usize]) {
            return Ok(());
        }
        self.spread(alloc, op, p, member, samples)
    }

    /// Adds the kept members that are the rows of another place.
    fn sample_rows(
        &self,
        alloc: Global,
        op: &OpTable<3>,
        k: u32,
        classes: &ValueClasses,
        samples: &mut ValueClasses,
    ) -> Result<(), NoMemory>
        ghost kept: { Restriction }
        requires place { IsLatePlace op.now self.now kept k }
        requires rows { HaveKeptRows op.now self.now kept classes.now }
        requires samples { AreSamples op.now self.now kept k samples.old }
        ensures samples { OnOk result (AreMoreSamples op.now self.now kept k samples.old samples.new) }
        ensures rows { OnOk result (SampleRows self.now k classes.now samples.new) }
    {
        for a in 0..self.domain().size() {
            if classes.has(self.domain(), a) {
                self.sample(alloc, op, k, classes.row(a), samples)?;
            }
        }
        Ok(())
    }

    /// Adds the kept members that are the rows of the places before position `k`.
    fn sample_before(
        &self,
        alloc: Global,
        op: &OpTable<3>,
        k: u32,
        places: &[ValueClasses],
        samples: &mut ValueClasses,
    ) -> Result<(), NoMemory>
        ghost kept: { Restriction }
        requires place { IsLatePlace op.now self.now kept k }
        requires before { AreKeptBefore op.now self.now kept k places.now }
        requires samples { AreSamples op.now self.now kept k samples.old }
        ensures samples { OnOk result (AreMoreSamples op.now self.now kept k samples.old samples.new) }
        ensures rows { OnOk result ((i : ℕ) → i < k
            → SampleRows self.now k (listed_at places.now (slice_index self.now.order i)) samples.new) }
    {
        for i in 0..k {
            if self.has_all(self.place(k), samples) {
                return Ok(());
            }
            let classes = &places[self.place(i) as usize];
            self.sample_rows(alloc, op, k, classes, samples)?;
        }
        Ok(())
    }

    /// Adds what the operation makes of the samples of the place at position `k`, until no value is missing.
    fn close(
        &self,
        alloc: Global,
        op: &OpTable<3>,
        k: u32,
        samples: &mut ValueClasses,
    ) -> Result<(), NoMemory>
        ghost kept: { Restriction }
        requires place { IsLatePlace op.now self.now kept k }
        requires samples { AreSamples op.now self.now kept k samples.old }
        ensures samples { OnOk result (AreMoreSamples op.now self.now kept k samples.old samples.new) }
        ensures closed { OnOk result (AreClosed op.now samples.new) }
    {
        'closing: while !self.has_all(self.place(k), samples) {
            let Some((x, y, z)) = missing(op, samples) else {
                return Ok(());
            };
            let image = Row::image(alloc, op, samples.row(x), samples.row(y), samples.row(z))?;
            self.sample(alloc, op, k, image.as_slice(), samples)?;
        }
        Ok(())
    }

    /// After a restriction: the classes of the place at position `k`, none of the first, by those of the
    /// places before it.
    pub(crate) fn late_classes(
        &self,
        alloc: Global,
        op: &OpTable<3>,
        k: u32,
        places: &[ValueClasses],
    ) -> Result<ValueClasses, NoMemory>
        ghost kept: { Restriction }
        requires place { IsLatePlace op.now self.now kept k }
        requires before { AreKeptBefore op.now self.now kept k places.now }
        ensures late { IfOk result (AreLateClasses op.now self.now kept k places.now) }
    {
        let mut samples = no_samples(alloc, self.domain(), self.width(), self.place(k))?;
        self.sample_before(alloc, op, k, places, &mut samples)?;
        self.close(alloc, op, k, &mut samples)?;
        Ok(samples)
    }
}
