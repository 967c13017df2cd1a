//! What is known behind the first operations of an image.

ghost use Rattle.std.specs.Prelude.{◌≡◌, ◌<◌, ◌≤◌, ◌+◌, ◌*◌, ◌^◌, ◌↔◌, ◌⊎◌};
ghost use Rattle.sig_verify.specs.Prelude.{IfErr, IfOk, IfSome, IsTrue, OnOk, OutOfMemory, SigId, Some, false, length, true};
ghost use Rattle.sig_verify.specs.inner.Asking.{AreGood, AreOf, AreTold, IsGood, IsGuard, IsScene, asked, choices, guard_at};
ghost use Rattle.sig_verify.specs.inner.Diagrams.{AreDiagrams, Follows, IsOf, IsRefusal};
ghost use Rattle.sig_verify.specs.inner.Pairs.{IsTired};
ghost use Rattle.sig_verify.specs.inner.Known.{IsFree, IsKnown, IsSoundAt, IsTakenIn, IsWant};

use crate::diagrams::Diagrams;
use crate::key::key_of;
use crate::pairs::Work;
use crate::parts::{conditions_of, op_at};
use crate::reads::{reads_written, target};
use crate::walk::{Told, walk};
use crate::written::{Written, keep, written_at};
use sig_base::SigId;
use sig_dd::{DdAnswer, Ref};
use sig_file::Image;
use std::alloc::Global;
use std::collections::BTreeMap;

/// What is known behind the first operations of an image: for which proposals each signal was written, the guards whose
/// walks ask only for conditions that were written, and what was told of the nodes below these.
#[derive(Drop)]
pub(crate) struct Verifier {
    pub(crate) diagrams: Diagrams,
    pub(crate) work: Work,
    pub(crate) written: Written,
    pub(crate) guards: BTreeMap<u32, Ref>,
    pub(crate) told: BTreeMap<u32, Told>,
    alloc: Global,
}

impl Verifier {
    /// Nothing was written yet.
    pub(crate) fn new(alloc: Global, image: &Image) -> Result<Verifier, DdAnswer>
        ensures known { IfOk result (IsKnown image.now 0) }
        ensures memory { IfErr result (λ answer. answer ≡ OutOfMemory) }
    {
        let keyed = key_of(image);
        Ok(Verifier {
            diagrams: Diagrams::new(alloc, conditions_of(image), keyed)?,
            work: Work::new(alloc, keyed),
            written: BTreeMap::new(alloc),
            guards: BTreeMap::new(alloc),
            told: BTreeMap::new(alloc),
            alloc,
        })
    }

    /// The function of a guard, where what is told says that its walk asks only for conditions that were written. It
    /// always does where the guard is one whose walk asks only for these, if all that was told before is exact.
    fn tell(&mut self, image: &Image, n: u32) -> Result<Option<Ref>, DdAnswer>
        requires scene { IsScene self.old.diagrams image.now self.old.written }
        requires told { AreTold false self.old.diagrams image.now (asked self.old.diagrams image.now self.old.written) self.old.told }
        requires n { n < length image.now.nodes + 2 }
        ensures next { Follows (5 * choices (guard_at image.now n)) self.old.diagrams self.new.diagrams }
        ensures work { self.new.work ≡ self.old.work }
        ensures written { self.new.written ≡ self.old.written }
        ensures guards { self.new.guards ≡ self.old.guards }
        ensures told { OnOk result (AreTold false self.new.diagrams image.now (asked self.new.diagrams image.now self.new.written) self.new.told) }
        ensures good { IfOk result (λ found. IfSome found (IsGood self.new.diagrams image.now self.new.written n)) }
        ensures exact { AreTold true self.old.diagrams image.now (asked self.old.diagrams image.now self.old.written) self.old.told
            → IfOk result (IsGuard self.new.diagrams image.now self.new.written n) }
        ensures refused { IfErr result (IsRefusal self.old.diagrams (5 * choices (guard_at image.now n))) }
    {
        let own = walk(&mut self.diagrams, image, &self.written, &mut self.told, n)?;
        if !self.diagrams.is_true(own.written) {
            return Ok(None);
        }
        Ok(Some(own.function))
    }

    /// The function of a guard, or none where its walk asks, for some proposal, for a condition that was not written.
    fn find(&mut self, image: &Image, n: u32) -> Result<Option<Ref>, DdAnswer>
        requires scene { IsScene self.old.diagrams image.now self.old.written }
        requires told { AreTold false self.old.diagrams image.now (asked self.old.diagrams image.now self.old.written) self.old.told }
        requires n { n < length image.now.nodes + 2 }
        ensures next { Follows (10 * choices (guard_at image.now n)) self.old.diagrams self.new.diagrams }
        ensures work { self.new.work ≡ self.old.work }
        ensures written { self.new.written ≡ self.old.written }
        ensures guards { self.new.guards ≡ self.old.guards }
        ensures told { OnOk result (AreTold false self.new.diagrams image.now (asked self.new.diagrams image.now self.new.written) self.new.told) }
        ensures value { IfOk result (IsGuard self.new.diagrams image.now self.new.written n) }
        ensures refused { IfErr result (IsRefusal self.old.diagrams (10 * choices (guard_at image.now n))) }
    {
        let found = self.tell(image, n)?;
        if let Some(function) = found {
            return Ok(Some(function));
        }
        // More may have been written since the nodes were walked. No image of a plan comes here: each of its conditions is
        // written by one operation.
        self.told = BTreeMap::new(self.alloc);
        self.tell(image, n)
    }

    /// The same, where some guards are known.
    fn guard(&mut self, image: &Image, n: u32) -> Result<Option<Ref>, DdAnswer>
        requires scene { IsScene self.old.diagrams image.now self.old.written }
        requires good { AreGood self.old.diagrams image.now self.old.written self.old.guards }
        requires told { AreTold false self.old.diagrams image.now (asked self.old.diagrams image.now self.old.written) self.old.told }
        requires n { n < length image.now.nodes + 2 }
        ensures next { Follows (10 * choices (guard_at image.now n)) self.old.diagrams self.new.diagrams }
        ensures work { self.new.work ≡ self.old.work }
        ensures written { self.new.written ≡ self.old.written }
        ensures good { OnOk result (AreGood self.new.diagrams image.now self.new.written self.new.guards) }
        ensures told { OnOk result (AreTold false self.new.diagrams image.now (asked self.new.diagrams image.now self.new.written) self.new.told) }
        ensures value { IfOk result (IsGuard self.new.diagrams image.now self.new.written n) }
        ensures refused { IfErr result (IsRefusal self.old.diagrams (10 * choices (guard_at image.now n))) }
    {
        if let Some(known) = self.guards.get(&n) {
            return Ok(Some(*known));
        }
        let found = self.find(image, n)?;
        let Some(function) = found else {
            return Ok(None);
        };
        keep(&mut self.guards, n, function)?;
        Ok(Some(function))
    }

    /// Takes in that a signal is written where the guard is true, unless it was written already for one of these
    /// proposals.
    fn write(&mut self, y: SigId, guard: Ref) -> Result<bool, DdAnswer>
        requires right { AreDiagrams self.old.diagrams }
        requires written { AreOf self.old.diagrams self.old.written }
        requires guard { IsOf self.old.diagrams guard }
        ensures next { Follows 1 self.old.diagrams self.new.diagrams }
        ensures guards { self.new.guards ≡ self.old.guards }
        ensures told { self.new.told ≡ self.old.told }
        ensures value { IfOk result (λ yes. IsTrue yes ↔ IsFree self.old.diagrams self.old.written y guard) }
        ensures taken { IfOk result (λ yes. IsTrue yes → IsTakenIn self.old.diagrams self.old.written self.new.diagrams self.new.written (Some y) guard) }
        ensures counted { self.new.work.pairs ≤ self.old.work.pairs + 2 ^ self.old.diagrams.conditions }
        ensures refused { IfErr result (λ answer. IsRefusal self.old.diagrams 1 answer ⊎ IsTired self.old.work (2 ^ self.old.diagrams.conditions) answer) }
    {
        let before = written_at(&self.diagrams, &self.written, y);
        if self.diagrams.overlap(&mut self.work, before, guard)? {
            return Ok(false);
        }
        let now = self.diagrams.either(before, guard)?;
        keep(&mut self.written, y.0, now)?;
        Ok(true)
    }

    /// Takes in what an operation writes, unless it was written already for one of the proposals of its guard.
    fn write_target(&mut self, target: Option<SigId>, guard: Ref) -> Result<bool, DdAnswer>
        requires right { AreDiagrams self.old.diagrams }
        requires written { AreOf self.old.diagrams self.old.written }
        requires guard { IsOf self.old.diagrams guard }
        ensures next { Follows 1 self.old.diagrams self.new.diagrams }
        ensures guards { self.new.guards ≡ self.old.guards }
        ensures told { self.new.told ≡ self.old.told }
        ensures value { IfOk result (λ yes. IsTrue yes ↔ ((y : SigId) → target ≡ Some y → IsFree self.old.diagrams self.old.written y guard)) }
        ensures taken { IfOk result (λ yes. IsTrue yes → IsTakenIn self.old.diagrams self.old.written self.new.diagrams self.new.written target guard) }
        ensures counted { self.new.work.pairs ≤ self.old.work.pairs + 2 ^ self.old.diagrams.conditions }
        ensures refused { IfErr result (λ answer. IsRefusal self.old.diagrams 1 answer ⊎ IsTired self.old.work (2 ^ self.old.diagrams.conditions) answer) }
    {
        match target {
            Some(y) => self.write(y, guard),
            None => Ok(true),
        }
    }

    /// Whether the next operation is sound; where it is, it is taken in.
    pub(crate) fn take(&mut self, image: &Image, n: usize) -> Result<bool, DdAnswer>
        requires known { IsKnown image.now n self.old }
        requires n { n < length image.now.ops }
        ensures value { IfOk result (λ sound. IsTrue sound ↔ IsSoundAt image.now n) }
        ensures known { IfOk result (λ sound. IsTrue sound → IsKnown image.now (n + 1) self.new) }
        ensures want { IfErr result (IsWant image.now) }
    {
        let op = op_at(image, n);
        let found = self.guard(image, op.guard)?;
        let Some(guard) = found else {
            return Ok(false);
        };
        let read = reads_written(
            &self.diagrams,
            &mut self.work,
            &self.written,
            guard,
            &op.kind,
        )?;
        if !read {
            return Ok(false);
        }
        self.write_target(target(&op.kind), guard)
    }
}
