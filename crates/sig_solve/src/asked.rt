//! A kernel with its system, and what is left of its solutions where variables are forgotten.

ghost use Rattle.std.specs.Prelude.{◌≡◌, ◌+◌, ◌<◌};
ghost use Rattle.sig_solve.specs.Prelude.{length, IfOk, IsStore, Keeps, test, IsProduct, Share, refusal, IsValid, AreConditions, IsOver, IsSystem};
ghost use Rattle.sig_solve.specs.inner.Asked.{IsAskedIn, presence_in, truth_at, variables_of};
ghost use Rattle.sig_solve.specs.Frames.{IsFrame};

use crate::frame::Frame;
use sig_dd::{DdAnswer, Ref, Store};
use sig_rel::System;

/// A kernel's frame with its system, and the truths that are its reactions that are not silent: those
/// that meet the residue, where some signal is present.
#[derive(Drop)]
pub(crate) struct Asked<'a> {
    pub(crate) frame: Frame<'a>,
    pub(crate) system: System,
    pub(crate) solutions: Ref,
}

/// A kernel's frame with its system and its solutions.
pub(crate) fn asked_of<'a>(
    frame: Frame<'a>,
    system: System,
    store: &mut Store,
) -> Result<Asked<'a>, DdAnswer>
    requires was_store { IsStore store.old }
    requires valid { IsValid frame.kernel.now }
    requires parts { IsFrame frame }
    requires conditions { AreConditions frame.kernel.now system.conditions }
    requires system { IsSystem frame.kernel.now store.old.nodes system }
    ensures store { IsStore store.new }
    ensures kept { Keeps store.old store.new }
    ensures asked { IfOk result (λ asked. (asked.frame ≡ frame.entry) × (asked.system ≡ system)
        × IsAskedIn store.new asked) }
    ensures share { Share 1 (variables_of system) store.old store.new (refusal result) }
{
    let solutions = store.conj(system.residue, system.speaks)?;
    Ok(Asked {
        frame,
        system,
        solutions,
    })
}

impl Asked<'_> {
    /// Where a signal is present.
    pub(crate) fn presence(&self, signal: u32) -> Ref
        requires { signal < length self.now.system.present }
        ensures { result ≡ presence_in self.now.system signal }
    {
        let present = self.system.present.as_slice();
        present[signal as usize]
    }

    /// The truth of a signal, where it is present.
    pub(crate) fn truth(&self, signal: u32) -> Ref
        requires { signal < length self.now.system.truth }
        ensures { result ≡ truth_at self.now.system signal }
    {
        let truth = self.system.truth.as_slice();
        truth[signal as usize]
    }

    /// The solutions that make a function true, with variables forgotten.
    pub(crate) fn image(
        &self,
        store: &mut Store,
        part: Ref,
        forgotten: &[bool],
    ) -> Result<Ref, DdAnswer>
        requires asked { IsAskedIn store.old self.now }
        requires part { IsOver store.old.nodes self.now.system part }
        ensures store { IsStore store.new }
        ensures kept { Keeps store.old store.new }
        ensures value { IfOk result (IsProduct store.new.nodes forgotten.now
            (test store.old.nodes self.now.solutions) (test store.old.nodes part)) }
        ensures over { IfOk result (IsOver store.new.nodes self.now.system) }
        ensures share { Share (self.now.system.variables + 1) (variables_of self.now.system)
            store.old store.new (refusal result) }
    {
        store.meet_without(self.solutions, part, forgotten)
    }
}
