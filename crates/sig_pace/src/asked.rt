//! A kernel with its system and its solutions.

ghost use Rattle.std.specs.Prelude.{◌≡◌, ◌<◌};
ghost use Rattle.sig_pace.specs.Prelude.{length, IfOk, IsStore, Keeps, Share, refusal, IsSystem};
ghost use Rattle.sig_pace.specs.inner.Asked.{IsAskedIn, presence_in, variables_of};

use sig_dd::{DdAnswer, Ref, Store};
use sig_kernel::Kernel;
use sig_rel::System;

/// A kernel with its system, and the truths that are its reactions that are not silent: those that
/// meet the residue, where some signal is present.
#[derive(Drop)]
pub(crate) struct Asked<'a> {
    pub(crate) kernel: &'a Kernel,
    pub(crate) system: System,
    pub(crate) solutions: Ref,
}

/// A kernel with its system and its solutions.
pub(crate) fn asked_of<'a>(
    kernel: &'a Kernel,
    system: System,
    store: &mut Store,
) -> Result<Asked<'a>, DdAnswer>
    requires was_store { IsStore store.old }
    requires system { IsSystem kernel.now store.old.nodes system }
    ensures store { IsStore store.new }
    ensures kept { Keeps store.old store.new }
    ensures asked { IfOk result (λ asked. (asked.kernel.now ≡ kernel.now) × (asked.system ≡ system)
        × IsAskedIn store.new asked) }
    ensures share { Share 1 (variables_of system) store.old store.new (refusal result) }
{
    let solutions = store.conj(system.residue, system.speaks)?;
    Ok(Asked {
        kernel,
        system,
        solutions,
    })
}

impl Asked<'_> {
    /// Where a signal is present.
    pub(crate) fn presence(&self, signal: u32) -> Ref
        requires { signal < length self.now.system.present }
        ensures { result ≡ presence_in self.now.system signal }
    {
        let present = self.system.present.as_slice();
        present[signal as usize]
    }
}
