//! What is left of the reactions in which a signal is present, or has a truth, where variables are
//! forgotten.

ghost use Rattle.std.specs.Prelude.{◌≡◌, ◌+◌};
ghost use Rattle.sig_solve.specs.Prelude.{true, false, Some, IfOk, IsSignal, is_present, status_at, IsStore, Keeps, Share, refusal};
ghost use Rattle.sig_solve.specs.inner.Asked.{IsAskedIn, IsImage, variables_of};

use crate::asked::Asked;
use sig_dd::{DdAnswer, Ref, Store};

impl Asked<'_> {
    /// The reactions in which a signal is present, with variables forgotten.
    pub(crate) fn where_present(
        &self,
        store: &mut Store,
        signal: u32,
        forgotten: &[bool],
    ) -> Result<Ref, DdAnswer>
        requires asked { IsAskedIn store.old self.now }
        requires signal { IsSignal self.now.frame.kernel.now signal }
        ensures store { IsStore store.new }
        ensures kept { Keeps store.old store.new }
        ensures value { IfOk result (IsImage store.new.nodes self.now forgotten.now
            (λ reaction. is_present reaction signal ≡ true)) }
        ensures share { Share (self.now.system.variables + 1) (variables_of self.now.system)
            store.old store.new (refusal result) }
    {
        let present = self.presence(signal);
        self.image(store, present, forgotten)
    }

    /// The reactions in which a signal is present and true, with variables forgotten.
    pub(crate) fn where_true(
        &self,
        store: &mut Store,
        signal: u32,
        forgotten: &[bool],
    ) -> Result<Ref, DdAnswer>
        requires asked { IsAskedIn store.old self.now }
        requires signal { IsSignal self.now.frame.kernel.now signal }
        ensures store { IsStore store.new }
        ensures kept { Keeps store.old store.new }
        ensures value { IfOk result (IsImage store.new.nodes self.now forgotten.now
            (λ reaction. status_at reaction signal ≡ Some true)) }
        ensures share { Share (self.now.system.variables + 2) (variables_of self.now.system)
            store.old store.new (refusal result) }
    {
        let holds = store.conj(self.presence(signal), self.truth(signal))?;
        self.image(store, holds, forgotten)
    }

    /// The reactions in which a signal is present and false, with variables forgotten.
    pub(crate) fn where_false(
        &self,
        store: &mut Store,
        signal: u32,
        forgotten: &[bool],
    ) -> Result<Ref, DdAnswer>
        requires asked { IsAskedIn store.old self.now }
        requires signal { IsSignal self.now.frame.kernel.now signal }
        ensures store { IsStore store.new }
        ensures kept { Keeps store.old store.new }
        ensures value { IfOk result (IsImage store.new.nodes self.now forgotten.now
            (λ reaction. status_at reaction signal ≡ Some false)) }
        ensures share { Share (self.now.system.variables + 3) (variables_of self.now.system)
            store.old store.new (refusal result) }
    {
        let falsehood = store.negate(self.truth(signal))?;
        let fails = store.conj(self.presence(signal), falsehood)?;
        self.image(store, fails, forgotten)
    }
}
