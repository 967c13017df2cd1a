//! The variables on which presences depend.

ghost use Rattle.std.specs.Prelude.{◌≡◌, ◌≢◌};
ghost use Rattle.sig_solve.specs.Prelude.{ℕ, Err, IfOk, IsSystem};
ghost use Rattle.sig_solve.specs.inner.Free.{AreNeeds};

use crate::frame::Frame;
use sig_dd::{DdAnswer, Store, VariableList};
use sig_rel::System;

/// To each signal the variables on which its presence depends, of all by one walk over the nodes.
pub(crate) fn needs_of(
    _frame: &Frame,
    system: &System,
    store: &Store,
) -> Result<Vec<VariableList>, DdAnswer>
    requires system { IsSystem _frame.now.kernel.now store.now.nodes system.now }
    ensures value { IfOk result (λ needs. AreNeeds store.now.nodes system.now needs.items) }
    ensures no_budget { (n : ℕ) → result ≢ Err (DdAnswer.Budget n) }
{
    store.supports(system.present.as_slice())
}
