//! The initial values of delays.

ghost use Rattle.std.specs.Prelude.{◌≡◌};
ghost use Rattle.sig_values.specs.Prelude.{ℕ, IfOk, IsTrue, length, pos, replicate, AllPass, target_of, form_within, target_within, initial_by, initial_in};
ghost use Rattle.sig_values.specs.Values.{memories_in};

use sig_kernel::{Equation, Form};
use std::alloc::{AllocError, Global};

/// The initial value of the delay that defines each of so many signals, and 0 for the others.
pub fn initial_values(
    alloc: Global,
    equations: &[Equation],
    signals: usize,
) -> Result<Vec<i64>, AllocError>
    requires { AllPass (λ equation. form_within signals equation.form) equations.now }
    ensures length { IfOk result (λ values. length values.items ≡ signals) }
    ensures initial { IfOk result (λ values. memories_in values.items ≡ initial_in equations.now) }
{
    let mut values = zeros(alloc, signals)?;
    for done in 0..equations.len() {
        put_initial(&mut values, &equations[equations.len() - 1 - done].form);
    }
    Ok(values)
}

/// So many zeros.
fn zeros(alloc: Global, count: usize) -> Result<Vec<i64>, AllocError>
    ensures { IfOk result (λ values. values.items ≡ replicate count (pos 0)) }
{
    vec![in alloc; 0; count]
}

/// Puts the initial value of a form that is a delay at the signal that it defines.
fn put_initial(values: &mut Vec<i64>, form: &Form)
    requires { IsTrue (target_within (length values.old.items) (target_of form.now)) }
    ensures length { length values.new.items ≡ length values.old.items }
    ensures initial { (signal : ℕ) → memories_in values.new.items signal ≡ initial_by signal form.now (memories_in values.old.items signal) }
{
    if let Form::Delay(y, _, initial) = form {
        values[y.0 as usize] = *initial;
    }
}
