//! What equations define.

ghost use Rattle.std.specs.Prelude.{◌≡◌};
ghost use Rattle.sig_values.specs.Prelude.{defined_by, target_of};

use sig_base::{EqId, SigId};
use sig_kernel::{Form, Kernel};

/// The signal that an equation defines, where there is one.
pub fn defined_by(kernel: &Kernel, e: EqId) -> Option<SigId>
    ensures { result ≡ defined_by kernel.now e }
{
    match kernel.equations.as_slice().get(e.0 as usize) {
        Some(equation) => target_of(&equation.form),
        None => None,
    }
}

/// The signal that a form defines.
fn target_of(form: &Form) -> Option<SigId>
    ensures { result ≡ target_of form.now }
{
    match form {
        Form::Fun(y, _, _)
        | Form::Delay(y, _, _)
        | Form::When(y, _, _)
        | Form::WhenConst(y, _, _)
        | Form::Default(y, _, _)
        | Form::Event(y, _) => Some(*y),
        Form::Sync(_, _) => None,
    }
}
