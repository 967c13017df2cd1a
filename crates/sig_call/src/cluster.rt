//! The clusters of copied signals.

ghost use Rattle.std.specs.Prelude.{◌≡◌, ◌↔◌, ◌≤◌};
ghost use Rattle.sig_call.specs.Prelude.{IsTrue, AllByRecursion, model_of, pragmas_of_model, cluster_of, is_named, number_of, IsLow};

use sig_tree::{Name, Process};

/// The number that a label writes.
fn number_of(label: &[u8]) -> u32
    requires { number_of label.now ≤ 63 }
    ensures { result ≡ number_of label.now }
{
    let mut number = 0;
    for digit in label {
        number = number * 10 + u32::from(digit.saturating_sub(b'0'));
    }
    number
}

/// Whether a name is among some.
fn is_named(text: &[u8], names: &[Name]) -> bool
    ensures { result ≡ is_named text.now names.now }
{
    for name in names {
        if name.text.as_bytes() == text {
            return true;
        }
    }
    false
}

/// The cluster of a signal by the pragmas of its process, or else the one given.
pub fn cluster_of(process: &Process, text: &[u8], other: u32) -> u32
    requires { AllByRecursion IsLow (pragmas_of_model (model_of process.now)) }
    ensures { result ≡ cluster_of other (pragmas_of_model (model_of process.now)) text.now }
{
    for pragma in &process.run_on {
        if is_named(text, &pragma.names) {
            return number_of(pragma.label.as_bytes());
        }
    }
    other
}
