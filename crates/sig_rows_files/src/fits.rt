//! Whether flows fit an image.

ghost use Rattle.std.specs.Prelude.{◌≡◌, IsTrue, Some, [], slice_get, slice_index_or};
ghost use Rattle.std.specs.List.{AllPass, list_all};
ghost use Rattle.sig_kernel.specs.Validity.{value_is};
ghost use Rattle.sig_exec.specs.Running.{AreFlowsOf};
ghost use Rattle.sig_file.specs.declared.images.ImageSignal.{ImageSignal};

use sig_base::Kind;
use sig_exec::Verified;
use sig_file::ImageSignal;
use sig_kernel::{Flow, Inputs};

/// Whether there is one flow for each input, with values of its kind.
pub(crate) fn fits(image: &Verified, inputs: &Inputs) -> bool
    ensures { IsTrue result → AreFlowsOf image.now inputs.now }
{
    let flows = inputs.as_slice();
    let signals = signals_of(image);
    if flows.len() != inputs_of(image) {
        return false;
    }
    for k in 0..flows.len() {
        if !fits_at(signals, flows, k) {
            return false;
        }
    }
    true
}

fn inputs_of(image: &Verified) -> usize
    ensures { result ≡ image.now.inputs }
{
    image.image.inputs as usize
}

fn signals_of(image: &Verified) -> &[ImageSignal]
    ensures { result.now ≡ image.now.signals }
{
    image.image.signals.as_slice()
}

/// Whether the flow of a number has values of the kind of its signal.
fn fits_at(signals: &[ImageSignal], flows: &[Flow], k: usize) -> bool
    ensures { IsTrue result → (input : ImageSignal) → slice_get signals.now k ≡ Some input
        → AllPass (value_is input.kind) (slice_index_or flows.now k []) }
{
    if k >= signals.len() || k >= flows.len() {
        return false;
    }
    has_values_of(signals[k].kind, flows[k].as_slice())
}

fn has_values_of(kind: Kind, values: &[i64]) -> bool
    ensures { result ≡ list_all (value_is kind) values.now }
{
    values.iter().all(|value| is_value(kind, *value))
}

fn is_value(kind: Kind, value: i64) -> bool
    ensures { result ≡ value_is kind value }
{
    match kind {
        Kind::Integer => true,
        Kind::Boolean => value == 0 || value == 1,
        Kind::Event => value == 1,
    }
}
