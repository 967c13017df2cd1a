//! The text of an instant.

ghost use Rattle.std.specs.Prelude.{◌≡◌, ◌≤◌, ◌<◌, ◌+◌, ◌^◌};
ghost use Rattle.sig_exec.specs.Prelude.{ℕ, IfOk, OnErr, OnOk, Rose, TookPrefix, instant_lines, length, Some, slice_get, ImageSignal, Signal};
ghost use Rattle.sig_exec.specs.inner.Instants.{AreOutputs, IsOutput};
ghost use Rattle.sig_exec.specs.inner.Machines.{HasCells, registers_of, seen_in};

use crate::images::{images_are_right, inputs_of, outputs_of, signal_at};
use crate::machine::ImageMachine;
use sig_base::{Signal, Span, Text};
use sig_file::{Image, ImageSignal};
use sig_flow::OutputLines;
use sig_text::{Sink, WriteFault};
use sig_values::put_instant;
use std::alloc::{AllocError, Global};

/// The outputs of an image, in their order, as signals of a program, with room for the lines of an instant.
#[derive(Drop)]
pub(crate) struct Outputs {
    pub(crate) signals: Vec<Signal>,
    pub(crate) lines: OutputLines,
}

impl Outputs {
    /// Those of an image. All memory that their text will need is taken here.
    pub(crate) fn new(alloc: Global, image: &Image) -> Result<Outputs, AllocError>
        ensures { IfOk result (AreOutputs image.now) }
    {
        let signals = signals_of(alloc, image)?;
        let lines = OutputLines::new(alloc, signals.as_slice())?;
        Ok(Outputs { signals, lines })
    }

    /// Appends the lines of the outputs that were written, in their order; where a write fails, a prefix of them. The sink is
    /// given them at once. It takes no memory.
    pub(crate) fn put<S: Sink>(
        &mut self,
        machine: &ImageMachine,
        image: &Image,
        sink: &mut S,
    ) -> Result<(), WriteFault>
        requires outputs { AreOutputs image.now self.old }
        requires cells { HasCells image.now machine.now }
        ensures outputs { AreOutputs image.now self.new }
        ensures all { OnOk result (S.took sink.old (instant_lines image.now (registers_of image.now machine.now)) sink.new) }
        ensures prefix { OnErr result (TookPrefix S.took sink.old (instant_lines image.now (registers_of image.now machine.now)) sink.new) }
        ensures failed { OnErr result (Rose (S.faults sink.old) (S.faults sink.new)) }
        ensures faults_stay { S.faults sink.old ≤ S.faults sink.new }
    {
        images_are_right(image);
        let first = inputs_of(image);
        let seen = |place: usize| -> Option<i64>
            requires number { first + place < 2 ^ 32 }
            requires cells { first + place < length machine.now.cells.items }
            requires stamps { first + place < length machine.now.stamps.items }
            ensures { result ≡ seen_in machine.entry.now (first + place) }
        { machine.seen(first + place as u32) };
        put_instant(self.signals.as_slice(), seen, &mut self.lines, sink)
    }
}

/// The outputs of an image as signals.
fn signals_of(alloc: Global, image: &Image) -> Result<Vec<Signal>, AllocError>
    ensures count { IfOk result (λ signals. length signals.items ≡ image.now.outputs) }
    ensures each { IfOk result (λ signals. (place : ℕ) (output : Signal) → slice_get signals.items place ≡ Some output
        → (signal : ImageSignal) → slice_get image.now.signals (image.now.inputs + place) ≡ Some signal → IsOutput signal output) }
{
    images_are_right(image);
    let inputs = inputs_of(image);
    let mut signals = Vec::new(alloc);
    for output in 0..outputs_of(image) {
        signals.push(output_of(alloc, signal_at(image, (inputs + output) as usize))?)?;
    }
    Ok(signals)
}

/// A signal of an image as one of a program.
fn output_of(alloc: Global, signal: &ImageSignal) -> Result<Signal, AllocError>
    ensures { IfOk result (IsOutput signal.now) }
{
    Ok(Signal {
        name: Text::from_bytes(alloc, signal.name.as_bytes())?,
        kind: signal.kind,
        cluster: 0,
        at: Span { line: 1, col: 1 },
    })
}
