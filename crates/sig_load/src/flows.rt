//! The generated flows.

ghost use Rattle.std.specs.Prelude.{◌≡◌, ◌≤◌, ℕ, IfOk, OnOk};
ghost use Rattle.sig_load.specs.inner.Draws.{draw, state_after};
ghost use Rattle.sig_load.specs.Flows.{flows, integer_value, integers, truth_value, truths, truths_from};
ghost use Rattle.sig_load.specs.inner.Pieces.{Appends, each};

use crate::answer::LoadAnswer;
use crate::draws::Draws;
use crate::pieces::{put, put_name, put_number};
use std::alloc::{AllocError, Global};

/// The number of values of each input.
pub const FLOW_VALUES: u32 = 20_000;

/// Appends a value of an integer.
fn put_integer(text: &mut Vec<u8>, drawn: u64) -> Result<(), AllocError>
    ensures { OnOk result (Appends text.old.items (integer_value drawn) text.new.items) }
{
    put(text, b" ")?;
    put_number(text, drawn % 1000)
}

/// Appends a value of a condition.
fn put_truth(text: &mut Vec<u8>, drawn: u64) -> Result<(), AllocError>
    ensures { OnOk result (Appends text.old.items (truth_value drawn) text.new.items) }
{
    if drawn % 2 == 1 {
        put(text, b" true")
    } else {
        put(text, b" false")
    }
}

/// Appends the values of the integer input.
fn put_integers(text: &mut Vec<u8>, draws: &mut Draws) -> Result<(), AllocError>
    ensures text { OnOk result (Appends text.old.items
        (each (λ k. integer_value (draw draws.old.state k)) FLOW_VALUES) text.new.items) }
    ensures state { OnOk result (draws.new.state ≡ state_after draws.old.state FLOW_VALUES) }
{
    for _ in 0..FLOW_VALUES {
        put_integer(text, draws.draw())?;
    }
    Ok(())
}

/// Appends the values of a condition.
fn put_truths(text: &mut Vec<u8>, draws: &mut Draws) -> Result<(), AllocError>
    ensures text { OnOk result (Appends text.old.items
        (each (λ k. truth_value (draw draws.old.state k)) FLOW_VALUES) text.new.items) }
    ensures state { OnOk result (draws.new.state ≡ state_after draws.old.state FLOW_VALUES) }
{
    for _ in 0..FLOW_VALUES {
        put_truth(text, draws.draw())?;
    }
    Ok(())
}

/// Appends the flow of the integer input.
fn put_integer_flow(text: &mut Vec<u8>, draws: &mut Draws) -> Result<(), AllocError>
    ensures text { OnOk result (Appends text.old.items (integers draws.old.state) text.new.items) }
    ensures state { OnOk result (draws.new.state ≡ state_after draws.old.state FLOW_VALUES) }
{
    put(text, b"A")?;
    put_integers(text, draws)?;
    put(text, b"\n")
}

/// Appends the flow of the condition of this number.
fn put_truth_flow(text: &mut Vec<u8>, draws: &mut Draws, number: u32) -> Result<(), AllocError>
    ensures text { OnOk result (Appends text.old.items (truths_from draws.old.state number) text.new.items) }
    ensures state { OnOk result (draws.new.state ≡ state_after draws.old.state FLOW_VALUES) }
{
    put_name(text, b'B', number)?;
    put_truths(text, draws)?;
    put(text, b"\n")
}

/// Appends the flows of the conditions, where the draws stand behind those of the integer input.
fn put_truth_flows(text: &mut Vec<u8>, draws: &mut Draws, stages: u32) -> Result<(), AllocError>
    ensures { (seed : ℕ) → draws.old.state ≡ state_after seed FLOW_VALUES →
        OnOk result (Appends text.old.items (each (truths seed) stages) text.new.items) }
{
    for before in 0..stages {
        put_truth_flow(text, draws, before + 1)?;
    }
    Ok(())
}

/// The flows of the generated program of so many stages, drawn from this seed: 20,000 values of `A`,
/// and then as many of `B1` and of each further condition. Only memory can be wanting.
pub fn flows_text(alloc: Global, seed: u64, stages: u32) -> Result<Vec<u8>, LoadAnswer>
    requires least { 1 ≤ stages }
    requires most { stages ≤ 12 }
    ensures { IfOk result (λ text. text.items ≡ flows seed stages) }
{
    let mut text = Vec::new(alloc);
    let mut draws = Draws { state: seed };
    put_integer_flow(&mut text, &mut draws)?;
    put_truth_flows(&mut text, &mut draws, stages)?;
    Ok(text)
}
