//! The head of an image's file: how many items of each kind follow.

ghost use Rattle.std.specs.Prelude.{◌≡◌, ◌+◌};
ghost use Rattle.sig_file.specs.Fields.{counts_at};
ghost use Rattle.sig_file.specs.Prelude.{nat_le};
ghost use Rattle.sig_file.specs.inner.Reading.{Gives, number_if};

use crate::field::{number_at, text_at};
use crate::limits::{CONDITIONS, MEMORIES, OPERATIONS};
use crate::stop::Stop;
use sig_base::limits::{NODES, SIGNALS};

/// What every image begins with.
pub const MAGIC: [u8; 8] = *b"SIGIMG01";

/// How many items of each kind an image has.
#[derive(Clone, Copy)]
pub struct Counts {
    pub signals: u32,
    pub inputs: u32,
    pub outputs: u32,
    pub conditions: u32,
    pub memories: u32,
    pub nodes: u32,
    pub ops: u32,
}

/// A count that is at most this, and the bytes behind it.
fn count_at(most: u32, bytes: &[u8]) -> Result<(u32, &[u8]), Stop>
    ensures { Gives (λ x. (x.0, x.1.now)) result (number_if (λ n. nat_le n most) bytes.now) }
{
    let (count, rest) = number_at(bytes)?;
    if count > most {
        return Err(Stop::Broken(bytes.len()));
    }
    Ok((count, rest))
}

/// The counts, and the bytes behind them.
#[tactic(auto, unfolding(crate::specs::Fields::counts_at))]
pub fn counts_at(bytes: &[u8]) -> Result<(Counts, &[u8]), Stop>
    ensures { Gives (λ x. (x.0, x.1.now)) result (counts_at bytes.now) }
{
    let (begin, rest) = text_at(8, bytes)?;
    if begin != MAGIC.as_slice() {
        return Err(Stop::Broken(bytes.len()));
    }
    let (signals, rest) = count_at(SIGNALS, rest)?;
    let (inputs, rest) = number_at(rest)?;
    let (outputs, rest) = outputs_at(inputs, signals, rest)?;
    let (conditions, rest) = count_at(CONDITIONS, rest)?;
    let (memories, rest) = count_at(MEMORIES, rest)?;
    let (nodes, rest) = count_at(NODES, rest)?;
    let (ops, rest) = count_at(OPERATIONS, rest)?;
    let counts = Counts {
        signals,
        inputs,
        outputs,
        conditions,
        memories,
        nodes,
        ops,
    };
    Ok((counts, rest))
}

/// The count of outputs, which with the inputs are at most the signals, and the bytes behind it.
fn outputs_at(inputs: u32, signals: u32, bytes: &[u8]) -> Result<(u32, &[u8]), Stop>
    ensures { Gives (λ x. (x.0, x.1.now)) result (number_if (λ n. nat_le (inputs + n) signals) bytes.now) }
{
    let (outputs, rest) = number_at(bytes)?;
    if inputs as u64 + outputs as u64 > signals as u64 {
        return Err(Stop::Broken(bytes.len()));
    }
    Ok((outputs, rest))
}
