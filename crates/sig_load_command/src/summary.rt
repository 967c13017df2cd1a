//! The summary of a run.

ghost use Rattle.std.specs.Prelude.{◌≤◌};
ghost use Rattle.sig_load_command.specs.Prelude.{OnErr, OnOk, IsTrue, flat_map, Rose, TookPrefix};
ghost use Rattle.sig_load_command.specs.inner.Summaries.{summary_pieces};

use itoa::Buffer;
use sig_outcome::put_pieces;
use sig_text::{Sink, WriteFault};

/// Appends the summary of a run of so many stages and instants, whose text has so many bytes with this sum,
/// and hands it on. It takes no memory.
pub fn put_summary<S: Sink>(
    stages: u32,
    instants: u32,
    bytes: u64,
    sum: u64,
    out: &mut S,
) -> Result<(), WriteFault>
    ensures whole { OnOk result (S.took out.old (flat_map (λ piece. piece) (summary_pieces stages instants bytes sum)) out.new) }
    ensures clean { OnOk result (IsTrue (S.clean out.new)) }
    ensures prefix { TookPrefix S.took out.old (flat_map (λ piece. piece) (summary_pieces stages instants bytes sum)) out.new }
    ensures failed { OnErr result (Rose (S.faults out.old) (S.faults out.new)) }
{
    put_lines(stages, instants, bytes, sum, out)?;
    out.flush()?;
    Ok(())
}

/// Appends the four lines of a summary.
fn put_lines<S: Sink>(
    stages: u32,
    instants: u32,
    bytes: u64,
    sum: u64,
    out: &mut S,
) -> Result<(), WriteFault>
    ensures whole { OnOk result (S.took out.old (flat_map (λ piece. piece) (summary_pieces stages instants bytes sum)) out.new) }
    ensures prefix { OnErr result (TookPrefix S.took out.old (flat_map (λ piece. piece) (summary_pieces stages instants bytes sum)) out.new) }
    ensures failed { OnErr result (Rose (S.faults out.old) (S.faults out.new)) }
    ensures faults_stay { S.faults out.old ≤ S.faults out.new }
{
    let mut stages_buffer = Buffer::new();
    let mut instants_buffer = Buffer::new();
    let mut bytes_buffer = Buffer::new();
    let mut sum_buffer = Buffer::new();
    put_pieces(
        out,
        &[
            b"stages ",
            stages_buffer.format(stages).as_bytes(),
            b"\ninstants ",
            instants_buffer.format(instants).as_bytes(),
            b"\nbytes ",
            bytes_buffer.format(bytes).as_bytes(),
            b"\nsum ",
            sum_buffer.format(sum).as_bytes(),
            b"\n",
        ],
    )
}
