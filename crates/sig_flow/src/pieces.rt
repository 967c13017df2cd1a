//! Writing several pieces, one after another.

ghost use Rattle.std.specs.Prelude.{◌≤◌};
ghost use Rattle.sig_flow.specs.Prelude.{OnOk, OnErr, flat_map, Rose, TookPrefix};

use sig_text::{Sink, WriteFault, put_all};

/// Appends all pieces in their order. Where a write fails, a prefix of them was appended. It takes no
/// memory.
pub fn put_pieces<S: Sink>(sink: &mut S, pieces: &[&[u8]]) -> Result<(), WriteFault>
    ensures all { OnOk result (S.took sink.old (flat_map (λ piece. piece.now) pieces.now) sink.new) }
    ensures prefix { OnErr result (TookPrefix S.took sink.old (flat_map (λ piece. piece.now) pieces.now) sink.new) }
    ensures failed { OnErr result (Rose (S.faults sink.old) (S.faults sink.new)) }
    ensures faults_stay { S.faults sink.old ≤ S.faults sink.new }
{
    for piece in pieces {
        put_all(sink, piece)?;
    }
    Ok(())
}
