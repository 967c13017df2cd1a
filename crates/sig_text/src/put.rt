//! Writing all of some bytes.

ghost use Rattle.std.specs.Prelude.{◌≤◌, OnOk, OnErr};
ghost use Rattle.sig_text.specs.Counts.{Rose};
ghost use Rattle.sig_text.specs.Sink.{TookPrefix};

use super::sink::{Sink, WriteFault, Wrote};

/// Appends all bytes, by one write after another until none is left. Where a write fails, or takes
/// nothing, a prefix of the bytes was appended. It takes no memory.
pub fn put_all<S: Sink>(sink: &mut S, bytes: &[u8]) -> Result<(), WriteFault>
    ensures all { OnOk result (S.took sink.old bytes.now sink.new) }
    ensures prefix { OnErr result (TookPrefix S.took sink.old bytes.now sink.new) }
    ensures failed { OnErr result (Rose (S.faults sink.old) (S.faults sink.new)) }
    ensures faults_stay { S.faults sink.old ≤ S.faults sink.new }
{
    let mut put = 0;
    while put < bytes.len() {
        match sink.write(&bytes[put..]) {
            Wrote::Failed => return Err(WriteFault),
            Wrote::Took(0) => return Err(WriteFault),
            Wrote::Took(n) => put += n,
        }
    }
    Ok(())
}
