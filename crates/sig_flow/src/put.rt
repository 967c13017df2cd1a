//! One line of the output text.

ghost use Rattle.std.specs.Prelude.{◌≡◌, ◌≤◌};
ghost use Rattle.sig_flow.specs.Prelude.{OnOk, OnErr, Rose, TookPrefix, line_of, line_with, truth_text};

use crate::pieces::put_pieces;
use itoa::Buffer;
use sig_base::{Kind, Text};
use sig_text::{Sink, WriteFault};

/// Appends the line of a value: the signal's name, a blank, the value and a newline. An integer is
/// written in decimal, a boolean or an event as `true`, or as `false` where it is 0. Where a write
/// fails, a prefix of the line was appended. It takes no memory.
pub fn put_value<S: Sink>(
    sink: &mut S,
    name: &Text,
    kind: Kind,
    item: i64,
) -> Result<(), WriteFault>
    ensures all { OnOk result (S.took sink.old (line_of name.now kind item) sink.new) }
    ensures prefix { OnErr result (TookPrefix S.took sink.old (line_of name.now kind item) sink.new) }
    ensures failed { OnErr result (Rose (S.faults sink.old) (S.faults sink.new)) }
    ensures faults_stay { S.faults sink.old ≤ S.faults sink.new }
{
    let mut buffer = Buffer::new();
    match kind {
        Kind::Integer => put_line(sink, name.as_bytes(), buffer.format(item).as_bytes()),
        Kind::Boolean | Kind::Event => put_line(sink, name.as_bytes(), truth_text(item)),
    }
}

/// Appends a name, a blank, the text of a value and a newline.
fn put_line<'a, S: Sink>(sink: &mut S, name: &'a [u8], value: &'a [u8]) -> Result<(), WriteFault>
    ensures all { OnOk result (S.took sink.old (line_with name.now value.now) sink.new) }
    ensures prefix { OnErr result (TookPrefix S.took sink.old (line_with name.now value.now) sink.new) }
    ensures failed { OnErr result (Rose (S.faults sink.old) (S.faults sink.new)) }
    ensures faults_stay { S.faults sink.old ≤ S.faults sink.new }
{
    put_pieces(sink, &[name, b" ", value, b"\n"])
}

/// A truth as a text.
fn truth_text(item: i64) -> &'static [u8]
    ensures { result.now ≡ truth_text item }
{
    if item == 0 { b"false" } else { b"true" }
}
