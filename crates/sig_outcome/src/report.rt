//! The one line on `err` that says how a command ended.

ghost use Rattle.std.specs.Prelude.{◌≡◌, ◌++◌, codes, flat_map};
ghost use Rattle.sig_base.specs.Lines.{refusal};
ghost use Rattle.sig_outcome.specs.Outcomes.{no_nodes};
ghost use Rattle.sig_outcome.specs.Refusals.{line_of, status_of};
ghost use Rattle.sig_outcome.specs.Tasks.{SaysLine, memory_line, words_line, write_line};

use crate::pieces::put_pieces;
use crate::refusal::Refusal;
use itoa::Buffer;
use sig_text::{Sink, WriteFault};

/// Appends a line in pieces, and hands it on. A fault changes nothing else.
pub fn say<E: Sink>(err: &mut E, line: &[&[u8]])
    ensures { SaysLine E.took (E.faults err.old) (E.faults err.new) err.old err.new
        (flat_map (λ piece. piece.now) line.now) }
{
    match put_pieces(err, line) {
        Ok(()) => {
            let _ = err.flush();
        }
        Err(_) => {}
    }
}

/// Appends the line of a write that failed.
pub fn say_fault<E: Sink>(err: &mut E, fault: WriteFault)
    ensures { SaysLine E.took (E.faults err.old) (E.faults err.new) err.old err.new write_line }
{
    let WriteFault = fault;
    say(err, &[b"error: write failed\n"]);
}

/// Appends the line of memory that was wanting.
pub fn say_no_memory<E: Sink>(err: &mut E)
    ensures { SaysLine E.took (E.faults err.old) (E.faults err.new) err.old err.new memory_line }
{
    say(err, &[b"error: out of memory\n"]);
}

/// Appends the line of words that are no command.
pub fn say_words<E: Sink>(err: &mut E)
    ensures { SaysLine E.took (E.faults err.old) (E.faults err.new) err.old err.new words_line }
{
    say(err, &[b"error: these words are not a command\n"]);
}

/// Appends the line of a refusal, and answers its status. It takes no memory.
pub fn refuse<E: Sink>(refusal: &Refusal<'_>, err: &mut E) -> u8
    ensures said { SaysLine E.took (E.faults err.old) (E.faults err.new) err.old err.new
        (line_of refusal.now ++ codes "\n") }
    ensures status { result ≡ status_of refusal.now }
{
    match refusal {
        Refusal::Missing(name) => say_named(err, name, b": not found"),
        Refusal::ReadFault(name) => say_named(err, name, b": read failed"),
        Refusal::LongProgram => say(err, &[b"error: program longer than 1048576 bytes\n"]),
        Refusal::LongFile(name) => say_named(err, name, b": longer than 67108864 bytes"),
        Refusal::Program(line) | Refusal::Data(line) => say(err, &[line.as_bytes(), b"\n"]),
        Refusal::Budget(nodes) => say_budget(err, *nodes),
        Refusal::TooManyItems => say(err, &[b"error: links times capacity above 16777216\n"]),
        Refusal::LongImage => say(err, &[b"error: image longer than 67108864 bytes\n"]),
        Refusal::OutOfMemory => say_no_memory(err),
    }
    refusal.status()
}

/// Appends the line of a file.
fn say_named<E: Sink>(err: &mut E, name: &str, text: &[u8])
    ensures { SaysLine E.took (E.faults err.old) (E.faults err.new) err.old err.new
        (refusal (name.now ++ text.now) ++ codes "\n") }
{
    say(err, &[b"error: ", name.as_bytes(), text, b"\n"]);
}

/// Appends the line of nodes that do not suffice.
fn say_budget<E: Sink>(err: &mut E, nodes: u32)
    ensures { SaysLine E.took (E.faults err.old) (E.faults err.new) err.old err.new
        (no_nodes nodes ++ codes "\n") }
{
    let mut buffer = Buffer::new();
    let digits = buffer.format(nodes);
    say(err, &[b"error: ", digits.as_bytes(), b" diagram nodes\n"]);
}
