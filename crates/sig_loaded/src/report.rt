//! The line on `err` that says what ended a run.

ghost use Rattle.std.specs.Prelude.{◌≡◌, ◌<◌};
ghost use Rattle.sig_loaded.specs.Prelude.{flat_map, length, SaysLine};
ghost use Rattle.sig_loaded.specs.Ends.{IsOfKernel, col_at, end_line, line_at, name_at, pieces_at};

use itoa::Buffer;
use sig_base::{EqId, SigId, Span};
use sig_kernel::Kernel;
use sig_outcome::say;
use sig_plan::{Cause, Ended};
use sig_text::Sink;

/// Appends the line that says what ended a run of a kernel.
pub fn say_end<E: Sink>(err: &mut E, kernel: &Kernel, end: Ended)
    requires { IsOfKernel kernel.now end.cause }
    ensures { SaysLine E.took (E.faults err.old) (E.faults err.new) err.old err.new (end_line kernel.now end) }
{
    let mut buffer = Buffer::new();
    let count = buffer.format(end.instants).as_bytes();
    match end.cause {
        Cause::Exhausted(x) => {
            let name = input_name(kernel, x);
            say(
                err,
                &[
                    b"end: input ",
                    name,
                    b" exhausted after ",
                    count,
                    b" instants\n",
                ],
            );
        }
        Cause::Overflow(e) => say_place(err, b"overflow", place_of(kernel, e), count),
        Cause::ZeroDivisor(e) => say_place(err, b"division by zero", place_of(kernel, e), count),
        Cause::Limit => say(err, &[b"end: limit after ", count, b" instants\n"]),
    }
}

/// Appends the line that says how what stands at this place ended a run of as many instants.
pub fn say_place<E: Sink>(err: &mut E, what: &[u8], at: Span, count: &[u8])
    ensures { SaysLine E.took (E.faults err.old) (E.faults err.new) err.old err.new
        (flat_map (λ piece. piece) (pieces_at what.now count.now at.line at.col)) }
{
    let mut line_buffer = Buffer::new();
    let mut col_buffer = Buffer::new();
    let line = line_buffer.format(at.line).as_bytes();
    let col = col_buffer.format(at.col).as_bytes();
    say(
        err,
        &[
            b"end: ",
            what,
            b" at ",
            line,
            b":",
            col,
            b" after ",
            count,
            b" instants\n",
        ],
    );
}

/// The name of an input.
fn input_name(kernel: &Kernel, x: SigId) -> &[u8]
    requires { x.0 < length kernel.now.signals }
    ensures { result.now ≡ name_at kernel.now x }
{
    kernel.signals.as_slice()[x.0 as usize].name.as_bytes()
}

/// The place of an equation.
fn place_of(kernel: &Kernel, e: EqId) -> Span
    requires { e.0 < length kernel.now.equations }
    ensures line { result.line ≡ line_at kernel.now e }
    ensures col { result.col ≡ col_at kernel.now e }
{
    kernel.equations.as_slice()[e.0 as usize].at
}
