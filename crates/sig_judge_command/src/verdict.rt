//! What is written and said of a verdict.

ghost use Rattle.std.specs.Prelude.{◌++◌, [], codes};
ghost use Rattle.sig_outcome.specs.Tasks.{SaysLine, Writes};
ghost use Rattle.sig_judge_command.specs.Judging.{broken, verdict_line, verdict_status, verdict_text};

use itoa::Buffer;
use sig_judge::Verdict;
use sig_outcome::{put_due, say, say_fault};
use sig_text::Sink;

/// Writes what is due of a verdict, or says which instant breaks which equation.
pub fn put_verdict<S: Sink, E: Sink>(verdict: Verdict, out: &mut S, err: &mut E) -> u8
    ensures { Writes (verdict_text verdict) (verdict_line verdict) (verdict_status verdict)
        S.took out.old out.new (S.faults out.old) (S.faults out.new) (S.clean out.new)
        (SaysLine E.took (E.faults err.old) (E.faults err.new) err.old err.new) result }
{
    match verdict {
        Verdict::Accepted => put_due(b"accepted\n", out, err),
        Verdict::Broken(instant, equation) => put_broken(instant, equation, out, err),
    }
}

/// Says which instant breaks which equation, behind an output with nothing left to hand on.
fn put_broken<S: Sink, E: Sink>(instant: u32, equation: u32, out: &mut S, err: &mut E) -> u8
    ensures { Writes [] (broken instant equation ++ codes "\n") 9
        S.took out.old out.new (S.faults out.old) (S.faults out.new) (S.clean out.new)
        (SaysLine E.took (E.faults err.old) (E.faults err.new) err.old err.new) result }
{
    match out.flush() {
        Ok(()) => {
            say_broken(err, instant, equation);
            9
        }
        Err(fault) => {
            say_fault(err, fault);
            6
        }
    }
}

/// Appends the line of an instant that breaks an equation.
fn say_broken<E: Sink>(err: &mut E, instant: u32, equation: u32)
    ensures { SaysLine E.took (E.faults err.old) (E.faults err.new) err.old err.new
        (broken instant equation ++ codes "\n") }
{
    let mut instant_buffer = Buffer::new();
    let mut equation_buffer = Buffer::new();
    let instant = instant_buffer.format(instant).as_bytes();
    let equation = equation_buffer.format(equation).as_bytes();
    say(
        err,
        &[
            b"error: instant ",
            instant,
            b" breaks equation ",
            equation,
            b"\n",
        ],
    );
}
