//! The top call: from the words of a command line, files and sinks to a status.

ghost use Rattle.std.specs.Prelude.{◌≡◌, ◌⊎◌};
ghost use Rattle.sig_tool.specs.Prelude.{[], IsTrue, Rose, Contents, files_of, texts, Command, Outcome, IsDone, IsRefused, SaysLine, image_line, items_line, memory_line, words_line, write_line};
ghost use Rattle.sig_tool.specs.Complete.{CanBeDone, HasByteImage, HasGoodProgram};
ghost use Rattle.sig_tool.specs.Headline.{AnswersTheOutcome, BeginsItsFiles, ExceedsBounds, HasOwnStatus, HasTooLongImage, IsComplete, IsLoadComplete, LoadsWithoutFiles, SaysItsRefusal, WasCut, WritesPrefix, WritesTheImage, WritesTheImageRun, WritesThePlay, WritesTheTrace, WritesWhole};
ghost use Rattle.sig_tool.specs.TopCall.{AreNoCommand, ComesTo, IsStatus, OfCommand};

use crate::perform::perform;
use crate::words::command_of;
use sig_compile_command::programs_have_an_outcome;
use sig_image_command::{builds_have_one_outcome, execs_have_one_outcome};
use sig_judge_command::judges_have_one_outcome;
use sig_load_command::loads_have_one_outcome;
use sig_outcome::{say_no_memory, say_words};
use sig_play_command::plays_have_one_outcome;
use sig_run_command::runs_have_one_outcome;
use sig_text::{Files, Gate, Sink};
use sig_words::WordsAnswer;
use std::alloc::Global;
use std::sync::Wait;
use std::thread::Threads;

/// Does what the words of a command line ask for, and answers the status with which the program ends.
/// `words` are the command line without the program's name. The commands are `check`, `tree`, `code`, `run`,
/// `play`, `print`, `judge`, `load`, `build` and `exec`. With the flag `--pace` the first five take for the kernel of
/// a program without a root the one with paces. A run is made with its clusters on worker threads, or on this
/// thread alone where no worker is asked for; each cluster passes the gate at each of its instants. A play lets
/// given events of the actors happen, on this thread and over links of the capacity asked for, writes the state
/// that they leave, and finishes the run from there. A build writes the image of a program, and `exec` verifies an
/// image and runs it on this thread, without compiling.
///
/// | Status | Comes |
/// |---|---|
/// | 0 | done; a run, a play or a run of an image ended because an input had no further value, or at the limit of instants |
/// | 1 | the program is refused, by the passes that the command needs |
/// | 2 | the words are no command; or the links of the program to be run or played would hold more than 16,777,216 items |
/// | 3 | the run or the play ended at an equation, or the run of an image at an operation: its result is outside 64 bits, or its divisor is 0 |
/// | 4 | the flow, event, trace or image file is longer than 67,108,864 bytes, or none for the program; or the image is not sound |
/// | 5 | a file is missing or was not read |
/// | 6 | a write to `out` failed |
/// | 7 | memory was wanting |
/// | 8 | the nodes of diagrams do not suffice for a program that is to be compiled, or for an image that is to be verified, and it is not within the bound |
/// | 9 | the trace is not one of the program |
/// | 10 | the image of the program would be longer than 67,108,864 bytes |
///
/// What is promised of it, and the sentence that sigc is for, are on one page: `specs/Headline.antt`.
pub fn sig_main<R: Threads + Wait + Sync, F: Files, S: Sink, E: Sink, G: Gate + Sync>(
    rt: &R,
    alloc: Global,
    words: &[String],
    files: &mut F,
    out: &mut S,
    err: &mut E,
    gate: &G,
) -> u8
    // The statuses, and those of each command. Where the words are none of these, 2 comes,
    // unless memory was wanting to read them.
    ensures numbers { IsStatus result }
    ensures numbers_of { HasOwnStatus (texts words.now) result }
    ensures no_command { AreNoCommand (texts words.now) → (result ≡ 2) ⊎ (result ≡ 7) }

    // Whatever the status, a prefix of the text that is due was appended.
    ensures prefix { WritesPrefix (texts words.now) (F.contents files.old) S.took out.old out.new }

    // A command that is done wrote all of it, and said what ended it: a run wrote the text of the longest
    // trace, and named the first cause why that is not longer; a play wrote what its events commit, the state
    // that they leave and the rest of that text, and named the same cause; a build wrote the bytes of the program's
    // image; the run of an image wrote the text of that run, and named its cause.
    ensures whole { WritesWhole (texts words.now) (F.contents files.old) (F.at files.old) (F.at files.new)
        S.took out.old out.new (SaysLine E.took (E.faults err.old) (E.faults err.new) err.old err.new) result }
    ensures run { WritesTheTrace (texts words.now) (F.contents files.old)
        S.took out.old out.new (SaysLine E.took (E.faults err.old) (E.faults err.new) err.old err.new) result }
    ensures play { WritesThePlay (texts words.now) (F.contents files.old)
        S.took out.old out.new (SaysLine E.took (E.faults err.old) (E.faults err.new) err.old err.new) result }
    ensures build { WritesTheImage (texts words.now) (F.contents files.old) S.took out.old out.new result }
    ensures exec { WritesTheImageRun (texts words.now) (F.contents files.old)
        S.took out.old out.new (SaysLine E.took (E.faults err.old) (E.faults err.new) err.old err.new) result }
    ensures flushed { IsDone result → IsTrue (S.clean out.new) }

    // The status is the one that the told contents call for, if no call failed, memory was found, and the nodes of
    // diagrams sufficed.
    ensures status { AnswersTheOutcome (texts words.now) (F.contents files.old)
        (Rose (F.faults files.old) (F.faults files.new)) (Rose (S.faults out.old) (S.faults out.new)) result }

    // A command whose program is accepted and whose flows and events have a reading, whose text has a tree
    // where it is printed, or whose image is short enough or sound, is done, if no call failed, memory was found, and the nodes of diagrams sufficed.
    ensures complete { IsComplete (texts words.now) (F.contents files.old)
        (F.faults files.old) (F.faults files.new) (S.faults out.old) (S.faults out.new) result }

    // Why they did not suffice, and when a write failed.
    ensures budget { ExceedsBounds (texts words.now) (F.contents files.old) result }
    ensures failed { result ≡ 6 → Rose (S.faults out.old) (S.faults out.new) }

    // What a failed write leaves begins the text of what the command comes to, which was to be done.
    ensures cut { WasCut (texts words.now) (F.contents files.old) S.took out.old out.new result }

    // A refused command says one line, with its cause, and leaves the output as it was.
    ensures refused { SaysItsRefusal (texts words.now) (F.contents files.old) (F.at files.old) (F.at files.new)
        (F.misses files.old) (F.misses files.new) (F.faults files.old) (F.faults files.new)
        (SaysLine E.took (E.faults err.old) (E.faults err.new) err.old err.new) result }
    ensures words_line { AreNoCommand (texts words.now) → result ≡ 2 →
        SaysLine E.took (E.faults err.old) (E.faults err.new) err.old err.new words_line }
    ensures items_line { result ≡ 2 → OfCommand (texts words.now) (λ c.
        SaysLine E.took (E.faults err.old) (E.faults err.new) err.old err.new items_line) }
    ensures image_line { result ≡ 10 → OfCommand (texts words.now) (λ c.
        SaysLine E.took (E.faults err.old) (E.faults err.new) err.old err.new image_line) }
    ensures too_long { HasTooLongImage (texts words.now) (F.contents files.old) result }
    ensures memory_line { result ≡ 7 →
        SaysLine E.took (E.faults err.old) (E.faults err.new) err.old err.new memory_line }
    ensures fault_line { result ≡ 6 →
        SaysLine E.took (E.faults err.old) (E.faults err.new) err.old err.new write_line }
    ensures untouched { IsRefused result → out.new ≡ out.old }

    // The file that was begun last, if it is there, is one of the command's; or none was begun, since
    // memory was wanting to read the words.
    ensures begun { BeginsItsFiles (texts words.now) (F.contents files.old) (F.at files.new) files.old files.new result }
    ensures none_begun { AreNoCommand (texts words.now) → files.new ≡ files.old }
    ensures no_files { OfCommand (texts words.now) (λ c. files_of c ≡ [] → files.new ≡ files.old) }

    // A load asks for no file, so all of this holds of it whatever files would tell, and where they tell nothing.
    ensures load { LoadsWithoutFiles (texts words.now) S.took out.old out.new
        (S.faults out.old) (S.faults out.new) (S.clean out.new)
        (SaysLine E.took (E.faults err.old) (E.faults err.new) err.old err.new) result }
    ensures load_complete { IsLoadComplete (texts words.now) (S.faults out.old) (S.faults out.new) result }
{
    match command_of(alloc, words) {
        Ok(command) => perform(rt, alloc, &command, files, out, err, gate),
        Err(WordsAnswer::Refused) => {
            say_words(err);
            2
        }
        Err(WordsAnswer::OutOfMemory) => {
            say_no_memory(err);
            7
        }
    }
}

/// A law: a command over told contents comes to exactly one outcome, whatever its files hold and whether they
/// are there. `exec` is one of them as far as its image file holds bytes, and where the image is sound in any case.
pub fn one_outcome()
    ensures one { (held : Contents) (c : Command) (one other : Outcome) →
        ComesTo held c one → ComesTo held c other → one ≡ other }
    ensures every { (held : Contents) (c : Command) → HasByteImage held c → (o : Outcome) × ComesTo held c o }
    ensures some { (held : Contents) (c : Command) → HasGoodProgram held c → (o : Outcome) × ComesTo held c o }
{
    programs_have_an_outcome();
    runs_have_one_outcome();
    plays_have_one_outcome();
    loads_have_one_outcome();
    builds_have_one_outcome();
    execs_have_one_outcome();
    judges_have_one_outcome();
}

/// A law: whatever a command comes to whose files are good, it is done.
pub fn good_commands_are_done()
    ensures { (held : Contents) (c : Command) → CanBeDone held c → (o : Outcome) → ComesTo held c o → IsDone o.status }
{}
