//! The reading of a command line.

ghost use Rattle.std.specs.Prelude.{◌≡◌, IfOk, MatchResult};
ghost use Rattle.std.specs.List.{AllByRecursion};
ghost use Rattle.std.specs.Str.{IsUtf8};
ghost use Rattle.sig_words.specs.Commands.{IsCommand, files_of};
ghost use Rattle.sig_words.specs.Readings.{texts};
ghost use Rattle.sig_words.specs.declared.command.Command.{Command};

use crate::answer::WordsAnswer;
use crate::command::Command;
use crate::given::gather;
use crate::plain::command;
use crate::settings::settings;
use crate::verb::Verb;
use std::alloc::Global;

/// The command that the words of a command line are, which come without the program's name.
pub fn read_words(alloc: Global, words: &[String]) -> Result<Command, WordsAnswer>
    // The command that is given is the words', and where the words are a command, it is given,
    // unless memory runs out.
    ensures command { IfOk result (λ command. IsCommand (texts words.now) command) }
    ensures given { (command : Command) → IsCommand (texts words.now) command →
        MatchResult result (λ given. given ≡ command) (λ answer. answer ≡ WordsAnswer.OutOfMemory) }

    // The files that it names have names in UTF-8.
    ensures names { IfOk result (λ command. AllByRecursion IsUtf8 (files_of command)) }
{
    let Some((name, after)) = words.split_first() else {
        return Err(WordsAnswer::Refused);
    };
    let Some(verb) = Verb::named(name.as_str()) else {
        return Err(WordsAnswer::Refused);
    };
    let given = gather(alloc, after)?;
    let settings = settings(verb.options(), &given)?;
    command(alloc, verb, &given.plain, settings)
}
