//! The command that the words of a command line are.

ghost use Rattle.std.specs.Prelude.{◌≡◌, ◌⊎◌};
ghost use Rattle.sig_tool.specs.Prelude.{IfErr, IfOk, AllByRecursion, IsUtf8, IsCommand, files_of, texts};
ghost use Rattle.sig_tool.specs.Commands.{IsLimited};
ghost use Rattle.sig_tool.specs.TopCall.{AreNoCommand, OfCommand};

use sig_words::{Command, WordsAnswer, read_words};
use std::alloc::Global;

/// The command that the words are, with what is known of its files and its numbers.
pub fn command_of(alloc: Global, words: &[String]) -> Result<Command, WordsAnswer>
    ensures command { IfOk result (IsCommand (texts words.now)) }
    ensures only { IfOk result (λ command. OfCommand (texts words.now) (λ c. c ≡ command)) }
    ensures names { IfOk result (λ command. AllByRecursion IsUtf8 (files_of command)) }
    ensures limited { IfOk result IsLimited }
    ensures refused { IfErr result (λ answer. (answer ≡ WordsAnswer.OutOfMemory) ⊎ AreNoCommand (texts words.now)) }
{
    read_words(alloc, words)
}
