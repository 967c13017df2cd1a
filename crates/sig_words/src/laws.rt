//! Laws of the definition of commands.

ghost use Rattle.std.specs.Prelude.{◌≡◌, List};
ghost use Rattle.sig_words.specs.Commands.{IsCommand};
ghost use Rattle.sig_words.specs.Readings.{Word};
ghost use Rattle.sig_words.specs.declared.command.Command.{Command};

/// A law: words are at most one command.
pub fn one_command()
    ensures { (words : List Word) (a b : Command) → IsCommand words a → IsCommand words b → a ≡ b }
{}
