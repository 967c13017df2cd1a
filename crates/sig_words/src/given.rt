//! What the words after a command's name give, whatever the command is. `clap` reads them.

ghost use Rattle.std.specs.Prelude.{◌≡◌, ◌⊎◌, false, IfOk, IfErr};
ghost use Rattle.clap.specs.Words.{app_of, found_of, rows_of, rule_of};
ghost use Rattle.sig_words.specs.inner.Lines.{Shows, command_line, option_rule};
ghost use Rattle.sig_words.specs.Readings.{texts};
ghost use Rattle.sig_words.specs.inner.Said.{IsSaid, Said, said_by};

use crate::answer::WordsAnswer;
use crate::option::OptionName;
use clap::{Arg, ArgAction, ArgMatches, Command};
use std::alloc::{AllocError, Global};

/// The plain words, the values of the options, and whether the flag stands there.
#[derive(Debug, Drop)]
pub struct Given<'a> {
    pub plain: Vec<&'a str>,
    pub workers: Option<&'a str>,
    pub capacity: Option<&'a str>,
    pub instants: Option<&'a str>,
    pub pace: bool,
}

/// The name under which the plain words are found.
const WORDS: &str = "words";

/// The flag, as it stands behind `--`.
const PACE: &str = "pace";

impl<'a> Given<'a> {
    /// What was found.
    fn of_matches(alloc: Global, matches: &ArgMatches<'a>) -> Result<Given<'a>, AllocError>
        ensures { (s : Said) → Shows (rows_of (found_of matches.now)) s → IfOk result (λ given. said_by given ≡ s) }
    {
        let mut plain = Vec::new(alloc);
        plain.extend_from_slice(matches.get_raw(WORDS).unwrap_or(&[]))?;
        Ok(Given {
            plain,
            workers: matches.get_str(OptionName::Workers.name()),
            capacity: matches.get_str(OptionName::Capacity.name()),
            instants: matches.get_str(OptionName::Instants.name()),
            pace: matches.get_flag(PACE),
        })
    }
}

/// An option with one value.
fn option(alloc: Global, option: OptionName) -> Arg<'static>
    ensures rule { rule_of result ≡ option_rule option }
    ensures local { result.global ≡ false }
{
    Arg::new(alloc, option.name()).long(option.name())
}

/// The words of every command: plain words in any number, each option and the flag at most once.
/// Which of them a command has is asked later.
fn command_line<'a>(alloc: Global) -> Result<Command<'a>, AllocError>
    ensures { IfOk result (λ line. app_of line ≡ command_line) }
{
    let plain = Arg::new(alloc, WORDS).action(ArgAction::Append);
    let pace = Arg::new(alloc, PACE).long(PACE).action(ArgAction::SetTrue);
    let line = Command::new(alloc, "sigc")
        .no_binary_name(true)
        .disable_help_flag(true)
        .arg(plain)?
        .arg(option(alloc, OptionName::Workers))?
        .arg(option(alloc, OptionName::Capacity))?
        .arg(option(alloc, OptionName::Instants))?
        .arg(pace)?;
    Ok(line)
}

/// What the words give.
pub fn gather<'a>(alloc: Global, words: &'a [String]) -> Result<Given<'a>, WordsAnswer>
    ensures given { IfOk result (λ given. IsSaid (texts words.entry.now) (said_by given)) }
    ensures refused { IfErr result (λ answer.
        (answer ≡ WordsAnswer.OutOfMemory) ⊎ ((s : Said) → ¬ IsSaid (texts words.entry.now) s)) }
{
    let line = command_line(alloc)?;
    let matches = line.try_get_matches_from(words)?;
    Ok(Given::of_matches(alloc, &matches)?)
}
