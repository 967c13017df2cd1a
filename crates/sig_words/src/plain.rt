//! The plain words of a command.

ghost use Rattle.std.specs.Prelude.{◌≡◌, ◌≢◌, ◌⊎◌, ◌∷◌, [], ℕ, IfOk, IfErr};
ghost use Rattle.sig_words.specs.Commands.{AreSeedAndStages, HasPlainWords, verb_of};
ghost use Rattle.sig_words.specs.Readings.{Word};
ghost use Rattle.sig_words.specs.inner.Said.{IsMadeWith, referents};
ghost use Rattle.sig_words.specs.declared.command.Command.{Command};

use crate::answer::WordsAnswer;
use crate::command::{Command, Settings};
use crate::number::number;
use crate::verb::Verb;
use sig_base::Text;
use std::alloc::Global;

/// The greatest number of stages.
const STAGES_MAX: u64 = 12;

/// One word.
fn one(alloc: Global, words: &[&str]) -> Result<Text, WordsAnswer>
    ensures ok { IfOk result (λ text. referents words.now ≡ text ∷ []) }
    ensures err { IfErr result (λ answer. (answer ≡ WordsAnswer.OutOfMemory)
        ⊎ ((a : Word) → referents words.now ≢ a ∷ [])) }
{
    let [first] = words else {
        return Err(WordsAnswer::Refused);
    };
    Ok(Text::from_bytes(alloc, first.as_bytes())?)
}

/// Two words.
fn two(alloc: Global, words: &[&str]) -> Result<(Text, Text), WordsAnswer>
    ensures ok { IfOk result (λ texts. referents words.now ≡ texts.0 ∷ texts.1 ∷ []) }
    ensures err { IfErr result (λ answer. (answer ≡ WordsAnswer.OutOfMemory)
        ⊎ ((a b : Word) → referents words.now ≢ a ∷ b ∷ [])) }
{
    let [first, second] = words else {
        return Err(WordsAnswer::Refused);
    };
    let first = Text::from_bytes(alloc, first.as_bytes())?;
    let second = Text::from_bytes(alloc, second.as_bytes())?;
    Ok((first, second))
}

/// Three words.
fn three(alloc: Global, words: &[&str]) -> Result<(Text, Text, Text), WordsAnswer>
    ensures ok { IfOk result (λ texts. referents words.now ≡ texts.0 ∷ texts.1 ∷ texts.2 ∷ []) }
    ensures err { IfErr result (λ answer. (answer ≡ WordsAnswer.OutOfMemory)
        ⊎ ((a b c : Word) → referents words.now ≢ a ∷ b ∷ c ∷ [])) }
{
    let [first, second, third] = words else {
        return Err(WordsAnswer::Refused);
    };
    let first = Text::from_bytes(alloc, first.as_bytes())?;
    let second = Text::from_bytes(alloc, second.as_bytes())?;
    let third = Text::from_bytes(alloc, third.as_bytes())?;
    Ok((first, second, third))
}

/// A seed and a number of stages.
fn seed_and_stages(words: &[&str]) -> Result<(u64, u32), WordsAnswer>
    ensures ok { IfOk result (λ numbers. AreSeedAndStages (referents words.now) numbers.0 numbers.1) }
    ensures err { IfErr result (λ answer. (answer ≡ WordsAnswer.Refused)
        × ((seed stages : ℕ) → ¬ AreSeedAndStages (referents words.now) seed stages)) }
{
    let [first, second] = words else {
        return Err(WordsAnswer::Refused);
    };
    match (number(first), number(second)) {
        (Some(seed), Some(stages)) if stages >= 1 && stages <= STAGES_MAX => {
            Ok((seed, stages as u32))
        }
        _ => Err(WordsAnswer::Refused),
    }
}

/// The command of this verb with these plain words and settings.
pub fn command(
    alloc: Global,
    verb: Verb,
    plain: &[&str],
    settings: Settings,
) -> Result<Command, WordsAnswer>
    ensures verb { IfOk result (λ command. verb_of command ≡ verb) }
    ensures plain { IfOk result (λ command. HasPlainWords command (referents plain.now)) }
    ensures settings { IfOk result (IsMadeWith settings) }
    ensures err { IfErr result (λ answer. (answer ≡ WordsAnswer.OutOfMemory)
        ⊎ ((command : Command) → verb_of command ≡ verb → ¬ HasPlainWords command (referents plain.now))) }
{
    match verb {
        Verb::Check => Ok(Command::Check(one(alloc, plain)?, settings.pace)),
        Verb::Print => Ok(Command::Print(one(alloc, plain)?)),
        Verb::Tree => Ok(Command::Tree(one(alloc, plain)?, settings.pace)),
        Verb::Code => Ok(Command::Code(one(alloc, plain)?, settings.pace)),
        Verb::Build => Ok(Command::Build(one(alloc, plain)?)),
        Verb::Run => {
            let (program, flows) = two(alloc, plain)?;
            Ok(Command::Run(program, flows, settings))
        }
        Verb::Judge => {
            let (program, trace) = two(alloc, plain)?;
            Ok(Command::Judge(program, trace))
        }
        Verb::Exec => {
            let (image, flows) = two(alloc, plain)?;
            Ok(Command::Exec(image, flows, settings))
        }
        Verb::Play => {
            let (program, flows, events) = three(alloc, plain)?;
            Ok(Command::Play(program, flows, events, settings))
        }
        Verb::Load => {
            let (seed, stages) = seed_and_stages(plain)?;
            Ok(Command::Load(seed, stages, settings))
        }
    }
}
