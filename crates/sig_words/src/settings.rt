//! The settings of a command.

ghost use Rattle.std.specs.Prelude.{◌≡◌, ◌≤◌, ◌^◌, ◌<◌, ℕ, MatchResult, option_map, option_to_list};
ghost use Rattle.sig_words.specs.Commands.{AreSettings, IsFlag, IsSetting};
ghost use Rattle.sig_words.specs.inner.Said.{said_values, said_by};
ghost use Rattle.sig_words.specs.declared.command.Settings.{Settings};

use crate::answer::WordsAnswer;
use crate::command::Settings;
use crate::given::Given;
use crate::number::number;
use crate::verb::Options;
use sig_base::limits::{
    CAPACITY_DEFAULT, CAPACITY_MAX, INSTANTS_DEFAULT, INSTANTS_MAX, WORKERS_DEFAULT, WORKERS_MAX,
};

/// The limits of a setting, and its value where none is given.
#[derive(Clone, Copy)]
struct Limits {
    least: u32,
    greatest: u32,
    default: u32,
}

/// A setting from the value of its option, where the command has the option.
fn setting(has: bool, value: Option<&str>, limits: Limits) -> Result<u32, WordsAnswer>
    ensures { MatchResult result
        (λ n. IsSetting has limits.least limits.greatest limits.default (option_to_list (option_map (λ s. s.now) value.entry)) n)
        (λ answer. (answer ≡ WordsAnswer.Refused)
        × ((n : ℕ) → ¬ IsSetting has limits.least limits.greatest limits.default (option_to_list (option_map (λ s. s.now) value.entry)) n)) }
{
    let Some(word) = value else {
        return Ok(limits.default);
    };
    match number(word) {
        Some(n) if has && n >= u64::from(limits.least) && n <= u64::from(limits.greatest) => {
            Ok(n as u32)
        }
        _ => Err(WordsAnswer::Refused),
    }
}

/// The settings that were given to a command with these options.
pub fn settings(has: Options, given: &Given<'_>) -> Result<Settings, WordsAnswer>
    ensures { MatchResult result
        (λ s. AreSettings has (said_values (said_by given.now)) s)
        (λ answer. (answer ≡ WordsAnswer.Refused) × ((s : Settings) → ¬ AreSettings has (said_values (said_by given.now)) s)) }
{
    let workers = Limits {
        least: 0,
        greatest: WORKERS_MAX,
        default: WORKERS_DEFAULT,
    };
    let capacity = Limits {
        least: 1,
        greatest: CAPACITY_MAX,
        default: CAPACITY_DEFAULT,
    };
    let instants = Limits {
        least: 1,
        greatest: INSTANTS_MAX,
        default: INSTANTS_DEFAULT,
    };
    if given.pace && !has.pace {
        return Err(WordsAnswer::Refused);
    }
    Ok(Settings {
        workers: setting(has.workers, given.workers, workers)?,
        capacity: setting(has.capacity, given.capacity, capacity)?,
        instants: setting(has.instants, given.instants, instants)?,
        pace: given.pace,
    })
}
