//! The names of commands, and which options each has.

ghost use Rattle.std.specs.Prelude.{◌≡◌, ◌≢◌, MatchOption};
ghost use Rattle.sig_words.specs.declared.verb.Verb.{Verb};
ghost use Rattle.sig_words.specs.Commands.{options_of, spelling};

/// What a command does, without its files.
#[derive(Clone, Copy, Debug, PartialEq, Eq)]
pub enum Verb {
    Check,
    Print,
    Tree,
    Code,
    Run,
    Play,
    Load,
    Judge,
    Build,
    Exec,
}

/// Which of the three options, and the flag, a command has.
#[derive(Clone, Copy, Debug, PartialEq, Eq)]
pub struct Options {
    pub workers: bool,
    pub capacity: bool,
    pub instants: bool,
    pub pace: bool,
}

impl Verb {
    /// The verb of this name.
    pub fn named(name: &str) -> Option<Verb>
        ensures { MatchOption result ((verb : Verb) → name.now ≢ spelling verb) (λ verb. name.now ≡ spelling verb) }
    {
        match name {
            "check" => Some(Verb::Check),
            "print" => Some(Verb::Print),
            "tree" => Some(Verb::Tree),
            "code" => Some(Verb::Code),
            "run" => Some(Verb::Run),
            "play" => Some(Verb::Play),
            "load" => Some(Verb::Load),
            "judge" => Some(Verb::Judge),
            "build" => Some(Verb::Build),
            "exec" => Some(Verb::Exec),
            _ => None,
        }
    }

    /// The options of the command.
    pub fn options(self) -> Options
        ensures { result ≡ options_of self }
    {
        let none = Options {
            workers: false,
            capacity: false,
            instants: false,
            pace: false,
        };
        match self {
            Verb::Check | Verb::Tree | Verb::Code => Options { pace: true, ..none },
            Verb::Print | Verb::Judge | Verb::Build => none,
            Verb::Run => Options {
                workers: true,
                capacity: true,
                instants: true,
                pace: true,
            },
            Verb::Play => Options {
                capacity: true,
                instants: true,
                pace: true,
                ..none
            },
            Verb::Load => Options {
                workers: true,
                capacity: true,
                ..none
            },
            Verb::Exec => Options {
                instants: true,
                ..none
            },
        }
    }
}
