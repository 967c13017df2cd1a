//! The options that take a value.

ghost use Rattle.std.specs.Prelude.{◌≡◌};
ghost use Rattle.sig_words.specs.Readings.{name_of};

/// An option that takes a value.
#[derive(Clone, Copy, Debug)]
pub enum OptionName {
    Workers,
    Capacity,
    Instants,
}

impl OptionName {
    /// The option's name, as it stands behind `--`.
    pub fn name(self) -> &'static str
        ensures { result.now ≡ name_of self }
    {
        match self {
            OptionName::Workers => "workers",
            OptionName::Capacity => "capacity",
            OptionName::Instants => "instants",
        }
    }
}
