//! The options.
ghost use Rattle.std.specs.Prelude.{◌≡◌};
ghost use Rattle.command_words.specs.Options.{text_of, takes_value as takes_value_of, option_named};

/// An option of the command `run`.
#[derive(Clone, Copy, Debug, PartialEq, Eq)]
pub enum OptionName {
    Budget,
    Pages,
    Resident,
    Swap,
    Seed,
    Cap,
    In,
    Out,
    Env,
    Report,
}

impl OptionName {
    const ALL: [OptionName; 10] = [
        OptionName::Budget,
        OptionName::Pages,
        OptionName::Resident,
        OptionName::Swap,
        OptionName::Seed,
        OptionName::Cap,
        OptionName::In,
        OptionName::Out,
        OptionName::Env,
        OptionName::Report,
    ];

    /// The word that stands for it.
    fn text(self) -> &'static str
        ensures { result.now ≡ text_of self }
    {
        match self {
            OptionName::Budget => "--budget",
            OptionName::Pages => "--pages",
            OptionName::Resident => "--resident",
            OptionName::Swap => "--swap",
            OptionName::Seed => "--seed",
            OptionName::Cap => "--cap",
            OptionName::In => "--in",
            OptionName::Out => "--out",
            OptionName::Env => "--env",
            OptionName::Report => "--report",
        }
    }

    /// Whether the word behind it is its value.
    pub(crate) fn takes_value(self) -> bool
        ensures { result ≡ takes_value_of self }
    {
        match self {
            OptionName::Budget
            | OptionName::Pages
            | OptionName::Resident
            | OptionName::Swap
            | OptionName::Seed
            | OptionName::Cap
            | OptionName::In
            | OptionName::Out
            | OptionName::Env => true,
            OptionName::Report => false,
        }
    }

    /// The option that a word stands for, if there is one.
    pub(crate) fn named(word: &str) -> Option<OptionName>
        ensures { result ≡ option_named word.now }
    {
        for name in &OptionName::ALL {
            if name.text() == word {
                return Some(*name);
            }
        }
        None
    }
}
