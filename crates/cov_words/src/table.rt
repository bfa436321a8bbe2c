//! The commands and their options.

ghost use Rattle.std.specs.Prelude.{◌≡◌};
ghost use Rattle.cov_words.specs.Table as spec;
ghost use Rattle.cov_words.specs.Command as commands;

/// The commands.
#[derive(Clone, Copy)]
pub(crate) enum CommandName {
    Check,
    Build,
    Sim,
    Cover,
    SelfTest,
}

/// The options of all commands.
#[derive(Clone, Copy)]
pub(crate) enum OptionName {
    Top,
    Out,
    Clock,
    Coverage,
    CoverageLine,
    CoverageToggle,
    CoverageUser,
    CoverageUnderscore,
    CoverageMaxWidth,
    CountBits,
    Data,
    Write,
    WriteInfo,
    Rank,
    Annotate,
    AnnotateAll,
    AnnotatePoints,
    AnnotateMin,
    FilterType,
}

/// What an option takes.
#[derive(Clone, Copy)]
pub(crate) enum Takes {
    Nothing,
    Name,
    Identifier,
    Pattern,
    /// A number from `least` to `most`.
    Number { least: u64, most: u64 },
}

impl OptionName {
    /// The word, with its `--`.
    pub(crate) fn word(self) -> &'static str
        ensures { result.now ≡ spec.word_of self }
    {
        match self {
            OptionName::Top => "--top",
            OptionName::Out => "--out",
            OptionName::Clock => "--clock",
            OptionName::Coverage => "--coverage",
            OptionName::CoverageLine => "--coverage-line",
            OptionName::CoverageToggle => "--coverage-toggle",
            OptionName::CoverageUser => "--coverage-user",
            OptionName::CoverageUnderscore => "--coverage-underscore",
            OptionName::CoverageMaxWidth => "--coverage-max-width",
            OptionName::CountBits => "--count-bits",
            OptionName::Data => "--data",
            OptionName::Write => "--write",
            OptionName::WriteInfo => "--write-info",
            OptionName::Rank => "--rank",
            OptionName::Annotate => "--annotate",
            OptionName::AnnotateAll => "--annotate-all",
            OptionName::AnnotatePoints => "--annotate-points",
            OptionName::AnnotateMin => "--annotate-min",
            OptionName::FilterType => "--filter-type",
        }
    }

    pub(crate) fn takes(self) -> Takes
        ensures { result ≡ spec.takes self }
    {
        match self {
            OptionName::Top | OptionName::Clock => Takes::Identifier,
            OptionName::Out
            | OptionName::Data
            | OptionName::Write
            | OptionName::WriteInfo
            | OptionName::Annotate => Takes::Name,
            OptionName::Coverage
            | OptionName::CoverageLine
            | OptionName::CoverageToggle
            | OptionName::CoverageUser
            | OptionName::CoverageUnderscore
            | OptionName::Rank
            | OptionName::AnnotateAll
            | OptionName::AnnotatePoints => Takes::Nothing,
            OptionName::CoverageMaxWidth => Takes::Number {
                least: 0,
                most: 1 << 32,
            },
            OptionName::CountBits => Takes::Number { least: 1, most: 64 },
            OptionName::AnnotateMin => Takes::Number {
                least: 0,
                most: u64::MAX,
            },
            OptionName::FilterType => Takes::Pattern,
        }
    }

    /// Whether the option takes no value.
    pub(crate) fn is_flag(self) -> bool
        ensures { result ≡ spec.is_flag self }
    {
        matches!(self.takes(), Takes::Nothing)
    }
}

impl CommandName {
    pub(crate) fn word(self) -> &'static str
        ensures { result.now ≡ (spec.row_of self).word }
    {
        match self {
            CommandName::Check => "check",
            CommandName::Build => "build",
            CommandName::Sim => "sim",
            CommandName::Cover => "cover",
            CommandName::SelfTest => "selftest",
        }
    }

    pub(crate) fn options(self) -> &'static [OptionName]
        ensures { result.now ≡ (spec.row_of self).options }
    {
        match self {
            CommandName::Check | CommandName::SelfTest => &[],
            CommandName::Build => &[
                OptionName::Top,
                OptionName::Out,
                OptionName::Clock,
                OptionName::Coverage,
                OptionName::CoverageLine,
                OptionName::CoverageToggle,
                OptionName::CoverageUser,
                OptionName::CoverageUnderscore,
                OptionName::CoverageMaxWidth,
            ],
            CommandName::Sim => &[OptionName::CountBits, OptionName::Data],
            CommandName::Cover => &[
                OptionName::Write,
                OptionName::WriteInfo,
                OptionName::Rank,
                OptionName::Annotate,
                OptionName::AnnotateAll,
                OptionName::AnnotatePoints,
                OptionName::AnnotateMin,
                OptionName::FilterType,
            ],
        }
    }

    /// Whether the command takes so many names.
    pub(crate) fn takes_names(self, count: usize) -> bool
        ensures { result ≡ commands.takes_names self count }
    {
        match self {
            CommandName::Check | CommandName::Build | CommandName::Cover => count >= 1,
            CommandName::Sim => count == 2,
            CommandName::SelfTest => count == 1,
        }
    }

    /// The option of the command with this word.
    pub(crate) fn option_named(self, word: &str) -> Option<OptionName>
        ensures { result ≡ spec.option_named self word.now }
    {
        self.options()
            .iter()
            .copied()
            .find(|option| word == option.word())
    }
}

/// The command with this word.
pub(crate) fn command_named(word: &str) -> Option<CommandName>
    ensures { result ≡ spec.command_named word.now }
{
    [
        CommandName::Check,
        CommandName::Build,
        CommandName::Sim,
        CommandName::Cover,
        CommandName::SelfTest,
    ]
    .iter()
    .copied()
    .find(|command| word == command.word())
}
