//! The command that words spell.

ghost use Rattle.std.specs.Prelude.{◌≡◌, ◌∷◌, [], MatchOption, map, string_bytes};
ghost use Rattle.cov_words.specs.Command as spec;
ghost use Rattle.cov_words.specs.SeenCommand.{seen_command};

use crate::arguments::Arguments;
use crate::command::{Build, Command, Cover, Sim};
use crate::names::Names;
use crate::table::{CommandName, OptionName, command_named};
use crate::values::number_in;

/// The command that the words spell, or `None` where they spell none: a faulty command line. The
/// first word is the command's, not the program's. It takes no memory.
pub fn read_words(words: &[String]) -> Option<Command<'_>>
    ensures { seen_command result ≡ spec.command_of (map string_bytes words.now) }
{
    let [word, words @ ..] = words else {
        return None;
    };
    let Some(command) = command_named(word.as_str()) else {
        return None;
    };
    match Arguments::read(command, words) {
        None => None,
        Some(arguments) => command_of(command, arguments),
    }
}

fn command_of(command: CommandName, arguments: Arguments<'_>) -> Option<Command<'_>>
    ensures { seen_command result ≡ spec.command_of_pieces command arguments.entry }
{
    if !arguments.fit(command) {
        return None;
    }
    match command {
        CommandName::Check => Some(Command::Check(Names::of(arguments))),
        CommandName::Build => build(arguments),
        CommandName::Sim => sim(&arguments),
        CommandName::Cover => cover(arguments),
        CommandName::SelfTest => self_test(&arguments),
    }
}

fn build(arguments: Arguments<'_>) -> Option<Command<'_>>
    ensures { seen_command result ≡ spec.command_with CommandName.Build arguments.entry }
{
    let Some(top) = arguments.value_of(OptionName::Top) else {
        return None;
    };
    let Some(out) = arguments.value_of(OptionName::Out) else {
        return None;
    };
    Some(Command::Build(Build {
        top,
        out,
        clock: arguments.value_of(OptionName::Clock),
        all: arguments.is_given(OptionName::Coverage),
        line: arguments.is_given(OptionName::CoverageLine),
        toggle: arguments.is_given(OptionName::CoverageToggle),
        user: arguments.is_given(OptionName::CoverageUser),
        underscore: arguments.is_given(OptionName::CoverageUnderscore),
        max_width: arguments.number_of(OptionName::CoverageMaxWidth),
        files: Names::of(arguments),
    }))
}

fn sim<'a>(arguments: &Arguments<'a>) -> Option<Command<'a>>
    ensures { seen_command result ≡ spec.command_with CommandName.Sim arguments.now }
{
    let mut pieces = arguments.pieces();
    let Some(design) = pieces.next_name() else {
        return None;
    };
    let Some(stimulus) = pieces.next_name() else {
        return None;
    };
    if pieces.next_name().is_some() {
        return None;
    }
    Some(Command::Sim(Sim {
        count_bits: arguments.number_of(OptionName::CountBits),
        data_name: arguments.value_of(OptionName::Data),
        design,
        stimulus,
    }))
}

fn cover(arguments: Arguments<'_>) -> Option<Command<'_>>
    ensures { seen_command result ≡ spec.command_with CommandName.Cover arguments.entry }
{
    if lacks_annotate(&arguments) {
        return None;
    }
    Some(Command::Cover(Cover {
        write: arguments.value_of(OptionName::Write),
        write_info: arguments.value_of(OptionName::WriteInfo),
        rank: arguments.is_given(OptionName::Rank),
        annotate: arguments.value_of(OptionName::Annotate),
        annotate_all: arguments.is_given(OptionName::AnnotateAll),
        annotate_points: arguments.is_given(OptionName::AnnotatePoints),
        annotate_min: arguments.number_of(OptionName::AnnotateMin),
        filter_type: arguments.value_of(OptionName::FilterType),
        files: Names::of(arguments),
    }))
}

/// Whether an option is given that needs `--annotate`, which isn't.
fn lacks_annotate(arguments: &Arguments<'_>) -> bool
    ensures { result ≡ spec.lacks_annotate arguments.now }
{
    (arguments.is_given(OptionName::AnnotateAll) || arguments.is_given(OptionName::AnnotatePoints))
        && !arguments.is_given(OptionName::Annotate)
}

fn self_test<'a>(arguments: &Arguments<'a>) -> Option<Command<'a>>
    ensures { seen_command result ≡ spec.command_with CommandName.SelfTest arguments.now }
{
    let mut pieces = arguments.pieces();
    let Some(number) = pieces.next_name() else {
        return None;
    };
    if pieces.next_name().is_some() {
        return None;
    }
    match number_in(1, 10_000, number) {
        None => None,
        Some(number) => Some(Command::SelfTest(number as u16)),
    }
}
