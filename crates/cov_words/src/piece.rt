//! The pieces that the words behind a command are made of.

ghost use Rattle.std.specs.Prelude.{◌≡◌, option_map};
ghost use Rattle.cov_words.specs.Cut.{is_option};
ghost use Rattle.cov_words.specs.Pieces as spec;
ghost use Rattle.cov_words.specs.Seen.{seen_opening};

use crate::table::{CommandName, OptionName};

/// An option with its value, which is empty where it takes none; or a name.
#[derive(Clone, Copy)]
pub(crate) enum Piece<'a> {
    Given(OptionName, &'a str),
    Name(&'a str),
}

/// What a word begins: a whole piece, or an option whose value is the next word.
#[derive(Clone, Copy)]
pub(crate) enum Opening<'a> {
    Whole(Piece<'a>),
    Waiting(OptionName),
}

/// What the word begins, if it may stand behind the command.
pub(crate) fn read_opening(command: CommandName, word: &str) -> Option<Opening<'_>>
    ensures { option_map seen_opening result ≡ spec.opening command word.now }
{
    if !is_option(word) {
        return Some(Opening::Whole(Piece::Name(word)));
    }
    match command.option_named(word) {
        Some(option) => Some(alone(option)),
        None => parted(command, word),
    }
}

/// Whether the word is an option: it begins with `-` and is longer than one byte.
fn is_option(word: &str) -> bool
    ensures { result ≡ is_option word.now }
{
    match word.as_bytes() {
        [first, _, ..] => *first == b'-',
        _ => false,
    }
}

/// The opening of an option that is a word of its own.
fn alone<'a>(option: OptionName) -> Opening<'a>
    ensures { seen_opening result ≡ spec.alone option }
{
    if option.is_flag() {
        Opening::Whole(Piece::Given(option, ""))
    } else {
        Opening::Waiting(option)
    }
}

/// The opening of a word that has an option and its value, with a `=` between.
fn parted(command: CommandName, word: &str) -> Option<Opening<'_>>
    ensures { option_map seen_opening result ≡ spec.parted command (spec.at_equal_sign word.now) }
{
    let (before, value) = at_equal_sign(word)?;
    let option = command.option_named(before)?;
    if option.is_flag() {
        return None;
    }
    Some(Opening::Whole(Piece::Given(option, value)))
}

/// What stands before the first `=`, and what stands behind it.
fn at_equal_sign(word: &str) -> Option<(&str, &str)>
    ensures { option_map (λ p. (p.0.now, p.1.now)) result ≡ spec.at_equal_sign word.now }
{
    word.split_once('=')
}
