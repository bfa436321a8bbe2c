//! What the values of words may be.

ghost use Rattle.std.specs.Prelude.{◌≡◌};
ghost use Rattle.std.specs.List.{list_all};
ghost use Rattle.cov_words.specs.Table as table;
ghost use Rattle.cov_words.specs.Values as spec;

use crate::table::Takes;
use cov_port::read_dec;
use vlog_words::is_identifier;

/// Whether the text is a name of a file or a folder.
pub(crate) fn is_name(text: &str) -> bool
    ensures { result ≡ spec.is_name text.now }
{
    !text.is_empty() && text.len() <= 4096 && are_name_bytes(text.as_bytes())
}

fn are_name_bytes(text: &[u8]) -> bool
    ensures { result ≡ list_all spec.is_name_byte text.now }
{
    text.iter().all(|byte| 32 <= *byte && *byte != 127)
}

fn is_pattern(text: &str) -> bool
    ensures { result ≡ spec.is_pattern text.now }
{
    !text.is_empty() && text.len() <= 64 && are_pattern_bytes(text.as_bytes())
}

fn are_pattern_bytes(text: &[u8]) -> bool
    ensures { result ≡ list_all spec.is_pattern_byte text.now }
{
    text.iter().all(|byte| is_pattern_byte(*byte))
}

fn is_pattern_byte(byte: u8) -> bool
    ensures { result ≡ spec.is_pattern_byte byte }
{
    byte.is_ascii_lowercase()
        || byte.is_ascii_digit()
        || byte == b'_'
        || byte == b'*'
        || byte == b'?'
}

/// The number that the text spells, where it lies from `least` to `most`.
pub(crate) fn number_in(least: u64, most: u64, text: &str) -> Option<u64>
    ensures { result ≡ spec.number_in least most text.now }
{
    match read_dec(text.as_bytes(), most) {
        Some(number) if least <= number => Some(number),
        _ => None,
    }
}

/// Whether the text is a value of what an option takes.
pub(crate) fn is_value_of(takes: Takes, text: &str) -> bool
    ensures { result ≡ table.is_value_of takes text.now }
{
    match takes {
        Takes::Nothing => true,
        Takes::Name => is_name(text),
        Takes::Identifier => is_identifier(text.as_bytes()),
        Takes::Pattern => is_pattern(text),
        Takes::Number { least, most } => number_in(least, most, text).is_some(),
    }
}
