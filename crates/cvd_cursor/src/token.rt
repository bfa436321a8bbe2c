ghost use Rattle.std.specs.Prelude.{◌≡◌, ◌^◌, true, [], ◌∷◌};
ghost use Rattle.cvd_text.specs.Expressions.{sign_word};
ghost use Rattle.cvd_text.specs.Tokens.{word};
ghost use Rattle.cvd_cursor.specs.Numerals.{below, hex_tokens, is_numeral, number_tokens, value_of};
ghost use Rattle.cvd_cursor.specs.Reads.{Reads, marks};
ghost use Rattle.cvd_cursor.specs.Words.{sign_of};

use crate::cursor::Cursor;
use crate::fault::ReadFault;
use crate::numeral::{is_numeral, value};

/// A number in decimal, where 64 bits hold it.
pub fn number(cursor: &mut Cursor<'_>) -> Result<Option<u64>, ReadFault>
    ensures { Reads (marks number_tokens) (λ n held. held ≡ below (2 ^ 64) n) cursor.old result cursor.new }
{
    let Some(word) = cursor.peek() else {
        return Err(cursor.wrong(true));
    };
    if !is_numeral(word, 10) {
        return Err(ReadFault::BadNumber);
    }
    let held = decimal(word);
    cursor.skip();
    Ok(held)
}

/// The number that a word spells, where 64 bits hold it.
fn decimal(word: &[u8]) -> Option<u64>
    requires { is_numeral 10 word.now ≡ true }
    ensures { result ≡ below (2 ^ 64) (value_of 10 word.now) }
{
    match value(word, 10) {
        Some(value) if value < 1 << 64 => Some(value as u64),
        _ => None,
    }
}

/// The number that a word spells, where 128 bits hold it.
fn hexadecimal(word: &[u8]) -> Option<u128>
    requires { is_numeral 16 word.now ≡ true }
    ensures { result ≡ below (2 ^ 128) (value_of 16 word.now) }
{
    value(word, 16)
}

/// A number in hexadecimal, where 128 bits hold it.
pub fn hex(cursor: &mut Cursor<'_>) -> Result<Option<u128>, ReadFault>
    ensures { Reads (marks hex_tokens) (λ n held. held ≡ below (2 ^ 128) n) cursor.old result cursor.new }
{
    let Some(word) = cursor.peek() else {
        return Err(cursor.wrong(true));
    };
    if !is_numeral(word, 16) {
        return Err(ReadFault::BadNumber);
    }
    let held = hexadecimal(word);
    cursor.skip();
    Ok(held)
}

/// How a value is read: signed (`s`) or not (`u`).
pub fn sign(cursor: &mut Cursor<'_>) -> Result<bool, ReadFault>
    ensures { Reads (marks (λ signed. word (sign_word signed) ∷ [])) (λ signed held. held ≡ signed) cursor.old result cursor.new }
{
    let Some(word) = cursor.peek() else {
        return Err(cursor.wrong(false));
    };
    let Some(signed) = sign_of(word) else {
        return Err(ReadFault::BadToken);
    };
    cursor.skip();
    Ok(signed)
}

fn sign_of(word: &[u8]) -> Option<bool>
    ensures { result ≡ sign_of word.now }
{
    if word == b"s".as_slice() {
        Some(true)
    } else if word == b"u".as_slice() {
        Some(false)
    } else {
        None
    }
}

/// This very word.
pub fn expect(cursor: &mut Cursor<'_>, name: &[u8]) -> Result<(), ReadFault>
    ensures { Reads (marks (λ _. word name.now ∷ [])) (λ (_ : Unit {0}) _. Unit {0}) cursor.old result cursor.new }
{
    let Some(word) = cursor.peek() else {
        return Err(cursor.wrong(false));
    };
    if word != name {
        return Err(ReadFault::BadToken);
    }
    cursor.skip();
    Ok(())
}
