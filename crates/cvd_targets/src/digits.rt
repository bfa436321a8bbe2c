ghost use Rattle.std.specs.Prelude.{◌≡◌, ◌<◌, drop, IfOk, IfSome};
ghost use Rattle.cvd_cursor.specs.Reads.{Reads, marks};
ghost use Rattle.cvd_targets.specs.ByteTexts.{IsByteOf, IsFirst, Spells, digit_of};
ghost use Rattle.cvd_targets.specs.PieceParts.{digits_tokens};

use cov_types::{ByteText, NoMemory};
use cvd_cursor::{Cursor, ReadFault};
use std::alloc::Global;

/// The bytes of a text, two hexadecimal digits each.
pub(crate) fn read_digits(alloc: Global, cursor: &mut Cursor<'_>) -> Result<ByteText, ReadFault>
    ensures { Reads (marks digits_tokens) (λ bytes held. held ≡ bytes) cursor.old result cursor.new }
{
    let Some(word) = cursor.peek() else {
        return Err(cursor.wrong(false));
    };
    let Some(bytes) = bytes_of(alloc, word)? else {
        return Err(ReadFault::BadToken);
    };
    cursor.skip();
    Ok(bytes)
}

/// The bytes that a word spells, or nothing where it spells none.
fn bytes_of(alloc: Global, word: &[u8]) -> Result<Option<ByteText>, NoMemory>
    ensures { IfOk result (λ held. Spells word.now held) }
{
    let mut bytes = Vec::new(alloc);
    let mut rest = word;
    'pairs: while !rest.is_empty() {
        let Some(byte) = first_byte(rest) else {
            return Ok(None);
        };
        bytes.push(byte)?;
        rest = behind(rest);
    }
    Ok(Some(ByteText::from_vec(bytes)))
}

/// What stands behind two digits.
fn behind(rest: &[u8]) -> &[u8]
    ensures { result.now ≡ drop 2 rest.now }
{
    match rest {
        [_, _, more @ ..] => more,
        _ => &rest[rest.len()..],
    }
}

fn first_byte(rest: &[u8]) -> Option<u8>
    ensures { IsFirst rest.now result }
{
    match rest {
        [] => None,
        [only] => half(*only),
        [high, low, ..] => byte_of(*high, *low),
    }
}

/// One digit alone is no byte.
fn half(_digit: u8) -> Option<u8>
    ensures none { result ≡ None }
    ensures small { _digit < 256 }
{
    None
}

fn byte_of(high: u8, low: u8) -> Option<u8>
    ensures { IsByteOf high low result }
{
    let Some(first) = digit_of(high) else {
        return None;
    };
    let Some(second) = digit_of(low) else {
        return None;
    };
    Some(16 * first + second)
}

/// What a hexadecimal digit counts.
fn digit_of(byte: u8) -> Option<u8>
    ensures value { result ≡ digit_of byte }
    ensures small { IfSome result (λ digit. digit < 16) }
{
    if b'0' <= byte && byte <= b'9' {
        Some(byte - b'0')
    } else if b'a' <= byte && byte <= b'f' {
        Some(byte - b'a' + 10)
    } else {
        None
    }
}
