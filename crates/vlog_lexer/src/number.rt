//! Numbers, as the text spells them.

ghost use Rattle.std.specs.Prelude.{◌≡◌, ◌+◌, ◌*◌, ◌%◌, ◌^◌, ◌<◌, ◌≤◌, IfOk, IfSome, IsSome, IsTrue, length, slice_index, true};
ghost use Rattle.std.specs.List.{list_all};
ghost use Rattle.vlog_lexer.specs.Bytes as bytes;
ghost use Rattle.vlog_lexer.specs.Numbers as spec;

use crate::bytes::{decimal_len, digits_len, is_free};
use crate::piece::Flaw;

/// A number as a token has it.
#[derive(Clone, Copy)]
pub(crate) struct Numeral {
    pub width: u8,
    pub signed: bool,
    pub value: u128,
    pub free: u128,
}

#[tactic(auto, unfolding(crate::specs::Numbers::digit_value))]
fn digit_value(byte: u8) -> u8
    ensures { result ≡ spec.digit_value byte }
{
    if byte <= b'9' {
        byte.saturating_sub(b'0')
    } else if byte <= b'F' {
        byte.saturating_sub(b'A' - 10)
    } else {
        byte.saturating_sub(b'a' - 10)
    }
}

#[tactic(auto, unfolding(crate::specs::Numbers::value_digit))]
fn value_digit(byte: u8) -> u8
    ensures { result ≡ spec.value_digit byte }
{
    if is_free(byte) { 0 } else { digit_value(byte) }
}

#[tactic(auto, unfolding(crate::specs::Numbers::free_digit))]
fn free_digit(base: u8, byte: u8) -> u8
    requires { 0 < base }
    ensures { result ≡ spec.free_digit base byte }
{
    if is_free(byte) { base - 1 } else { 0 }
}

/// The value with one byte more, where it is below 2^128.
#[tactic(auto, unfolding(crate::specs::Numbers::with_byte))]
fn with_byte(value: u128, base: u8, byte: u8) -> Option<u128>
    ensures value { result ≡ spec.below (spec.with_byte spec.value_digit base value byte) }
    ensures small { IfSome result (λ v. v < 2 ^ 128) }
{
    if byte == b'_' {
        return Some(value);
    }
    match value.checked_mul(base as u128) {
        None => None,
        Some(shifted) => shifted.checked_add(value_digit(byte) as u128),
    }
}

/// The value of the digits, where it is below 2^128.
fn number_value(base: u8, digits: &[u8]) -> Option<u128>
    requires { 0 < base }
    ensures { result ≡ spec.below (spec.number_value base digits.now) }
{
    let mut value = 0;
    for digit in digits {
        match with_byte(value, base, *digit) {
            None => return None,
            Some(more) => value = more,
        }
    }
    Some(value)
}

/// 128 ones where the first digit is free.
fn bits_above(digits: &[u8]) -> u128
    ensures value { result ≡ spec.bits_above (spec.digits_of digits.now) }
    ensures small { result < 2 ^ 128 }
{
    for digit in digits {
        if *digit != b'_' {
            return if is_free(*digit) { u128::MAX } else { 0 };
        }
    }
    0
}

/// The mask of free bits with one byte more, in 128 bits.
#[tactic(auto, unfolding(crate::specs::Numbers::with_byte))]
fn with_free(bits: u128, base: u8, byte: u8) -> u128
    requires { 0 < base }
    ensures value { result ≡ spec.with_byte (spec.free_digit base) base bits byte % 2 ^ 128 }
    ensures small { result < 2 ^ 128 }
{
    if byte == b'_' {
        return bits;
    }
    bits.wrapping_mul(base as u128)
        .wrapping_add(free_digit(base, byte) as u128)
}

/// The mask of the free bits, in 128 bits.
fn free_bits(base: u8, digits: &[u8]) -> u128
    requires { 0 < base }
    ensures { result ≡ spec.free_bits base digits.now % 2 ^ 128 }
{
    let mut bits = bits_above(digits);
    for digit in digits {
        bits = with_free(bits, base, *digit);
    }
    bits
}

#[tactic(auto, unfolding(crate::specs::Numbers::is_digit_of))]
fn is_digit_of(free: bool, base: u8, byte: u8) -> bool
    ensures { result ≡ spec.is_digit_of free base byte }
{
    byte.is_ascii_hexdigit() && digit_value(byte) < base || free && is_free(byte)
}

#[tactic(auto, unfolding(crate::specs::Numbers::is_digit_or_underscore))]
fn is_digit_or_underscore(free: bool, base: u8, byte: u8) -> bool
    ensures { result ≡ spec.is_digit_or_underscore free base byte }
{
    is_digit_of(free, base, byte) || byte == b'_'
}

#[tactic(auto, unfolding(crate::specs::Numbers::is_in_order))]
fn is_in_order(free: bool, base: u8, digits: &[u8]) -> bool
    ensures { result ≡ spec.is_in_order free base digits.now }
{
    match digits {
        [] => false,
        [first, rest @ ..] => is_digit_of(free, base, *first) && all_digits(free, base, rest),
    }
}

fn all_digits(free: bool, base: u8, digits: &[u8]) -> bool
    ensures { result ≡ list_all (spec.is_digit_or_underscore free base) digits.now }
{
    digits
        .iter()
        .all(|digit| is_digit_or_underscore(free, base, *digit))
}

/// The lowest bits of the value.
fn cut(value: u128, width: u8) -> u128
    requires { width ≤ 128 }
    ensures { result ≡ value % 2 ^ width }
{
    if width == 128 {
        value
    } else {
        value % (1u128 << width)
    }
}

#[tactic(auto, unfolding(crate::specs::Numbers::width_of))]
fn width_of(size: Option<u128>) -> u128
    ensures { result ≡ spec.width_of size }
{
    match size {
        None => 32,
        Some(size) => size,
    }
}

#[tactic(auto, unfolding(crate::specs::Numbers::may_be_free))]
fn may_be_free(size: Option<u128>, signed: bool, base: u8) -> bool
    ensures { result ≡ spec.may_be_free size signed base }
{
    size.is_some() && !signed && base != 10
}

#[tactic(auto, unfolding(crate::specs::Numbers::is_bad))]
fn is_bad(size: Option<u128>, signed: bool, base: u8, digits: &[u8]) -> bool
    ensures { result ≡ spec.is_bad size signed base digits.now }
{
    width_of(size) == 0 || !is_in_order(may_be_free(size, signed, base), base, digits)
}

#[tactic(auto, unfolding(crate::specs::Numbers::is_wide, crate::specs::Numbers::bits_of, crate::specs::Numbers::width_of))]
fn is_wide(size: Option<u128>, value: u128) -> bool
    ensures { result ≡ spec.is_wide size value }
{
    match size {
        None => value >= 1 << 32,
        Some(size) => size > 128,
    }
}

/// The value of the digits, where it has the bits that it may have.
fn fitting_value(size: Option<u128>, base: u8, digits: &[u8]) -> Option<u128>
    requires { 0 < base }
    ensures value { result ≡ spec.fitting size (spec.number_value base digits.now) }
    ensures width { IsSome result → spec.width_of size ≤ 128 }
{
    match number_value(base, digits) {
        None => None,
        Some(value) => {
            if is_wide(size, value) {
                None
            } else {
                Some(value)
            }
        }
    }
}

/// The number with this size or none, sign, base, and digits behind the base.
fn based_numeral(size: Option<u128>, signed: bool, base: u8, digits: &[u8]) -> Result<Numeral, Flaw>
    requires { 0 < base }
    ensures { result ≡ spec.based_numeral size signed base digits.now }
{
    if is_bad(size, signed, base, digits) {
        return Err(Flaw::BadNumber);
    }
    match fitting_value(size, base, digits) {
        None => Err(Flaw::NumberTooWide),
        Some(value) => {
            let width = width_of(size) as u8;
            Ok(Numeral {
                width,
                signed,
                value: cut(value, width),
                free: cut(free_bits(base, digits), width),
            })
        }
    }
}

#[tactic(auto, unfolding(crate::specs::Numbers::base_of))]
fn base_of(letter: u8) -> Option<u8>
    ensures value { result ≡ spec.base_of letter }
    ensures some { IfSome result (λ base. 0 < base) }
{
    if letter == b'b' || letter == b'B' {
        Some(2)
    } else if letter == b'o' || letter == b'O' {
        Some(8)
    } else if letter == b'd' || letter == b'D' {
        Some(10)
    } else if letter == b'h' || letter == b'H' {
        Some(16)
    } else {
        None
    }
}

/// Behind a sign: a base and its digits. So many bytes stand before.
#[tactic(auto, unfolding(crate::specs::Numbers::behind_sign, crate::specs::Numbers::behind_base))]
fn behind_sign(
    before: usize,
    size: Option<u128>,
    signed: bool,
    text: &[u8],
) -> Result<(Numeral, usize), Flaw>
    requires { before + length text.now < 2 ^ 64 }
    ensures value { result ≡ spec.behind_sign before size signed text.now }
    ensures within { IfOk result (λ found. (before < found.1) × (found.1 ≤ before + length text.now)) }
{
    let [letter, rest @ ..] = text else {
        return Err(Flaw::BadNumber);
    };
    match base_of(*letter) {
        None => Err(Flaw::BadNumber),
        Some(base) => {
            let len = digits_len(rest);
            match based_numeral(size, signed, base, &rest[..len]) {
                Err(flaw) => Err(flaw),
                Ok(numeral) => Ok((numeral, before + 1 + len)),
            }
        }
    }
}

#[tactic(auto, unfolding(crate::specs::Numbers::begins_with_sign))]
fn begins_with_sign(text: &[u8]) -> bool
    ensures value { result ≡ spec.begins_with_sign text.now }
    ensures some { IsTrue result → 0 < length text.now }
{
    match text {
        [] => false,
        [first, ..] => *first == b's' || *first == b'S',
    }
}

#[tactic(auto, unfolding(crate::specs::Numbers::begins_with_quote))]
fn begins_with_quote(text: &[u8]) -> bool
    ensures value { result ≡ spec.begins_with_quote text.now }
    ensures some { IsTrue result → 0 < length text.now }
{
    match text {
        [] => false,
        [first, ..] => *first == b'\'',
    }
}

/// Behind a quote: a sign or none, a base, and its digits.
#[tactic(auto, unfolding(crate::specs::Numbers::behind_quote))]
fn behind_quote(before: usize, size: Option<u128>, text: &[u8]) -> Result<(Numeral, usize), Flaw>
    requires { before + length text.now < 2 ^ 64 }
    ensures value { result ≡ spec.behind_quote before size text.now }
    ensures within { IfOk result (λ found. (before < found.1) × (found.1 ≤ before + length text.now)) }
{
    if begins_with_sign(text) {
        behind_sign(before + 1, size, true, &text[1..])
    } else {
        behind_sign(before, size, false, text)
    }
}

/// The size that the digits before a quote give, where a size past 128 bits counts as any other.
fn size_of(digits: &[u8]) -> Option<u128>
    ensures { result ≡ spec.capped (spec.size_of digits.now) }
{
    if digits.len() == 0 {
        return None;
    }
    match number_value(10, digits) {
        None => Some(u128::MAX),
        Some(value) => Some(value),
    }
}

/// The number at the front of a text, and how many bytes it has.
pub(crate) fn number_of(text: &[u8]) -> Result<(Numeral, usize), Flaw>
    requires short { length text.now < 2 ^ 32 }
    requires whole { 0 < length text.now }
    requires first { bytes.begins_number (slice_index text.now 0) ≡ true }
    ensures value { result ≡ spec.number_of text.now }
    ensures within { IfOk result (λ found. (0 < found.1) × (found.1 ≤ length text.now)) }
{
    let len = decimal_len(text);
    let digits = &text[..len];
    let rest = &text[len..];
    if begins_with_quote(rest) {
        return behind_quote(len + 1, size_of(digits), &rest[1..]);
    }
    match fitting_value(None, 10, digits) {
        None => Err(Flaw::NumberTooWide),
        Some(value) => Ok((
            Numeral {
                width: 32,
                signed: true,
                value,
                free: 0,
            },
            len,
        )),
    }
}
