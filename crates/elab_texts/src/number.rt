ghost use Rattle.std.specs.Prelude.{◌≡◌, ◌≤◌, ◌<◌, ◌++◌, decimal, OnOk};
ghost use Rattle.circuit_run.specs.Digits.{digit, digits, trimmed, integer_text, hex_columns};
ghost use Rattle.scope_meaning.specs.BlockNames as spec;

use bit_values::Bits;
use cov_types::{ByteText, NoMemory};
use itoa::Buffer;
use std::alloc::Global;

/// Decimal columns that hold every number below `2^128`.
const DECIMAL_COLUMNS: u8 = 39;

/// The digit of a number below 16, in lower case.
fn digit_of(number: u8) -> u8
    requires { number < 16 }
    ensures { result ≡ digit number }
{
    if number < 10 {
        return b'0' + number;
    }
    b'a' - 10 + number
}

/// Puts the last so many digits of a number in a base at the end, the highest first.
fn put_digits(text: &mut ByteText, base: u128, number: u128, columns: u8) -> Result<(), NoMemory>
    requires low { 2 ≤ base }
    requires high { base ≤ 16 }
    ensures { OnOk result (text.new ≡ text.old ++ digits base columns number) }
{
    if columns == 0 {
        return Ok(());
    }
    put_digits(text, base, number / base, columns - 1)?;
    text.append(&[digit_of((number % base) as u8)])
}

/// Digits without leading zeros; the last one stays.
#[tactic(auto, using(crate::proofs::Digits::trimmed_drop, crate::proofs::Digits::trimmed_short, crate::proofs::Digits::trimmed_other))]
fn without_zeros(digits: &[u8]) -> &[u8]
    ensures { result.now ≡ trimmed digits.now }
{
    let mut rest = digits;
    while rest.len() > 1 {
        if rest[0] != b'0' {
            return rest;
        }
        rest = &rest[1..];
    }
    rest
}

/// Puts a number in a base at the end, without leading zeros.
fn put_number(
    alloc: Global,
    text: &mut ByteText,
    base: u128,
    number: u128,
    columns: u8,
) -> Result<(), NoMemory>
    requires low { 2 ≤ base }
    requires high { base ≤ 16 }
    ensures { OnOk result (text.new ≡ text.old ++ trimmed (digits base columns number)) }
{
    let mut digits = ByteText::new(alloc);
    put_digits(&mut digits, base, number, columns)?;
    text.append(without_zeros(digits.as_slice()))
}

/// Puts an integer in decimal at the end, with a minus before a negative one.
pub(crate) fn put_integer(alloc: Global, text: &mut ByteText, value: i32) -> Result<(), NoMemory>
    ensures { OnOk result (text.new ≡ text.old ++ integer_text value) }
{
    let number = u128::from(value.unsigned_abs());
    if value < 0 {
        text.append(b"-")?;
        return put_number(alloc, text, 10, number, DECIMAL_COLUMNS);
    }
    put_number(alloc, text, 10, number, DECIMAL_COLUMNS)
}

/// Puts a number in decimal at the end.
pub(crate) fn put_decimal(text: &mut ByteText, number: u32) -> Result<(), NoMemory>
    ensures { OnOk result (text.new ≡ text.old ++ decimal number) }
{
    let mut buffer = Buffer::new();
    text.append(buffer.format(number).as_bytes())
}

/// Puts a value in hexadecimal at the end, without leading zeros.
pub(crate) fn put_hex(alloc: Global, text: &mut ByteText, of: Bits) -> Result<(), NoMemory>
    ensures { OnOk result (text.new ≡ text.old ++ spec.hex_text of.width of.bits) }
{
    put_number(alloc, text, 16, of.bits, (of.width + 3) / 4)
}
