ghost use Rattle.std.specs.Prelude.{◌≡◌, ◌≤◌, ◌+◌, ◌-◌, ◌++◌, ◌∷◌, ◌^◌, ◌<◌, true, false, length, flat_map, replicate, vec_len, vec_capacity};
ghost use Rattle.bit_values.specs.Values as bits;
ghost use Rattle.circuit_run.specs.Digits.{hex_columns};
ghost use Rattle.design_meaning.specs.Texts.{piece_text};
ghost use Rattle.piece_text.specs.DigitCounts.{spelled, decimal_of, value_text, columns_for, decimal_piece};
ghost use Rattle.piece_text.specs.Pieces.{IsPieceIn, ArePiecesIn};

use crate::digit::{digit_count, put, put_digits};
use bit_values::Bits;
use design_state::{State, is_negative, value};
use design_tree::Piece;

/// Puts a number in a base with so many digits, or in short form without leading zeros.
fn put_number(out: &mut Vec<u8>, number: u128, base: u128, columns: u32, short: bool)
    requires base { 2 ≤ base }
    requires most { base ≤ 16 }
    requires some { 1 ≤ columns }
    requires fits { base ^ (columns - 1) < 2 ^ 128 }
    requires hold { number < base ^ columns }
    requires room { vec_len out.old + length (spelled short base columns number) ≤ vec_capacity out.old }
    ensures items { out.new.items ≡ out.old.items ++ spelled short base columns number }
    ensures capacity { vec_capacity out.old ≤ vec_capacity out.new }
{
    if short {
        let count = digit_count(number, base, columns);
        put_digits(out, number, base, count);
        return;
    }
    put_digits(out, number, base, columns);
}

/// How long a number is in decimal.
fn decimal_length(number: u128) -> u32
    ensures value { result ≡ length (decimal_of number) }
    ensures most { result ≤ 39 }
{
    digit_count(number, 10, 39)
}

/// Puts a number in decimal.
fn put_decimal_number(out: &mut Vec<u8>, number: u128)
    requires { vec_len out.old + length (decimal_of number) ≤ vec_capacity out.old }
    ensures items { out.new.items ≡ out.old.items ++ decimal_of number }
    ensures capacity { vec_capacity out.old ≤ vec_capacity out.new }
{
    let count = digit_count(number, 10, 39);
    put_digits(out, number, 10, count);
}

/// Whether a value is printed with a minus.
fn is_below_zero(of: Bits, signed: bool) -> bool
    ensures minus { result ≡ true → value_text signed of.width of.bits ≡ 45 ∷ decimal_of (bits.neg of.width of.bits) }
    ensures plain { result ≡ false → value_text signed of.width of.bits ≡ decimal_of of.bits }
{
    if signed {
        return is_negative(of);
    }
    false
}

/// How long a value is in decimal, read as signed or not.
fn value_length(of: Bits, signed: bool) -> u32
    ensures { result ≡ length (value_text signed of.width of.bits) }
{
    if is_below_zero(of, signed) {
        return 1 + decimal_length(bit_values::neg(of).bits);
    }
    decimal_length(of.bits)
}

/// How many columns hold each value of a width in decimal.
pub fn columns_of(width: u8, signed: bool) -> u32
    requires some { 1 ≤ width }
    requires most { width ≤ 128 }
    ensures { result ≡ columns_for signed width }
{
    if signed {
        return 1 + decimal_length(1 << (width - 1));
    }
    decimal_length(u128::MAX >> (128 - width))
}

/// Puts a value in decimal, read as signed or not.
fn put_value(out: &mut Vec<u8>, of: Bits, signed: bool)
    requires { vec_len out.old + length (value_text signed of.width of.bits) ≤ vec_capacity out.old }
    ensures items { out.new.items ≡ out.old.items ++ value_text signed of.width of.bits }
    ensures capacity { vec_capacity out.old ≤ vec_capacity out.new }
{
    if is_below_zero(of, signed) {
        put(out, b'-');
        put_decimal_number(out, bit_values::neg(of).bits);
        return;
    }
    put_decimal_number(out, of.bits);
}

/// Puts blanks.
fn put_blanks(out: &mut Vec<u8>, count: u32)
    requires { vec_len out.old + count ≤ vec_capacity out.old }
    ensures items { out.new.items ≡ out.old.items ++ replicate count 32 }
    ensures capacity { vec_capacity out.old ≤ vec_capacity out.new }
{
    for done in 0..count {
        put(out, b' ');
    }
}

/// Puts a value in decimal, in as many columns as its width needs or in short form.
fn put_decimal(out: &mut Vec<u8>, of: Bits, signed: bool, short: bool)
    requires { vec_len out.old + length (decimal_piece signed short of.width of.bits) ≤ vec_capacity out.old }
    ensures items { out.new.items ≡ out.old.items ++ decimal_piece signed short of.width of.bits }
    ensures capacity { vec_capacity out.old ≤ vec_capacity out.new }
{
    if short {
        put_value(out, of, signed);
        return;
    }
    let columns = columns_of(of.width, signed);
    put_blanks(out, columns.saturating_sub(value_length(of, signed)));
    put_value(out, of, signed);
}

/// How many hexadecimal digits hold each value of a width.
pub fn hex_digits(width: u8) -> u32
    requires some { 1 ≤ width }
    requires most { width ≤ 128 }
    ensures value { result ≡ hex_columns width }
    ensures some { 1 ≤ result }
    ensures most { result ≤ 32 }
{
    (u32::from(width) + 3) / 4
}

/// Puts a value in hexadecimal, with all digits of its width or in short form.
pub fn put_hex(out: &mut Vec<u8>, of: Bits, short: bool)
    requires { vec_len out.old + length (spelled short 16 (hex_columns of.width) of.bits) ≤ vec_capacity out.old }
    ensures items { out.new.items ≡ out.old.items ++ spelled short 16 (hex_columns of.width) of.bits }
    ensures capacity { vec_capacity out.old ≤ vec_capacity out.new }
{
    put_number(out, of.bits, 16, hex_digits(of.width), short);
}

/// Puts a value in binary, with all digits of its width or in short form.
fn put_binary(out: &mut Vec<u8>, of: Bits, short: bool)
    requires { vec_len out.old + length (spelled short 2 of.width of.bits) ≤ vec_capacity out.old }
    ensures items { out.new.items ≡ out.old.items ++ spelled short 2 of.width of.bits }
    ensures capacity { vec_capacity out.old ≤ vec_capacity out.new }
{
    put_number(out, of.bits, 2, u32::from(of.width), short);
}

/// Puts bytes.
fn put_bytes(out: &mut Vec<u8>, bytes: &[u8])
    requires { vec_len out.old + length bytes.now ≤ vec_capacity out.old }
    ensures items { out.new.items ≡ out.old.items ++ bytes.now }
    ensures capacity { vec_capacity out.old ≤ vec_capacity out.new }
{
    match out.extend_from_slice(bytes) {
        Ok(()) => {}
        Err(_) => unreachable!(),
    }
}

/// Puts what a piece prints.
fn put_piece(out: &mut Vec<u8>, piece: &Piece, state: &State)
    requires piece { IsPieceIn state.now piece.now }
    requires room { vec_len out.old + length (piece_text state.now piece.now) ≤ vec_capacity out.old }
    ensures items { out.new.items ≡ out.old.items ++ piece_text state.now piece.now }
    ensures capacity { vec_capacity out.old ≤ vec_capacity out.new }
{
    match piece {
        Piece::Text(bytes) => put_bytes(out, bytes.as_slice()),
        Piece::Dec {
            signed,
            short,
            value: e,
        } => put_decimal(out, value(e, state), *signed, *short),
        Piece::Hex { short, value: e } => put_hex(out, value(e, state), *short),
        Piece::Bin { short, value: e } => put_binary(out, value(e, state), *short),
    }
}

/// Puts what pieces print, one after the other. There is room for it.
pub fn put_pieces(out: &mut Vec<u8>, pieces: &[Piece], state: &State)
    requires pieces { ArePiecesIn state.now pieces.now }
    requires room { vec_len out.old + length (flat_map (piece_text state.now) pieces.now) ≤ vec_capacity out.old }
    ensures items { out.new.items ≡ out.old.items ++ flat_map (piece_text state.now) pieces.now }
    ensures capacity { vec_capacity out.old ≤ vec_capacity out.new }
{
    for piece in pieces {
        put_piece(out, piece, state);
    }
}
