ghost use Rattle.std.specs.Prelude.{◌≡◌, ◌↔◌, ◌<◌, ◌≤◌, ◌+◌, ℕ, false, length, slice_index, IsTrue, IfSome, IfNone};
ghost use Rattle.std.specs.List.{position_or_len};
ghost use Rattle.cov_types.specs.Key.{IsKey, is_mark};
ghost use Rattle.cov_port.specs.KeyTest.{before_name, completes, in_value, is_key_text, outside};

use std::simd::prelude::*;

/// Whether the bytes are a key of the data file's form: one or more fields, each byte 1, a name,
/// byte 2 and a value. It takes no memory.
pub fn is_key(key: &[u8]) -> bool
    ensures key { IsTrue result ↔ IsKey key.now }
    ensures test { result ≡ is_key_text key.now }
{
    scan(key)
}

/// The test, field by field.
fn scan(key: &[u8]) -> bool
    ensures { result ≡ completes outside key.now }
{
    if key.is_empty() || key[0] != 1 {
        return false;
    }
    are_fields(key)
}

/// Whether these are fields, one after the other, where they begin with a mark or are none.
fn are_fields(fields: &[u8]) -> bool
    requires { position_or_len is_mark fields.now ≡ 0 }
    ensures { result ≡ completes in_value fields.now }
{
    let mut rest = fields;
    'fields: while !rest.is_empty() && rest[0] == 1 {
        let Some(value) = after_name(&rest[1..]) else {
            return false;
        };
        rest = &value[first_mark(value)..];
    }
    rest.is_empty()
}

/// What stands behind a field's name and byte 2, if they are there.
fn after_name(field: &[u8]) -> Option<&[u8]>
    ensures goes_on { IfSome result (λ value. completes before_name field.now ≡ completes in_value value.now) }
    ensures shorter { IfSome result (λ value. length value.now < length field.now) }
    ensures ends { IfNone result (completes before_name field.now ≡ false) }
{
    if field.len() >= 2 && field[1] == 2 && !is_mark(field[0]) {
        return Some(&field[2..]);
    }
    let end = first_mark_from(field, 0);
    if end == 0 || end == field.len() || field[end] != 2 {
        return None;
    }
    Some(&field[end + 1..])
}

/// The place of the first mark, or the length where there is none.
fn first_mark(bytes: &[u8]) -> usize
    ensures place { result ≡ position_or_len is_mark bytes.now }
    ensures within { result ≤ length bytes.now }
{
    let mut at = 0;
    'blocks: while 16 <= bytes.len() - at {
        let high = high_front(bytes, at);
        at += high;
        if high < 16 {
            if is_mark(bytes[at]) {
                return at;
            }
            at += 1;
        }
    }
    if at == bytes.len() || bytes.len() < 16 {
        return first_mark_from(bytes, at);
    }
    let last = bytes.len() - 16;
    first_mark_from(bytes, at.max(last + high_front(bytes, last)))
}

/// The same, where no mark stands before this place.
#[inline(always)]
fn first_mark_from(bytes: &[u8], from: usize) -> usize
    requires within { from ≤ length bytes.now }
    requires passed { (k : ℕ) → k < from → is_mark (slice_index bytes.now k) ≡ false }
    ensures place { result ≡ position_or_len is_mark bytes.now }
    ensures within { result ≤ length bytes.now }
{
    let mut at = from;
    'bytes: while at < bytes.len() && !is_mark(bytes[at]) {
        at += 1;
    }
    at
}

/// How many of the 16 bytes from this place come before the first that is at most 10.
#[inline(always)]
fn high_front(bytes: &[u8], from: usize) -> usize
    requires { from + 16 ≤ length bytes.now }
    ensures most { result ≤ 16 }
    ensures high { (k : ℕ) → from ≤ k → k < from + result → 10 < slice_index bytes.now k }
{
    let low = u8x16::from_slice(&bytes[from..])
        .simd_le(u8x16::splat(10))
        .to_bitmask();
    if low == 0 {
        return 16;
    }
    low.trailing_zeros() as usize
}

/// Whether neither a name nor a value has the byte.
#[inline(always)]
fn is_mark(byte: u8) -> bool
    ensures { result ≡ is_mark byte }
{
    byte == 1 || byte == 2 || byte == 10
}
