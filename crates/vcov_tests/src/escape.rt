//! Bytes as printable text: a backslash stands before `n` for a line feed, before `\`, and before `x` and two hexadecimal digits.

use anyhow::anyhow;
use std::alloc::Global;
use std::fmt::Write;

/// Appends the text of some bytes.
pub(crate) fn escape(bytes: &[u8], out: &mut String) -> anyhow::Result<()> {
    for byte in bytes {
        match *byte {
            b'\n' => out.push_str("\\n")?,
            b'\\' => out.push_str("\\\\")?,
            b' '..=b'~' => out.push(char::from(*byte))?,
            other => write!(out, "\\x{other:02x}")?,
        }
    }
    Ok(())
}

/// The value of a hexadecimal digit.
fn digit(byte: u8) -> Option<u8> {
    match byte {
        b'0'..=b'9' => Some(byte - b'0'),
        b'a'..=b'f' => Some(byte - b'a' + 10),
        _ => None,
    }
}

/// Where a reader of escaped text stands.
#[derive(Clone, Copy)]
enum Place {
    Plain,
    /// Behind a backslash.
    Begun,
    /// Behind a backslash and `x`.
    High,
    /// Behind the first of two digits.
    Low(u8),
}

/// Takes one more byte of an escaped text.
fn take(place: Place, byte: u8, out: &mut Vec<u8>) -> Option<Place> {
    match (place, byte) {
        (Place::Plain, b'\\') => return Some(Place::Begun),
        (Place::Begun, b'x') => return Some(Place::High),
        (Place::High, _) => return Some(Place::Low(digit(byte)?)),
        (Place::Plain, _) => out.push(byte).ok()?,
        (Place::Begun, b'n') => out.push(b'\n').ok()?,
        (Place::Begun, b'\\') => out.push(b'\\').ok()?,
        (Place::Begun, _) => return None,
        (Place::Low(high), _) => out
            .push(high.checked_mul(16)?.checked_add(digit(byte)?)?)
            .ok()?,
    }
    Some(Place::Plain)
}

/// The bytes that a text stands for.
pub(crate) fn unescape(alloc: Global, text: &str) -> anyhow::Result<Vec<u8>> {
    let mut out = Vec::new(alloc);
    let mut place = Place::Plain;
    for byte in text.bytes() {
        place = take(place, byte, &mut out).ok_or(anyhow!("no escape: {text}"))?;
    }
    Ok(out)
}
