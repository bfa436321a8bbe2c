ghost use Rattle.std.specs.Prelude.{◌≡◌, ◌≤◌, true, length, if◌then◌else◌};
ghost use Rattle.std.specs.List.{list_all};
ghost use Rattle.cov_port.specs.Decimal.{decimal_of, is_digit, value_of};

/// The number that 1 to 20 decimal digits spell, where it is at most `most`.
///
/// Leading zeros are taken, a sign or a blank isn't.
pub fn read_dec(text: &[u8], most: u64) -> Option<u64>
    ensures { result ≡ decimal_of text.now most }
{
    if text.is_empty() || text.len() > 20 {
        return None;
    }
    if text.len() < 20 {
        return match short_value(text) {
            Some(value) if value <= most => Some(value),
            _ => None,
        };
    }
    if !are_digits(text) {
        return None;
    }
    let value = value(text);
    if value <= u128::from(most) {
        Some(value as u64)
    } else {
        None
    }
}

fn are_digits(text: &[u8]) -> bool
    ensures { result ≡ list_all is_digit text.now }
{
    text.iter().all(|byte| b'0' <= *byte && *byte <= b'9')
}

/// The number that at most 19 digits spell, which needs no more than 64 bits.
fn short_value(text: &[u8]) -> Option<u64>
    requires { length text.now ≤ 19 }
    ensures { result ≡ (if list_all is_digit text.now then Some (value_of text.now) else None) }
{
    let mut value = 0u64;
    for byte in text {
        if !is_digit(*byte) {
            return None;
        }
        value = 10 * value + u64::from(*byte - b'0');
    }
    Some(value)
}

fn is_digit(byte: u8) -> bool
    ensures test { result ≡ is_digit byte }
    ensures low { result ≡ true → 48 ≤ byte }
    ensures high { result ≡ true → byte ≤ 57 }
{
    b'0' <= byte && byte <= b'9'
}

fn value(text: &[u8]) -> u128
    requires short { length text.now ≤ 20 }
    requires digits { list_all is_digit text.now ≡ true }
    ensures { result ≡ value_of text.now }
{
    let mut value = 0u128;
    for byte in text {
        value = 10 * value + u128::from(*byte - b'0');
    }
    value
}
