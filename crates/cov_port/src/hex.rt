ghost use Rattle.std.specs.Prelude.{◌≡◌, ◌≤◌, length, IfSome, None, Some, if◌then◌else◌};
ghost use Rattle.std.specs.List.{list_all};
ghost use Rattle.cov_port.specs.Hexadecimal.{hex_digit, hex_value, hexadecimal_of, is_hex_digit};

/// The number that 1 to 32 hexadecimal digits of either case spell. It takes no memory.
pub fn read_hex(text: &[u8]) -> Option<u128>
    ensures { result ≡ hexadecimal_of text.now }
{
    if text.is_empty() || text.len() > 32 {
        return None;
    }
    hex_digits(text)
}

/// The number that at most 32 hexadecimal digits spell.
fn hex_digits(text: &[u8]) -> Option<u128>
    requires { length text.now ≤ 32 }
    ensures { result ≡ (if list_all is_hex_digit text.now then Some (hex_value text.now) else None) }
{
    let mut value = 0u128;
    for byte in text {
        let Some(digit) = hex_digit(*byte) else {
            return None;
        };
        value = 16 * value + u128::from(digit);
    }
    Some(value)
}

/// The value of a hexadecimal digit.
fn hex_digit(byte: u8) -> Option<u8>
    ensures value { result ≡ hex_digit byte }
    ensures most { IfSome result (λ digit. digit ≤ 15) }
{
    match byte {
        b'0'..=b'9' => Some(byte - b'0'),
        b'A'..=b'F' => Some(byte - b'A' + 10),
        b'a'..=b'f' => Some(byte - b'a' + 10),
        _ => None,
    }
}
