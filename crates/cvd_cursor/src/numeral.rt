ghost use Rattle.std.specs.Prelude.{◌≡◌, ◌≤◌, ◌*◌, ◌^◌, true, IfNone, IfSome};
ghost use Rattle.std.specs.List.{list_all};
ghost use Rattle.cvd_cursor.specs.Numerals.{is_digit, is_numeral, value_of, worth};

/// A greater number isn't multiplied by a base any more.
const MOST: u128 = 1 << 124;

/// Whether a word is a number in a base of at most 16, without leading zeros.
pub fn is_numeral(word: &[u8], base: u8) -> bool
    ensures { result ≡ is_numeral base word.now }
{
    match word {
        [] => false,
        [only] => is_digit(*only, base),
        [first, rest @ ..] => { is_digit(*first, base) && *first != b'0' && are_digits(rest, base) }
    }
}

fn are_digits(word: &[u8], base: u8) -> bool
    ensures { result ≡ list_all (is_digit base) word.now }
{
    for byte in word {
        if !is_digit(*byte, base) {
            return false;
        }
    }
    true
}

fn is_digit(byte: u8, base: u8) -> bool
    ensures { result ≡ is_digit base byte }
{
    let shown = (b'0' <= byte && byte <= b'9') || (b'a' <= byte && byte <= b'f');
    shown && worth(byte) < base
}

/// What a digit counts.
fn worth(byte: u8) -> u8
    requires { 48 ≤ byte }
    ensures { result ≡ worth byte }
{
    if byte <= b'9' {
        byte - b'0'
    } else {
        byte.saturating_sub(b'a' - 10)
    }
}

/// The number that digits of a base spell, unless it is very large.
pub fn value(word: &[u8], base: u8) -> Option<u128>
    requires base { base ≤ 16 }
    requires digits { list_all (is_digit base) word.now ≡ true }
    ensures value { IfSome result (λ value. value ≡ value_of base word.now) }
    ensures large { IfNone result (base * 2 ^ 124 ≤ value_of base word.now) }
{
    let mut value = 0u128;
    for byte in word {
        if value >= MOST {
            return None;
        }
        value = value * u128::from(base) + u128::from(worth(*byte));
    }
    Some(value)
}
