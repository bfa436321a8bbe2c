ghost use Rattle.std.specs.Prelude.{◌≡◌, ◌≤◌, ◌+◌, ◌-◌, ◌<◌, ◌++◌, ◌∷◌, ◌^◌, [], vec_len, vec_capacity};
ghost use Rattle.circuit_run.specs.Digits.{digit, digits};
ghost use Rattle.piece_text.specs.DigitCounts.{IsDigitCount};

/// The digit of a number below 16, in lower case.
fn digit_of(number: u8) -> u8
    requires { number < 16 }
    ensures { result ≡ digit number }
{
    if number < 10 {
        return b'0' + number;
    }
    b'a' - 10 + number
}

/// Puts a byte behind those that are there. There is room for it.
pub(crate) fn put(out: &mut Vec<u8>, byte: u8)
    requires { vec_len out.old < vec_capacity out.old }
    ensures items { out.new.items ≡ out.old.items ++ byte ∷ [] }
    ensures capacity { vec_capacity out.old ≤ vec_capacity out.new }
{
    match out.push(byte) {
        Ok(()) => {}
        Err(_) => unreachable!(),
    }
}

/// Puts so many digits of a number in a base, the highest first. There is room for them.
pub(crate) fn put_digits(out: &mut Vec<u8>, number: u128, base: u128, count: u32)
    requires base { 2 ≤ base }
    requires most { base ≤ 16 }
    requires some { 1 ≤ count }
    requires fits { base ^ (count - 1) < 2 ^ 128 }
    requires room { vec_len out.old + count ≤ vec_capacity out.old }
    ensures items { out.new.items ≡ out.old.items ++ digits base count number }
    ensures capacity { vec_capacity out.old ≤ vec_capacity out.new }
{
    let mut power = base.pow(count - 1);
    for above in 0..count {
        put(out, digit_of((number / power % base) as u8));
        power /= base;
    }
}

/// How many digits a number has in a base without leading zeros, at most so many.
pub(crate) fn digit_count(number: u128, base: u128, most: u32) -> u32
    requires base { 2 ≤ base }
    requires some { 1 ≤ most }
    requires fits { base ^ (most - 1) < 2 ^ 128 }
    requires hold { number < base ^ most }
    ensures { IsDigitCount base most number result }
{
    let mut power = 1;
    for count in 1..most {
        power *= base;
        if number < power {
            return count;
        }
    }
    most
}
