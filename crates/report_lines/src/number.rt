ghost use Rattle.std.specs.Prelude.{◌≡◌, ◌++◌, decimal, OnOk};
ghost use Rattle.report_text.specs.Annotation.{six_digits};

use itoa::Buffer;
use std::alloc::AllocError;

const ZEROS: &[u8] = b"000000";

/// Puts a number at the end.
pub(crate) fn push_decimal(text: &mut Vec<u8>, number: u64) -> Result<(), AllocError>
    ensures { OnOk result (text.new.items ≡ text.old.items ++ decimal number) }
{
    let mut buffer = Buffer::new();
    text.extend_from_slice(buffer.format(number).as_bytes())
}

/// Puts a number with at least six digits at the end.
pub(crate) fn push_six_digits(text: &mut Vec<u8>, number: u64) -> Result<(), AllocError>
    ensures { OnOk result (text.new.items ≡ text.old.items ++ six_digits number) }
{
    let mut buffer = Buffer::new();
    let digits = buffer.format(number).as_bytes();
    if digits.len() < ZEROS.len() {
        text.extend_from_slice(&ZEROS[digits.len()..])?;
    }
    text.extend_from_slice(digits)
}
