ghost use Rattle.std.specs.Prelude.{◌≡◌, ◌++◌, codes, nat_lt, if◌then◌else◌, OnOk};
ghost use Rattle.report_text.specs.Annotation.{counted_line, plain_line, point_line};

use crate::fields::field_or_empty;
use crate::number::push_six_digits;
use cov_dat::kind;
use std::alloc::AllocError;

/// Puts a source line with items at the end: whether it is low, its count, and its bytes.
pub(crate) fn push_counted_line(
    text: &mut Vec<u8>,
    low: bool,
    count: u64,
    line: &[u8],
) -> Result<(), AllocError>
    ensures { OnOk result (text.new.items ≡ text.old.items ++ counted_line low count line.now) }
{
    text.extend_from_slice(if low { b"%" } else { b" " })?;
    push_six_digits(text, count)?;
    push_plain_line(text, line)
}

/// Puts a source line without items at the end.
pub(crate) fn push_plain_line(text: &mut Vec<u8>, line: &[u8]) -> Result<(), AllocError>
    ensures { OnOk result (text.new.items ≡ text.old.items ++ plain_line line.now) }
{
    text.extend_from_slice(b"\t")?;
    text.extend_from_slice(line)?;
    text.extend_from_slice(b"\n")
}

/// Puts a point as a line at the end: whether it is below the minimum, its count, type, comment and hierarchy.
pub(crate) fn push_point_line(
    text: &mut Vec<u8>,
    minimum: u64,
    key: &[u8],
    count: u64,
) -> Result<(), AllocError>
    ensures { OnOk result (text.new.items ≡ text.old.items ++ point_line minimum (key.now, count)) }
{
    text.extend_from_slice(sign(count, minimum))?;
    push_six_digits(text, count)?;
    text.extend_from_slice(b"\tpoint: type=")?;
    text.extend_from_slice(kind(key))?;
    text.extend_from_slice(b" comment=")?;
    text.extend_from_slice(field_or_empty(key, b"o"))?;
    text.extend_from_slice(b" hier=")?;
    text.extend_from_slice(field_or_empty(key, b"h"))?;
    text.extend_from_slice(b"\n")?;
    Ok(())
}

/// The sign of a count.
fn sign(count: u64, minimum: u64) -> &'static [u8]
    ensures { result.now ≡ (if nat_lt count minimum then codes "-" else codes "+") }
{
    if count < minimum {
        return b"-";
    }
    b"+"
}
