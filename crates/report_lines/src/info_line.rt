ghost use Rattle.std.specs.Prelude.{◌≡◌, ◌++◌, OnOk};
ghost use Rattle.report_text.specs.Info.{branch_line, count_line};

use crate::number::push_decimal;
use std::alloc::AllocError;

/// Puts the line of a line's count at the end.
pub(crate) fn push_count_line(text: &mut Vec<u8>, line: u32, count: u64) -> Result<(), AllocError>
    ensures { OnOk result (text.new.items ≡ text.old.items ++ count_line line count) }
{
    text.extend_from_slice(b"DA:")?;
    push_decimal(text, u64::from(line))?;
    text.extend_from_slice(b",")?;
    push_decimal(text, count)?;
    text.extend_from_slice(b"\n")
}

/// Puts the line of a branch point at the end, with its number among the branch points of its line.
pub(crate) fn push_branch_line(
    text: &mut Vec<u8>,
    line: u32,
    number: u64,
    count: u64,
) -> Result<(), AllocError>
    ensures { OnOk result (text.new.items ≡ text.old.items ++ branch_line line number count) }
{
    text.extend_from_slice(b"BRDA:")?;
    push_decimal(text, u64::from(line))?;
    text.extend_from_slice(b",0,")?;
    push_decimal(text, number)?;
    text.extend_from_slice(b",")?;
    push_decimal(text, count)?;
    text.extend_from_slice(b"\n")
}
