//! The end of a line whose tokens were read.

ghost use Rattle.cvd_cursor.specs.Reads.{Refused, line_marks};
ghost use Rattle.std.specs.Prelude.{false};
ghost use Rattle.cvd_sections.specs.Closing.{Closes};

use cvd_cursor::{Cursor, ReadFault};

/// Ends the line of what was found. Where nothing was found the line breaks a condition.
pub fn close<T: Drop>(cursor: &mut Cursor<'_>, found: Option<T>) -> Result<T, ReadFault>
    ensures { Closes found cursor.old result cursor.new }
{
    let Some(value) = found else {
        return Err(broken(cursor));
    };
    cursor.end_line(true)?;
    Ok(value)
}

/// The fault of a line that breaks a condition.
pub(crate) fn broken(cursor: &mut Cursor<'_>) -> ReadFault
    ensures { Refused (line_marks false) cursor.old result cursor.new }
{
    match cursor.end_line(false) {
        Err(fault) => fault,
        Ok(()) => ReadFault::BadShape,
    }
}
