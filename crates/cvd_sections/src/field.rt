//! Numbers that stand behind one another.

ghost use Rattle.cvd_cursor.specs.Reads.{Reads, marks};
ghost use Rattle.cvd_sections.specs.Fields.{HoldsTwo, two_tokens};

use cvd_cursor::{Cursor, ReadFault};
use cvd_nodes::number32;

/// Two numbers, each where 32 bits hold it.
pub(crate) type Two = (Option<u32>, Option<u32>);

/// Takes two numbers.
pub(crate) fn two(cursor: &mut Cursor<'_>) -> Result<Two, ReadFault>
    ensures { Reads (marks two_tokens) HoldsTwo cursor.old result cursor.new }
{
    let first = number32(cursor)?;
    let second = number32(cursor)?;
    Ok((first, second))
}
