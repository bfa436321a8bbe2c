//! The key that a line ends with.

ghost use Rattle.cvd_sections.specs.Keys.{AreCut, ReadsKey};

use cov_types::ByteText;
use cvd_cursor::{Cursor, ReadFault};
use std::alloc::Global;

/// The rest of a line, blanks included: one word, and further ones each behind a blank.
pub(crate) fn read_key(alloc: Global, cursor: &mut Cursor<'_>) -> Result<ByteText, ReadFault>
    requires { AreCut cursor.old.rest }
    ensures { ReadsKey cursor.old result cursor.new }
{
    let Some(first) = cursor.peek() else {
        return Err(cursor.wrong(false));
    };
    let mut key = ByteText::from_slice(alloc, first)?;
    cursor.skip();
    'words: while let Some(word) = cursor.peek() {
        key.append(b" ")?;
        key.append(word)?;
        cursor.skip();
    }
    Ok(key)
}
