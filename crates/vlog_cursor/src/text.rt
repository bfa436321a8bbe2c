ghost use Rattle.std.specs.Prelude.{◌≡◌, IfOk};

use cov_types::{ByteText, NoMemory};
use std::alloc::Global;

/// A copy of the text of a token.
pub fn copied_text(alloc: Global, text: &ByteText) -> Result<ByteText, NoMemory>
    ensures { IfOk result (λ copy. copy ≡ text.now) }
{
    ByteText::from_slice(alloc, text.as_slice())
}
