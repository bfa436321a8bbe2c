//! Designs from text, whatever their flow.

ghost use Rattle.std.specs.Prelude.{◌≡◌, ℕ, IfErr, IfOk, List, length, true};
ghost use Rattle.cvd_cursor.specs.Places.{IsLineStart, Reading};
ghost use Rattle.cvd_line_ends.specs.Ends.{Halts};
ghost use Rattle.cvd_text.specs.Fault.{has_first_line};
ghost use Rattle.cvd_text.specs.Pieces.{design_marks, pieces_of};
ghost use Rattle.cvd_text.specs.Spelling.{Cvd};
ghost use Rattle.cvd_file.specs.Faults.{IsDecodeFault};

use crate::fault::CvdFault;
use cvd_cursor::{Cursor, ReadFault};
use cvd_read::read_lines;
use design_tree::Instrumented;
use std::alloc::Global;

/// The valid design of a text, whether it flows or not.
pub(crate) fn read_design(alloc: Global, text: &[u8]) -> Result<Instrumented, CvdFault>
    ensures design { IfOk result (λ x. Cvd x text.now) }
    ensures fault { IfErr result (IsDecodeFault text.now) }
{
    let mut cursor = Cursor::new(text);
    test_first_line(text, &cursor)?;
    match read_lines(alloc, &mut cursor) {
        Err(fault) => Err(fault_there(fault, cursor.place(), text.len())),
        Ok(design) => {
            let end = cursor.place();
            if end < text.len() {
                return Err(CvdFault::Trailing(end as u64));
            }
            Ok(design)
        }
    }
}

/// Whether the first line is that of a design file.
fn test_first_line(text: &[u8], cursor: &Cursor<'_>) -> Result<(), CvdFault>
    requires { cursor.now.rest ≡ pieces_of text.now }
    ensures first { IfOk result (λ _. has_first_line text.now ≡ true) }
    ensures fault { IfErr result (IsDecodeFault text.now) }
{
    if !text.starts_with(b"CVD ") {
        return Err(CvdFault::NotCvd(0));
    }
    if cursor.is_empty() {
        return Err(CvdFault::Truncated(text.len() as u64));
    }
    if !text.starts_with(b"CVD 1\n") {
        return Err(CvdFault::Version(0));
    }
    Ok(())
}

/// The fault of a text of so many bytes, of which a reader of its pieces stops in the line that begins there.
fn fault_there(fault: ReadFault, place: usize, size: usize) -> CvdFault
    ensures { (text : List ℕ) (old new : Reading) → has_first_line text ≡ true → old.text ≡ text → old.rest ≡ pieces_of text
        → length text ≡ size → Halts design_marks old fault new → IsLineStart new place → IsDecodeFault text result }
{
    match fault {
        ReadFault::NoMemory => CvdFault::NoMemory,
        ReadFault::BadNumber => CvdFault::BadNumber(place as u64),
        ReadFault::BadToken => CvdFault::BadToken(place as u64),
        ReadFault::BadShape => CvdFault::BadShape(place as u64),
        ReadFault::Truncated => CvdFault::Truncated(size as u64),
    }
}
