//! Endings that refuse a report. Each is `NoMemory` where its line can't be made.

ghost use Rattle.std.specs.Prelude.{◌≡◌, ℕ, Some, IfOk};
ghost use Rattle.command_ending.specs.Stops.{IsRefusal};
ghost use Rattle.cover_answer.specs.Reports.{bad_file as answer_of, file_line as line_of};
ghost use Rattle.cover_reports.specs.Sources.{answer_to};

use command_ending::{Ending, Status, over_limit};
use cov_port::{ByteText, NoMemory};
use report_text::ReportFault;
use std::alloc::Global;

/// The line of a file whose keys or name are bad, with a code.
fn file_line(alloc: Global, name: &[u8], code: &[u8]) -> Result<ByteText, NoMemory>
    ensures { IfOk result (λ line. line ≡ line_of name.now code.now) }
{
    let mut line = ByteText::from_slice(alloc, b"vcov: BadData: ")?;
    line.append(name)?;
    line.append(b": ")?;
    line.append(code)?;
    line.append(b"\n")?;
    Ok(line)
}

/// The keys of a file, or its name, are refused with a code.
pub fn bad_file(alloc: Global, name: &[u8], code: &[u8]) -> Ending
    ensures { IsRefusal (λ a. a ≡ answer_of code.now name.now) result }
{
    match file_line(alloc, name, code) {
        Ok(line) => Ending::Refused(Status::BadData, line),
        Err(_) => Ending::NoMemory,
    }
}

/// A report isn't made for this fault. A source that is too short is refused where its name is known.
pub fn refused_report(alloc: Global, fault: ReportFault) -> Ending
    requires { (lines : ℕ) → fault ≡ ReportFault.ShortSource lines → ⊥ }
    ensures { IsRefusal (λ a. answer_to fault ≡ Some a) result }
{
    match fault {
        ReportFault::BadKeyLine { file } => bad_file(alloc, file.as_slice(), b"BadKeyLine"),
        ReportFault::BadFileName { file } => bad_file(alloc, file.as_slice(), b"BadFileName"),
        ReportFault::SameBaseName { file } => bad_file(alloc, file.as_slice(), b"SameBaseName"),
        ReportFault::Limit(name) => over_limit(alloc, name),
        ReportFault::ShortSource { .. } | ReportFault::NoMemory => Ending::NoMemory,
    }
}
