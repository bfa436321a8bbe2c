//! The texts of annotated sources.

ghost use Rattle.std.specs.Prelude.{◌≡◌, ◌<◌, ◌≤◌, [], Some, length, get_or, IfOk, IfErr, IfSome, OnOk};
ghost use Rattle.cov_types.specs.Limits.{most};
ghost use Rattle.cov_types.specs.declared.limit.LimitName.TheVariants.{SourceBytes};
ghost use Rattle.cov_report.specs.Reports.{files_annotated, ordered, text_options};
ghost use Rattle.command_ending.specs.Stops.{IsRefusal, Stops};
ghost use Rattle.cover_reports.specs.Sources.{annotating_promise, short_answer, IsAnnotated};

use crate::source::take_source;
use command_ending::{Ending, bad_data};
use cov_port::{ByteText, Files};
use cov_report::{Report, ReportFault};
use std::alloc::Global;

/// A source isn't annotated for this fault. It is too short, or memory was wanted.
fn short_refusal(alloc: Global, name: &str, fault: ReportFault) -> Ending
    ensures { IsRefusal (λ a. short_answer name.now fault ≡ Some a) result }
{
    match fault {
        ReportFault::ShortSource { lines } => {
            bad_data(alloc, name, lines.into(), b"ShortSource")
        }
        ReportFault::BadKeyLine { .. }
        | ReportFault::BadFileName { .. }
        | ReportFault::SameBaseName { .. }
        | ReportFault::Limit(_)
        | ReportFault::NoMemory => Ending::NoMemory,
    }
}

/// Reads the source with this number in the list of annotated files, and annotates it.
///
/// It gives the text, and how many bytes are left to the sources behind it.
pub fn annotated_source<F: Files>(
    alloc: Global,
    files: &mut F,
    report: &Report,
    file: u32,
    name: &str,
    left: u64,
) -> Result<(ByteText, u64), Ending>
    requires number { file < length (files_annotated report.now) }
    requires name { name.now ≡ get_or (files_annotated report.now) file [] }
    requires left { left ≤ most SourceBytes }
    ensures ok { IfOk result (λ made. IfSome (F.held files.old) (λ held.
        IsAnnotated held (text_options report.now) (ordered report.now) name.now left made.0 made.1)) }
    ensures within { IfOk result (λ made. made.1 ≤ left) }
    ensures ok_quiet { OnOk result (F.faults files.new ≡ F.faults files.old) }
    ensures err { IfErr result (Stops (annotating_promise (ordered report.now) left name.now) (F.held files.old) (F.faults files.old) (F.faults files.new)) }
    ensures held { F.held files.new ≡ F.held files.old }
{
    let source = match take_source(alloc, files, name, left) {
        Ok(source) => source,
        Err(ending) => return Err(ending),
    };
    match report.annotate(alloc, file, source.as_slice()) {
        Ok(text) => Ok((text, left - source.len() as u64)),
        Err(fault) => Err(short_refusal(alloc, name, fault)),
    }
}
