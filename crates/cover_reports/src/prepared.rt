//! The report that a command makes, or why it makes none.

ghost use Rattle.std.specs.Prelude.{◌≡◌, None, Some, IfOk, IfErr, OnOk};
ghost use Rattle.std.specs.FinMap.{entries};
ghost use Rattle.cov_dat.specs.DataText.{count_map};
ghost use Rattle.report_text.specs.FileNames.{bad_file_name};
ghost use Rattle.command_ending.specs.Stops.{IsRefusal};
ghost use Rattle.cover_answer.specs.Reports.{count_reasons, first_reason};
ghost use Rattle.cover_reports.specs.Sources.{files_for};

use crate::refusal::refused_report;
use command_ending::Ending;
use cov_dat::Merged;
use cov_report::{Report, ReportOptions};
use std::alloc::Global;

/// The report of these counts, where nothing is wrong with them, whatever the sources hold.
pub fn prepare_report<'a>(
    alloc: Global,
    merged: &'a Merged,
    options: &'a ReportOptions,
) -> Result<Report<'a>, Ending>
    ensures report { IfOk result (λ r. (r.counts ≡ merged.now) × (r.options ≡ options.now)) }
    ensures sound { OnOk result (first_reason (count_reasons (entries (count_map merged.now)) (files_for options.now (entries (count_map merged.now)))) ≡
        None) }
    ensures names { OnOk result (bad_file_name (files_for options.now (entries (count_map merged.now))) ≡ None) }
    ensures refused { IfErr result (IsRefusal (λ a.
        first_reason (count_reasons (entries (count_map merged.now)) (files_for options.now (entries (count_map merged.now)))) ≡ Some a)) }
{
    match Report::prepare(alloc, merged, options) {
        Ok(report) => Ok(report),
        Err(fault) => Err(refused_report(alloc, fault)),
    }
}
