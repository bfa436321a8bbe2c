//! The reports, one after the other.

ghost use Rattle.std.specs.Prelude.{◌≡◌, ◌++◌, ℕ, List, None, map, option_to_list, All, Contains, IfOk, IfErr, IfSome, OnOk};
ghost use Rattle.cov_types.specs.Limits.{most};
ghost use Rattle.cov_types.specs.declared.limit.LimitName.TheVariants.{SourceBytes};
ghost use Rattle.cov_words.specs.SeenCommand.{seen_cover};
ghost use Rattle.report_text.specs.FileNames.{bad_file_name};
ghost use Rattle.report_text.specs.Info.{info_text};
ghost use Rattle.cov_report.specs.Reports.{ordered};
ghost use Rattle.command_ending.specs.Stops.{Stops};
ghost use Rattle.cover_answer.specs.CoverPromise.{MayStore};
ghost use Rattle.cover_answer.specs.Reports.{cover_stores, in_key_order, report_refusal, sources_of};
ghost use Rattle.cover_reports.specs.Sources.{names_in, refused_from, sources_promise};
ghost use Rattle.cover_reporting.specs.Reporting.{options_for, reports_promise, stores_behind, total_for};

use crate::asked::{looks_at_lines, prints_total, report_options};
use crate::storing::{add_info, add_merged, add_sources};
use command_ending::{Ending, Store};
use cov_dat::Merged;
use cov_port::{ByteText, Files, NoMemory};
use cov_report::Report;
use cov_words::Cover;
use cover_reports::prepare_report;
use std::alloc::Global;

/// The total line, where it is asked for, and what is to be stored, in order.
///
/// It reads the sources that are annotated, and stores and prints nothing.
pub fn reports<F: Files>(
    alloc: Global,
    files: &mut F,
    asked: &Cover,
    merged: &Merged,
) -> Result<(ByteText, Vec<Store>), Ending>
    ensures total { IfOk result (λ made. made.0 ≡ total_for (seen_cover asked.now) (in_key_order merged.now)) }
    ensures stores { IfOk result (λ made. IfSome (F.held files.old)
        (λ held. made.1.items ≡ cover_stores held (seen_cover asked.now) (in_key_order merged.now))) }
    // Also where files tell no contents.
    ensures names { IfOk result (λ made. (name : List ℕ) → Contains (map (λ (s : List ℕ × List ℕ). s.0) made.1.items) name → MayStore (seen_cover asked.now)
        name) }
    ensures sound { OnOk result (IfSome (F.held files.old) (λ held. report_refusal held (seen_cover asked.now) (in_key_order merged.now) ≡ None)) }
    ensures ok_quiet { OnOk result (F.faults files.new ≡ F.faults files.old) }
    ensures err { IfErr result (Stops (reports_promise (seen_cover asked.now) (in_key_order merged.now)) (F.held files.old) (F.faults files.old)
        (F.faults files.new)) }
    ensures held { F.held files.new ≡ F.held files.old }
{
    let mut stores = Vec::new(alloc);
    match add_merged(alloc, asked.write, merged, &mut stores) {
        Ok(()) => match add_reports(alloc, files, asked, merged, &mut stores) {
            Ok(total) => Ok((total, stores)),
            Err(ending) => Err(ending),
        },
        Err(_) => Err(Ending::NoMemory),
    }
}

/// Puts the info file and the annotated files behind the stores, and gives the total line, each where it is asked for.
fn add_reports<F: Files>(
    alloc: Global,
    files: &mut F,
    asked: &Cover,
    merged: &Merged,
    stores: &mut Vec<Store>,
) -> Result<ByteText, Ending>
    ensures total { IfOk result (λ total. total ≡ total_for (seen_cover asked.now) (in_key_order merged.now)) }
    ensures stores { OnOk result (IfSome (F.held files.old)
        (λ held. stores.new.items ≡ stores_behind held (seen_cover asked.now) (in_key_order merged.now) stores.old.items)) }
    ensures names { OnOk result (All (MayStore (seen_cover asked.now)) (names_in stores.old.items) → All (MayStore (seen_cover asked.now))
        (names_in stores.new.items)) }
    ensures sound { OnOk result (IfSome (F.held files.old) (λ held. report_refusal held (seen_cover asked.now) (in_key_order merged.now) ≡ None)) }
    ensures ok_quiet { OnOk result (F.faults files.new ≡ F.faults files.old) }
    ensures err { IfErr result (Stops (reports_promise (seen_cover asked.now) (in_key_order merged.now)) (F.held files.old) (F.faults files.old)
        (F.faults files.new)) }
    ensures held { F.held files.new ≡ F.held files.old }
{
    if !looks_at_lines(asked) {
        return Ok(ByteText::new(alloc));
    }
    let options = report_options(asked);
    match prepare_report(alloc, merged, &options) {
        Ok(report) => add_prepared(alloc, files, asked, &report, stores),
        Err(ending) => Err(ending),
    }
}

/// The same from a report that is prepared.
fn add_prepared<F: Files>(
    alloc: Global,
    files: &mut F,
    asked: &Cover,
    report: &Report,
    stores: &mut Vec<Store>,
) -> Result<ByteText, Ending>
    requires options { report.now.options ≡ options_for (seen_cover asked.now) }
    requires names { bad_file_name (sources_of (seen_cover asked.now) (ordered report.now)) ≡ None }
    ensures total { IfOk result (λ total. total ≡ total_for (seen_cover asked.now) (ordered report.now)) }
    ensures stores { OnOk result (IfSome (F.held files.old)
        (λ held. stores.new.items ≡ stores_behind held (seen_cover asked.now) (ordered report.now) stores.old.items)) }
    ensures names { OnOk result (All (MayStore (seen_cover asked.now)) (names_in stores.old.items) → All (MayStore (seen_cover asked.now))
        (names_in stores.new.items)) }
    ensures sound { OnOk result (IfSome (F.held files.old)
        (λ held. refused_from held (ordered report.now) (most SourceBytes) (sources_of (seen_cover asked.now) (ordered report.now)) ≡ None)) }
    ensures ok_quiet { OnOk result (F.faults files.new ≡ F.faults files.old) }
    ensures err { IfErr result (Stops (sources_promise (ordered report.now) (most SourceBytes) (sources_of (seen_cover asked.now) (ordered report.now)))
        (F.held files.old) (F.faults files.old) (F.faults files.new)) }
    ensures held { F.held files.new ≡ F.held files.old }
{
    match add_texts(alloc, asked, report, stores) {
        Ok(total) => match add_sources(alloc, files, report, asked.annotate, stores) {
            Ok(()) => Ok(total),
            Err(ending) => Err(ending),
        },
        Err(_) => Err(Ending::NoMemory),
    }
}

/// Puts the info file behind the stores, and gives the total line, each where it is asked for.
fn add_texts(
    alloc: Global,
    asked: &Cover,
    report: &Report,
    stores: &mut Vec<Store>,
) -> Result<ByteText, NoMemory>
    requires { report.now.options ≡ options_for (seen_cover asked.now) }
    ensures total { IfOk result (λ total. total ≡ total_for (seen_cover asked.now) (ordered report.now)) }
    ensures stores { OnOk result (stores.new.items ≡ stores.old.items
        ++ map (λ name. (name, info_text (ordered report.now))) (option_to_list (seen_cover asked.now).write_info)) }
{
    add_info(alloc, asked.write_info, report, stores)?;
    if prints_total(asked) {
        report.total_text(alloc)
    } else {
        Ok(ByteText::new(alloc))
    }
}
