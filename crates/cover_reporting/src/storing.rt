//! What is stored, each where a name is given for it.

ghost use Rattle.std.specs.Prelude.{◌≡◌, ◌++◌, ◌∷◌, [], None, is_some, map, option_copied, option_to_list, IfErr, IfSome, OnOk};
ghost use Rattle.std.specs.List.{flat_map};
ghost use Rattle.cov_types.specs.Limits.{most};
ghost use Rattle.cov_types.specs.declared.limit.LimitName.TheVariants.{SourceBytes};
ghost use Rattle.cov_dat.specs.DataText.{lines_text};
ghost use Rattle.report_text.specs.FileNames.{bad_file_name};
ghost use Rattle.report_text.specs.Info.{info_text};
ghost use Rattle.cov_report.specs.Reports.{ordered, text_options};
ghost use Rattle.command_ending.specs.Stops.{Stops};
ghost use Rattle.cover_answer.specs.Reports.{in_key_order, stored_name};
ghost use Rattle.cover_reports.specs.Sources.{files_for, names_in, refused_from, sources_promise, store_of};

use command_ending::{Ending, Store};
use cov_dat::Merged;
use cov_port::{ByteText, Files, NoMemory};
use cov_report::Report;
use cover_reports::add_annotated;
use std::alloc::Global;

/// Puts this text, to be stored at the name, behind the stores.
fn add_text(
    alloc: Global,
    name: &str,
    text: ByteText,
    stores: &mut Vec<Store>,
) -> Result<(), NoMemory>
    ensures { OnOk result (stores.new.items ≡ stores.old.items ++ (name.now, text) ∷ []) }
{
    let store = Store::new(alloc, name, text)?;
    stores.push(store)?;
    Ok(())
}

/// Puts the merged file behind the stores.
pub(crate) fn add_merged(
    alloc: Global,
    name: Option<&str>,
    merged: &Merged,
    stores: &mut Vec<Store>,
) -> Result<(), NoMemory>
    ensures { OnOk result (stores.new.items ≡ stores.old.items
        ++ map (λ name. (name, lines_text (in_key_order merged.now))) (option_to_list (option_copied name.entry))) }
{
    match name {
        Some(name) => add_text(alloc, name, merged.text(alloc)?, stores),
        None => Ok(()),
    }
}

/// Puts the info file behind the stores.
pub(crate) fn add_info(
    alloc: Global,
    name: Option<&str>,
    report: &Report,
    stores: &mut Vec<Store>,
) -> Result<(), NoMemory>
    ensures { OnOk result (stores.new.items ≡ stores.old.items
        ++ map (λ name. (name, info_text (ordered report.now))) (option_to_list (option_copied name.entry))) }
{
    match name {
        Some(name) => add_text(alloc, name, report.info_text(alloc)?, stores),
        None => Ok(()),
    }
}

/// Puts the annotated files of all sources behind the stores, where a folder is given for them.
pub(crate) fn add_sources<F: Files>(
    alloc: Global,
    files: &mut F,
    report: &Report,
    folder: Option<&str>,
    stores: &mut Vec<Store>,
) -> Result<(), Ending>
    requires annotate { report.now.options.annotate ≡ is_some (option_copied folder) }
    requires names { bad_file_name (files_for report.now.options (ordered report.now)) ≡ None }
    ensures ok { OnOk result (IfSome (F.held files.old) (λ held. stores.new.items ≡ stores.old.items
        ++ flat_map (λ folder. map (store_of held (text_options report.now) (ordered report.now) folder) (files_for report.now.options (ordered report.now)))
        (option_to_list (option_copied folder.entry)))) }
    ensures names { OnOk result (names_in stores.new.items ≡ names_in stores.old.items
        ++ flat_map (λ folder. map (stored_name folder) (files_for report.now.options (ordered report.now))) (option_to_list (option_copied folder.entry))) }
    ensures sound { OnOk result (IfSome (F.held files.old) (λ held.
        refused_from held (ordered report.now) (most SourceBytes) (files_for report.now.options (ordered report.now)) ≡ None)) }
    ensures ok_quiet { OnOk result (F.faults files.new ≡ F.faults files.old) }
    ensures err { IfErr result (Stops (sources_promise (ordered report.now) (most SourceBytes) (files_for report.now.options (ordered report.now)))
        (F.held files.old) (F.faults files.old) (F.faults files.new)) }
    ensures held { F.held files.new ≡ F.held files.old }
{
    match folder {
        Some(folder) => add_annotated(alloc, files, report, folder, stores),
        None => Ok(()),
    }
}
