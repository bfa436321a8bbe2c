//! The annotated sources, one after the other, to be stored.

ghost use Rattle.std.specs.Prelude.{◌≡◌, ◌<◌, ◌≤◌, ◌++◌, ◌∷◌, [], true, None, map, length, get_or, IfOk, IfErr, IfSome, OnOk};
ghost use Rattle.std.specs.Str.{is_utf8};
ghost use Rattle.cov_types.specs.Limits.{most};
ghost use Rattle.cov_types.specs.declared.limit.LimitName.TheVariants.{SourceBytes};
ghost use Rattle.report_text.specs.FileNames.{bad_file_name};
ghost use Rattle.cov_report.specs.Reports.{files_annotated, ordered, text_options};
ghost use Rattle.command_ending.specs.Stops.{Stops};
ghost use Rattle.cover_answer.specs.Reports.{stored_name as name_of};
ghost use Rattle.cover_reports.specs.Sources.{annotating_promise, names_in, refused_from, sources_promise, store_of, IsStored};

use crate::annotated::annotated_source;
use crate::base::stored_name;
use command_ending::{Ending, Store};
use cov_port::{ByteText, Files, LimitName, NoMemory};
use cov_report::Report;
use std::alloc::Global;
use std::str;

/// A good name as text.
fn text_of(name: &[u8]) -> &str
    requires { is_utf8 name.now ≡ true }
    ensures { result.now ≡ name.now }
{
    match str::from_utf8(name) {
        Ok(text) => text,
        Err(_) => "",
    }
}

/// This annotated text of a source, to be stored in the folder.
fn store_in(alloc: Global, folder: &str, file: &str, text: ByteText) -> Result<Store, NoMemory>
    ensures { IfOk result (λ store. store ≡ (name_of folder.now file.now, text)) }
{
    let name = stored_name(alloc, folder, file)?;
    Store::new(alloc, name.as_str(), text)
}

/// Puts the annotated file of the source with this number behind the stores, and gives how many bytes are left to the sources behind it.
fn add_store<F: Files>(
    alloc: Global,
    files: &mut F,
    report: &Report,
    folder: &str,
    file: u32,
    left: u64,
    stores: &mut Vec<Store>,
) -> Result<u64, Ending>
    requires number { file < length (files_annotated report.now) }
    requires names { bad_file_name (files_annotated report.now) ≡ None }
    requires left { left ≤ most SourceBytes }
    ensures ok { IfOk result (λ rest. IfSome (F.held files.old) (λ held.
        IsStored held (text_options report.now) (ordered report.now) folder.now (get_or (files_annotated report.now) file [])
        left stores.old.items stores.new.items rest)) }
    ensures names { OnOk result (names_in stores.new.items ≡ names_in stores.old.items ++ name_of folder.now (get_or (files_annotated report.now) file []) ∷
        []) }
    ensures within { IfOk result (λ rest. rest ≤ left) }
    ensures ok_quiet { OnOk result (F.faults files.new ≡ F.faults files.old) }
    ensures err { IfErr result (Stops (annotating_promise (ordered report.now) left (get_or (files_annotated report.now) file []))
        (F.held files.old) (F.faults files.old) (F.faults files.new)) }
    ensures held { F.held files.new ≡ F.held files.old }
{
    let name = text_of(report.annotated_files().as_slice()[file as usize].as_slice());
    match annotated_source(alloc, files, report, file, name, left) {
        Ok((text, rest)) => match put_store(alloc, folder, name, text, stores) {
            Ok(()) => Ok(rest),
            Err(_) => Err(Ending::NoMemory),
        },
        Err(ending) => Err(ending),
    }
}

/// Puts this annotated text of a source behind the stores.
fn put_store(
    alloc: Global,
    folder: &str,
    file: &str,
    text: ByteText,
    stores: &mut Vec<Store>,
) -> Result<(), NoMemory>
    ensures { OnOk result (stores.new.items ≡ stores.old.items ++ (name_of folder.now file.now, text) ∷ []) }
{
    let store = store_in(alloc, folder, file, text)?;
    stores.push(store)?;
    Ok(())
}

/// Puts the annotated files of all sources, to be stored in the folder, behind the stores.
pub fn add_annotated<F: Files>(
    alloc: Global,
    files: &mut F,
    report: &Report,
    folder: &str,
    stores: &mut Vec<Store>,
) -> Result<(), Ending>
    requires { bad_file_name (files_annotated report.now) ≡ None }
    ensures ok { OnOk result (IfSome (F.held files.old) (λ held.
        stores.new.items ≡ stores.old.items ++ map (store_of held (text_options report.now) (ordered report.now) folder.now) (files_annotated report.now))) }
    ensures names { OnOk result (names_in stores.new.items ≡ names_in stores.old.items ++ map (name_of folder.now) (files_annotated report.now)) }
    ensures sound { OnOk result (IfSome (F.held files.old) (λ held.
        refused_from held (ordered report.now) (most SourceBytes) (files_annotated report.now) ≡ None)) }
    ensures ok_quiet { OnOk result (F.faults files.new ≡ F.faults files.old) }
    ensures err { IfErr result (Stops (sources_promise (ordered report.now) (most SourceBytes) (files_annotated report.now))
        (F.held files.old) (F.faults files.old) (F.faults files.new)) }
    ensures held { F.held files.new ≡ F.held files.old }
{
    let count = match u32::try_from(report.annotated_files().len()) {
        Ok(count) => count,
        Err(_) => return Err(Ending::NoMemory),
    };
    let mut left = LimitName::SourceBytes.most();
    'sources: for file in 0..count {
        match add_store(alloc, files, report, folder, file, left, stores) {
            Ok(rest) => left = rest,
            Err(ending) => return Err(ending),
        }
    }
    Ok(())
}
