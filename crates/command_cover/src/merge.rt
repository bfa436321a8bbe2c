//! The merge of data files.

ghost use Rattle.std.specs.Prelude.{◌≡◌, [], ◌∷◌, map, Ok, IfOk, IfErr, IfSome, OnOk};
ghost use Rattle.cov_dat.specs.DataText.{count_map, data_text};
ghost use Rattle.cov_dat.specs.Merging.{Counts};
ghost use Rattle.command_ending.specs.Ending.{line_at, status_at};
ghost use Rattle.command_ending.specs.Leaves.{Leaves};
ghost use Rattle.command_ending.specs.Stops.{Stops};
ghost use Rattle.command_ending.specs.World.{world};
ghost use Rattle.command_cover.specs.CoverReading.{all_arrivals};
ghost use Rattle.command_cover.specs.Merge.{keeps_all, merge_to};
ghost use Rattle.command_cover.specs.MergePromise.{merge_promise};
ghost use Rattle.command_cover.specs.Sparing.{IsSparing};
ghost use Rattle.command_cover.specs.Steps.{continued, files_promise};

use crate::reading::add_files;
use command_ending::{Ending, Store, are_too_many, finish, over_limit};
use cov_dat::{Merged, adding_gives_the_sums};
use cov_port::{Files, LimitName, NoMemory, Sink};
use std::alloc::Global;

/// Merges the data files, and stores the merged file at the name.
pub fn merge_files<F: Files, O: Sink>(
    alloc: Global,
    files: &mut F,
    out: &mut O,
    name: &str,
    names: &[&str],
) -> Ending
    ensures leaves { Leaves (merge_promise (merge_to name.now (map (λ name. name.now) names.now))) (line_at result)
        (world (F.held files.old) (F.faults files.old) (O.written out.old) (O.faults out.old))
        (world (F.held files.new) (F.faults files.new) (O.written out.new) (O.faults out.new)) (status_at result) }

    // Of a file that is refused at a line no more is taken than the lines before it and one buffer.
    ensures sparing { IsSparing (map (λ name. name.now) names.now) (status_at result) (line_at result) (F.rest files.new) (F.held files.old) }
{
    adding_gives_the_sums();
    if are_too_many(names) {
        return over_limit(alloc, LimitName::Files);
    }
    match merged_file(alloc, files, name, names) {
        Ok(stores) => finish(files, out, b"", stores),
        Err(ending) => ending,
    }
}

/// Reads the data files, and gives the merged file, to be stored at the name.
fn merged_file<F: Files>(
    alloc: Global,
    files: &mut F,
    name: &str,
    names: &[&str],
) -> Result<Vec<Store>, Ending>
    ensures ok { IfOk result (λ stores. (counts : Counts) × (stores.items ≡ (name.now, data_text (count_map counts)) ∷ [])
        × IfSome (F.held files.old) (λ held. continued [] (all_arrivals held keeps_all (map (λ name. name.now) names.now)) ≡ Ok counts)) }
    ensures ok_quiet { OnOk result (F.faults files.new ≡ F.faults files.old) }
    ensures err { IfErr result (Stops (files_promise [] (map (λ name. name.now) names.now)) (F.held files.old) (F.faults files.old) (F.faults files.new)) }
    ensures sparing { IfErr result
        (λ ending. IsSparing (map (λ name. name.now) names.now) (status_at ending) (line_at ending) (F.rest files.new) (F.held files.old)) }
    ensures held { F.held files.new ≡ F.held files.old }
{
    let mut merged = match Merged::new(alloc) {
        Ok(merged) => merged,
        Err(_) => return Err(Ending::NoMemory),
    };
    match add_files(alloc, files, names, &mut merged) {
        Ok(()) => match stores_of(alloc, name, &merged) {
            Ok(stores) => Ok(stores),
            Err(_) => Err(Ending::NoMemory),
        },
        Err(ending) => Err(ending),
    }
}

/// The file of the counts, to be stored at the name.
fn stores_of(alloc: Global, name: &str, merged: &Merged) -> Result<Vec<Store>, NoMemory>
    ensures { IfOk result (λ stores. stores.items ≡ (name.now, data_text (count_map merged.now)) ∷ []) }
{
    let text = merged.text(alloc)?;
    let store = Store::new(alloc, name, text)?;
    let mut stores = Vec::new(alloc);
    stores.push(store)?;
    Ok(stores)
}
