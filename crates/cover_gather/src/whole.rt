//! What all data files come to.

ghost use Rattle.std.specs.Prelude.{◌≡◌, map, IfOk, OnOk, IfErr, IfSome, option_copied};
ghost use Rattle.command_ending.specs.Ending.{line_at, status_at};
ghost use Rattle.command_ending.specs.Stops.{Stops};
ghost use Rattle.command_cover.specs.CoverReading.{all_arrivals};
ghost use Rattle.command_cover.specs.Sparing.{IsSparing};
ghost use Rattle.cover_answer.specs.Gathering.{keeps};
ghost use Rattle.cover_gather.specs.Gather.{IsGatheredTo, gather_promise};

use crate::reading::add_files;
use crate::tally::{Gathered, Tally};
use command_ending::Ending;
use cov_dat::adding_gives_the_sums;
use cov_port::Files;
use std::alloc::Global;

/// Reads the data files in order, line by line, and merges the records that the filter keeps; without one, all.
///
/// Where tests are ranked it also gives the points that each file covers, and tests their limit at the end of each file.
pub fn gather<F: Files>(
    alloc: Global,
    files: &mut F,
    names: &[&str],
    filter: Option<&str>,
    ranks: bool,
) -> Result<Gathered, Ending>
    ensures ok { IfOk result (λ all. IfSome (F.held files.old) (λ held.
        IsGatheredTo ranks (all_arrivals held (keeps (option_copied filter.entry)) (map (λ name. name.now) names.now)) all.merged all.covers)) }
    ensures ok_quiet { OnOk result (F.faults files.new ≡ F.faults files.old) }
    ensures err { IfErr result (Stops (gather_promise ranks (option_copied filter.entry) (map (λ name. name.now) names.now)) (F.held files.old)
        (F.faults files.old)
        (F.faults files.new)) }

    // Of a file that is refused at a line no more is taken than the lines before it and one buffer.
    ensures sparing { IfErr result
        (λ ending. IsSparing (map (λ name. name.now) names.now) (status_at ending) (line_at ending) (F.rest files.new) (F.held files.old)) }
    ensures held { F.held files.new ≡ F.held files.old }
{
    adding_gives_the_sums();
    let mut tally = match Tally::new(alloc) {
        Ok(tally) => tally,
        Err(_) => return Err(Ending::NoMemory),
    };
    match add_files(alloc, files, names, filter, ranks, &mut tally) {
        Ok(()) => Ok(tally.into_gathered()),
        Err(ending) => Err(ending),
    }
}
