//! All that a `cover` prints and stores.

ghost use Rattle.std.specs.Prelude.{◌≡◌, ◌≤◌, ℕ, List, length, map, Contains, IfOk, IfErr, IfSome, OnOk};
ghost use Rattle.cov_types.specs.Limits.{most};
ghost use Rattle.cov_types.specs.declared.limit.LimitName.TheVariants.{Files as files_limit};
ghost use Rattle.cov_words.specs.SeenCommand.{seen_cover};
ghost use Rattle.command_ending.specs.Answer.{done};
ghost use Rattle.command_ending.specs.Ending.{status_at};
ghost use Rattle.command_ending.specs.Stops.{Stops};
ghost use Rattle.cover_answer.specs.CoverAnswer.{IsCoverAnswer};
ghost use Rattle.cover_answer.specs.CoverPromise.{MayStore, cover_promise};
ghost use Rattle.cover_files.specs.Sparing.{CoverSpares};

use crate::table::printed;
use command_ending::{Ending, Store};
use cov_port::{ByteText, Files};
use cov_words::Cover;
use cover_gather::gather;
use cover_reporting::reports;
use std::alloc::Global;

/// What is printed, and what is stored, in order. The data files and then the sources are read, and nothing is stored or printed yet.
pub(crate) fn made_texts<F: Files>(
    alloc: Global,
    files: &mut F,
    asked: &Cover,
    names: &[&str],
) -> Result<(ByteText, Vec<Store>), Ending>
    requires few { length names.now ≤ most files_limit }
    requires names { map (λ name. name.now) names.now ≡ (seen_cover asked.now).files }
    ensures ok { IfOk result (λ made. IfSome (F.held files.old) (λ held. IsCoverAnswer held (seen_cover asked.now) (done made.0 made.1.items))) }
    ensures stores { IfOk result (λ made. (name : List ℕ) → Contains (map (λ (s : List ℕ × List ℕ). s.0) made.1.items) name → MayStore (seen_cover asked.now)
        name) }
    ensures ok_quiet { OnOk result (F.faults files.new ≡ F.faults files.old) }
    ensures err { IfErr result (Stops (cover_promise (seen_cover asked.now)) (F.held files.old) (F.faults files.old) (F.faults files.new)) }
    ensures sparing { IfErr result (λ ending. IfSome (F.held files.old) (CoverSpares (seen_cover asked.now) (status_at ending) (F.rest files.new))) }
    ensures held { F.held files.new ≡ F.held files.old }
{
    match gather(alloc, files, names, asked.filter_type, asked.rank) {
        Ok(gathered) => match reports(alloc, files, asked, &gathered.merged) {
            Ok((total, stores)) => {
                match printed(alloc, asked.rank, &gathered.covers, names, total) {
                    Ok(text) => Ok((text, stores)),
                    Err(_) => Err(Ending::NoMemory),
                }
            }
            Err(ending) => Err(ending),
        },
        Err(ending) => Err(ending),
    }
}
