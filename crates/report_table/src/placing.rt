ghost use Rattle.std.specs.Prelude.{◌≡◌, ◌+◌, ◌≤◌, None, length, IfOk, IfErr, OnOk};
ghost use Rattle.cov_port.specs.Sums.{total};
ghost use Rattle.report_text.specs.Faults.{table_fault, TellsFault};
ghost use Rattle.report_text.specs.Items.{lines_of_range};
ghost use Rattle.report_table.specs.Placing.{bad_line_of, capped, entries_if_placed, run_lengths};
ghost use Rattle.report_table.specs.Seen.{AreRead, IsRead, seen_points};

use crate::data_point::DataPoint;
use cov_dat::field;
use cov_port::{ByteText, LimitName, LineRange, NoMemory, read_lines};
use report_text::ReportFault;
use std::alloc::Global;

/// The most lines of all line lists.
const MOST_ENTRIES: u64 = 67_108_864;

/// Tests that each point of a file tells its line, and that the lines of all line lists aren't too many. It takes memory for the
/// runs of one line list at a time.
pub(crate) fn test_places(alloc: Global, points: &[DataPoint<'_>]) -> Result<(), ReportFault>
    requires read { AreRead points.now }
    ensures sound { OnOk result (table_fault (seen_points points.now) ≡ None) }
    ensures fault { IfErr result (TellsFault (table_fault (seen_points points.now))) }
{
    let mut entries = 0;
    'points: for point in points {
        match point_entries(alloc, point) {
            Ok(Some(more)) => entries = capped_sum(entries, more),
            Ok(None) => return Err(bad_key_line(alloc, point.key)),
            Err(_) => return Err(ReportFault::NoMemory),
        }
    }
    if entries > MOST_ENTRIES {
        return Err(ReportFault::Limit(LimitName::LineEntries));
    }
    Ok(())
}

/// The fault of a badly placed key.
fn bad_key_line(alloc: Global, key: &[u8]) -> ReportFault
    ensures { TellsFault (bad_line_of key.now) result }
{
    match field(key, b"f") {
        Some(file) => match ByteText::from_slice(alloc, file) {
            Ok(file) => ReportFault::BadKeyLine { file },
            Err(_) => ReportFault::NoMemory,
        },
        None => ReportFault::NoMemory,
    }
}

/// How many lines the point counts towards the limit, up to one past it; nothing where its key is badly placed.
fn point_entries(alloc: Global, point: &DataPoint<'_>) -> Result<Option<u64>, NoMemory>
    requires { IsRead point.now }
    ensures { IfOk result (λ entries. entries ≡ entries_if_placed point.now.key.now) }
{
    if point.file().is_none() {
        return Ok(Some(0));
    }
    if point.line().is_none() {
        return Ok(None);
    }
    let Some(text) = point.list() else {
        return Ok(Some(1));
    };
    match read_lines(alloc, text)? {
        Some(runs) => Ok(Some(run_entries(runs.as_slice()))),
        None => Ok(None),
    }
}

/// How many lines these runs have, up to one past the limit.
fn run_entries(runs: &[LineRange]) -> u64
    ensures { result ≡ capped (total (run_lengths runs.now)) }
{
    let mut entries = 0;
    'runs: for run in runs {
        entries = capped_sum(entries, run_length(run));
    }
    entries
}

fn run_length(run: &LineRange) -> u64
    ensures { result ≡ length (lines_of_range run.now) }
{
    (u64::from(run.to) + 1).saturating_sub(u64::from(run.from))
}

fn capped_sum(entries: u64, more: u64) -> u64
    requires { entries ≤ 67108865 }
    ensures { result ≡ capped (entries + more) }
{
    if more > MOST_ENTRIES {
        return MOST_ENTRIES + 1;
    }
    (entries + more).min(MOST_ENTRIES + 1)
}
