ghost use Rattle.std.specs.Prelude.{◌≡◌, ◌==◌, ℕ, None, IfOk, OnOk};
ghost use Rattle.std.specs.BTreeMap.{get};
ghost use Rattle.std.specs.List.{list_any, flat_map};
ghost use Rattle.std.specs.Ordering.{nat_cmp};
ghost use Rattle.report_text.specs.Items.{lines_of_point, lines_of_range};
ghost use Rattle.report_table.specs.LineCounts.{offered, has_line, least_at};
ghost use Rattle.report_table.specs.Seen.{AreRead, IsRead, seen_point, seen_points};

use crate::data_point::DataPoint;
use cov_port::{LineRange, NoMemory, read_lines};
use std::alloc::Global;
use std::collections::BTreeMap;

/// The lines that have items of these points, each with the least of their counts.
pub(crate) fn line_counts(
    alloc: Global,
    points: &[DataPoint],
) -> Result<BTreeMap<u32, u64>, NoMemory>
    requires { AreRead points.now }
    ensures { IfOk result (λ counts. (line : ℕ) → get nat_cmp counts line ≡ least_at line (seen_points points.now) None) }
{
    let mut counts = BTreeMap::new(alloc);
    'points: for point in points {
        add_point(alloc, &mut counts, point)?;
    }
    Ok(counts)
}

/// Adds a point as an item of each of its lines.
fn add_point(
    alloc: Global,
    counts: &mut BTreeMap<u32, u64>,
    point: &DataPoint,
) -> Result<(), NoMemory>
    requires { IsRead point.now }
    ensures { OnOk result ((line : ℕ) → get nat_cmp counts.new line ≡ offered (get nat_cmp counts.old line)
        (has_line line (lines_of_point (seen_point point.now))) point.now.count) }
{
    if let Some(line) = point.line() {
        add_line(counts, line, point.count)?;
    }
    let Some(text) = point.list() else {
        return Ok(());
    };
    match read_lines(alloc, text)? {
        Some(runs) => add_runs(counts, runs.as_slice(), point.count),
        None => Ok(()),
    }
}

fn add_runs(counts: &mut BTreeMap<u32, u64>, runs: &[LineRange], count: u64) -> Result<(), NoMemory>
    ensures { OnOk result ((line : ℕ) → get nat_cmp counts.new line ≡ offered (get nat_cmp counts.old line)
        (has_line line (flat_map lines_of_range runs.now)) count) }
{
    'runs: for run in runs {
        add_run(counts, run, count)?;
    }
    Ok(())
}

fn add_run(counts: &mut BTreeMap<u32, u64>, run: &LineRange, count: u64) -> Result<(), NoMemory>
    ensures { OnOk result ((line : ℕ) → get nat_cmp counts.new line ≡ offered (get nat_cmp counts.old line) (has_line line (lines_of_range run.now)) count) }
{
    'lines: for line in u64::from(run.from)..u64::from(run.to) + 1 {
        add_line(counts, line as u32, count)?;
    }
    Ok(())
}

/// Adds an item of a line with its count.
fn add_line(counts: &mut BTreeMap<u32, u64>, line: u32, count: u64) -> Result<(), NoMemory>
    ensures { OnOk result ((q : ℕ) → get nat_cmp counts.new q ≡ offered (get nat_cmp counts.old q) (line == q) count) }
{
    match counts.insert(line, count)? {
        Some(before) if before < count => {
            counts.insert(line, before)?;
            Ok(())
        }
        _ => Ok(()),
    }
}
