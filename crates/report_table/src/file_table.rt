ghost use Rattle.std.specs.Prelude.{◌≡◌, ◌++◌, ℕ, length, map, IfOk, OnOk};
ghost use Rattle.std.specs.BTreeMap.{get, IsOrdered};
ghost use Rattle.std.specs.Ordering.{nat_cmp};
ghost use Rattle.report_table.specs.Chains.{first_at, IsLinked, Rises};
ghost use Rattle.report_table.specs.Groups.{at_line};
ghost use Rattle.std.specs.List.{flat_map};
ghost use Rattle.report_text.specs.Tables.{placed_at, seen_table};
ghost use Rattle.report_table.specs.FileTables.{counted_in, lines_table, numbers_of, placed_in, seen_placed, table_of_points};
ghost use Rattle.report_table.specs.Seen.{AreRead, seen_points};

use crate::data_point::DataPoint;
use crate::follow::follow;
use crate::line_counts::line_counts;
use crate::line_groups::{LineGroups, line_groups};
use cov_port::NoMemory;
use report_text::{CountedLine, FileTable, LinePoint};
use std::alloc::{AllocError, Global};
use std::collections::BTreeMap;

/// The table of a file with these points.
pub(crate) fn file_table<'a>(
    alloc: Global,
    name: &'a [u8],
    points: &[DataPoint<'a>],
) -> Result<FileTable<'a>, NoMemory>
    requires { AreRead points.now }
    ensures { IfOk result (λ table. seen_table table ≡ table_of_points name.now (seen_points points.now)) }
{
    let lines = counted_lines(alloc, points)?;
    let points = line_points(alloc, lines.as_slice(), points)?;
    Ok(FileTable {
        name,
        lines,
        points,
    })
}

/// The lines with their counts, ascending.
fn counted_lines(alloc: Global, points: &[DataPoint]) -> Result<Vec<CountedLine>, NoMemory>
    requires { AreRead points.now }
    ensures { IfOk result (λ lines. lines.items ≡ lines_table (seen_points points.now)) }
{
    let counts = line_counts(alloc, points)?;
    Ok(listed(alloc, &counts)?)
}

fn listed(alloc: Global, counts: &BTreeMap<u32, u64>) -> Result<Vec<CountedLine>, AllocError>
    ensures lines { IfOk result (λ lines. lines.items ≡ counted_in counts.now.entries) }
    ensures ordered { IsOrdered nat_cmp counts.now }
{
    let mut lines = Vec::with_capacity(alloc, counts.len())?;
    for (line, count) in counts {
        lines.push(CountedLine {
            line: *line,
            count: *count,
        })?;
    }
    Ok(lines)
}

/// The points at these lines, line by line.
fn line_points<'a>(
    alloc: Global,
    lines: &[CountedLine],
    points: &[DataPoint<'a>],
) -> Result<Vec<LinePoint<'a>>, AllocError>
    requires { AreRead points.now }
    ensures { IfOk result (λ placed. seen_placed placed.items ≡ flat_map (placed_in (seen_points points.now)) (numbers_of lines.now)) }
{
    let groups = line_groups(alloc, points)?;
    let mut placed = Vec::new(alloc);
    'lines: for line in lines {
        push_line(alloc, &mut placed, points, &groups, line.line)?;
    }
    Ok(placed)
}

/// Puts the points whose own line this is at the end.
fn push_line<'a>(
    alloc: Global,
    placed: &mut Vec<LinePoint<'a>>,
    points: &[DataPoint<'a>],
    groups: &LineGroups,
    line: u32,
) -> Result<(), AllocError>
    requires first { (line : ℕ) → get nat_cmp groups.now.first line ≡ first_at (at_line line) points.now 0 }
    requires linked { (line : ℕ) → IsLinked (at_line line) points.now groups.now.next.items 0 }
    requires rises { Rises groups.now.next.items (length points.now) }
    requires len { length groups.now.next.items ≡ length points.now }
    ensures { OnOk result (seen_placed placed.new.items ≡ seen_placed placed.old.items ++ placed_in (seen_points points.now) line) }
{
    let Some(first) = groups.first.get(&line) else {
        return Ok(());
    };
    let group = follow(alloc, points, groups.next.as_slice(), *first)?;
    push_points(placed, line, group.as_slice())
}

fn push_points<'a>(
    placed: &mut Vec<LinePoint<'a>>,
    line: u32,
    points: &[DataPoint<'a>],
) -> Result<(), AllocError>
    ensures { OnOk result (seen_placed placed.new.items ≡ seen_placed placed.old.items ++ map (placed_at line) (seen_points points.now)) }
{
    'points: for point in points {
        placed.push(LinePoint {
            line,
            key: point.key,
            count: point.count,
        })?;
    }
    Ok(())
}
