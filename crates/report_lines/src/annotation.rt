ghost use Rattle.std.specs.Prelude.{◌≡◌, ℕ, List, ◌++◌, map, IfOk, OnOk};
ghost use Rattle.cov_dat.specs.Merging.{Counts};
ghost use Rattle.report_lines.specs.Walks.{points_text, source_text};
ghost use Rattle.report_text.specs.Annotation.{Options, annotated_text};
ghost use Rattle.report_text.specs.Tables.{seen_point, seen_table, table_of};

use crate::piece::{push_counted_line, push_plain_line, push_point_line};
use crate::walk::{count_here, lines_behind};
use cov_port::{ByteText, NoMemory, cut_line};
use report_text::{CountedLine, FileTable, LinePoint};
use std::alloc::{AllocError, Global};

const HEADER: &[u8] = b"\t// vcov annotation\n";

/// The text of a file's annotated source. Where `with_points` is set, points stand behind their own lines.
pub fn annotated(
    alloc: Global,
    table: &FileTable<'_>,
    minimum: u64,
    with_points: bool,
    source: &[u8],
) -> Result<ByteText, NoMemory>
    ensures { (counts : Counts) (file : List ℕ) (options : Options) → seen_table table.now ≡ table_of counts file
        → options.minimum ≡ minimum → options.points ≡ with_points
        → IfOk result (λ text. text ≡ annotated_text options counts file source.now) }
{
    let mut text = Vec::from_slice(alloc, HEADER)?;
    let mut lines = table.lines.as_slice();
    let mut points = table.points.as_slice();
    let mut rest = source;
    let mut number = 0;
    'lines: while !rest.is_empty() {
        let cut = cut_line(rest);
        number += 1;
        push_source_line(&mut text, minimum, lines, number, cut.line)?;
        let here = count_here(points, number);
        push_points(&mut text, with_points, minimum, &points[..here])?;
        lines = lines_behind(lines, number);
        points = &points[here..];
        rest = cut.rest;
    }
    Ok(ByteText::from_vec(text))
}

/// Puts a source line at the end, with its count where the first of the lines with items is this one.
fn push_source_line(
    text: &mut Vec<u8>,
    minimum: u64,
    lines: &[CountedLine],
    number: usize,
    bytes: &[u8],
) -> Result<(), AllocError>
    ensures { OnOk result (text.new.items ≡ text.old.items ++ source_text minimum lines.now number bytes.now) }
{
    if lines.is_empty() || lines[0].line as usize != number {
        return push_plain_line(text, bytes);
    }
    let count = lines[0].count;
    push_counted_line(text, count < minimum, count, bytes)
}

/// Puts points as lines at the end, where they are wanted.
fn push_points(
    text: &mut Vec<u8>,
    wanted: bool,
    minimum: u64,
    points: &[LinePoint<'_>],
) -> Result<(), AllocError>
    ensures { OnOk result (text.new.items ≡ text.old.items ++ points_text wanted minimum (map seen_point points.now)) }
{
    if !wanted {
        return Ok(());
    }
    'points: for point in points {
        push_point_line(text, minimum, point.key, point.count)?;
    }
    Ok(())
}
