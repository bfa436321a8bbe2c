ghost use Rattle.std.specs.Prelude.{◌≡◌, ◌++◌, map, IfOk, OnOk};
ghost use Rattle.cov_dat.specs.Merging.{Counts};
ghost use Rattle.report_lines.specs.Walks.{branches_from, branches_text, counts_text, table_text};
ghost use Rattle.report_text.specs.Info.{info_text as info_of};
ghost use Rattle.report_text.specs.Tables.{seen_point, seen_table, seen_tables, tables_of};

use crate::fields::is_branch;
use crate::info_line::{push_branch_line, push_count_line};
use crate::walk::count_here;
use cov_port::{ByteText, NoMemory};
use report_text::{CountedLine, FileTable, LinePoint};
use std::alloc::{AllocError, Global};

const HEADER: &[u8] = b"TN:vcov\n";

/// The info file of all files with points.
pub fn info_text(alloc: Global, tables: &[FileTable<'_>]) -> Result<ByteText, NoMemory>
    ensures { (counts : Counts) → seen_tables tables.now ≡ tables_of counts → IfOk result (λ text. text ≡ info_of counts) }
{
    let mut text = Vec::from_slice(alloc, HEADER)?;
    'files: for table in tables {
        push_file(&mut text, table)?;
    }
    Ok(ByteText::from_vec(text))
}

fn push_file(text: &mut Vec<u8>, table: &FileTable<'_>) -> Result<(), AllocError>
    ensures { OnOk result (text.new.items ≡ text.old.items ++ table_text (seen_table table.now)) }
{
    text.extend_from_slice(b"SF:")?;
    text.extend_from_slice(table.name)?;
    text.extend_from_slice(b"\n")?;
    push_counts(text, &table.lines)?;
    push_branches(text, &table.lines, &table.points)?;
    text.extend_from_slice(b"end_of_record\n")
}

fn push_counts(text: &mut Vec<u8>, lines: &[CountedLine]) -> Result<(), AllocError>
    ensures { OnOk result (text.new.items ≡ text.old.items ++ counts_text lines.now) }
{
    'lines: for line in lines {
        push_count_line(text, line.line, line.count)?;
    }
    Ok(())
}

fn push_branches(
    text: &mut Vec<u8>,
    lines: &[CountedLine],
    points: &[LinePoint<'_>],
) -> Result<(), AllocError>
    ensures { OnOk result (text.new.items ≡ text.old.items ++ branches_text lines.now (map seen_point points.now)) }
{
    let mut rest = points;
    'lines: for line in lines {
        let here = count_here(rest, line.line as usize);
        push_branches_at(text, line.line, &rest[..here])?;
        rest = &rest[here..];
    }
    Ok(())
}

/// Puts a line for each branch point among the points of a line, numbered from 0.
fn push_branches_at(
    text: &mut Vec<u8>,
    line: u32,
    points: &[LinePoint<'_>],
) -> Result<(), AllocError>
    ensures { OnOk result (text.new.items ≡ text.old.items ++ branches_from 0 line (map seen_point points.now)) }
{
    let mut number = 0;
    'points: for point in points {
        if is_branch(point.key) {
            push_branch_line(text, line, number, point.count)?;
            number += 1;
        }
    }
    Ok(())
}
