ghost use Rattle.std.specs.Prelude.{◌≡◌, ℕ, List, length};
ghost use Rattle.cov_dat.specs.Merging.{Counts};
ghost use Rattle.cov_port.specs.Lines.{lines_of};
ghost use Rattle.report_text.specs.Annotation.{short_source as short_of};
ghost use Rattle.report_text.specs.Tables.{seen_table, table_of};

use cov_port::cut_line;
use report_text::FileTable;

/// The number of the source's lines, where it lacks a line with items. It takes no memory.
pub fn short_source(table: &FileTable<'_>, source: &[u8]) -> Option<u32>
    ensures { (counts : Counts) (file : List ℕ) → seen_table table.now ≡ table_of counts file → result ≡ short_of counts file source.now }
{
    let lines = count_lines(source);
    'lines: for line in &table.lines {
        if lines < line.line as usize {
            return Some(lines as u32);
        }
    }
    None
}

/// The number of a text's lines.
fn count_lines(text: &[u8]) -> usize
    ensures { result ≡ length (lines_of text.now) }
{
    let mut lines = 0;
    let mut rest = text;
    'lines: while !rest.is_empty() {
        rest = cut_line(rest).rest;
        lines += 1;
    }
    lines
}
