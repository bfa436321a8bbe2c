ghost use Rattle.std.specs.Prelude.{◌≡◌, ◌≤◌, length, map, take, drop};
ghost use Rattle.report_lines.specs.Walks.{lines_behind as behind, points_behind, points_here};
ghost use Rattle.report_text.specs.Tables.{seen_point};

use report_text::{CountedLine, LinePoint};

/// How many points at the front stand at this line.
pub(crate) fn count_here(points: &[LinePoint<'_>], line: usize) -> usize
    ensures within { result ≤ length points.now }
    ensures here { map seen_point (take result points.now) ≡ points_here line (map seen_point points.now) }
    ensures behind { map seen_point (drop result points.now) ≡ points_behind line (map seen_point points.now) }
{
    let mut at = 0;
    'points: while at < points.len() && points[at].line as usize == line {
        at += 1;
    }
    at
}

/// The lines with items behind this line.
pub(crate) fn lines_behind(lines: &[CountedLine], line: usize) -> &[CountedLine]
    ensures { result.now ≡ behind line lines.now }
{
    if lines.is_empty() || lines[0].line as usize != line {
        return lines;
    }
    &lines[1..]
}
