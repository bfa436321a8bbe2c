ghost use Rattle.std.specs.Prelude.{Contains, IfOk};
ghost use Rattle.std.specs.List.Sorted.{IsNonDecreasing};
ghost use Rattle.cov_types.specs.LineLists.{IsLineListOf};

use cov_types::{LineRange, NoMemory, Rows};
use std::alloc::Global;

/// The runs of lines that don't descend.
fn runs_of(alloc: Global, lines: &[u32]) -> Result<Rows<LineRange>, NoMemory>
    ensures { IsNonDecreasing lines.now → IfOk result (IsLineListOf (Contains lines.now)) }
{
    let mut runs = Rows::new(alloc);
    let Some(parts) = lines.split_first() else {
        return Ok(runs);
    };
    let mut open = LineRange {
        from: *parts.0,
        to: *parts.0,
    };
    for line in parts.1 {
        if line.saturating_sub(open.to) > 1 {
            runs.push(open)?;
            open.from = *line;
        }
        open.to = *line;
    }
    runs.push(open)?;
    Ok(runs)
}

/// The line list of a set of lines, which may stand in any order, and more than once.
pub fn line_list(alloc: Global, mut lines: Vec<u32>) -> Result<Rows<LineRange>, NoMemory>
    ensures { IfOk result (IsLineListOf (Contains lines.items)) }
{
    lines.sort_unstable();
    runs_of(alloc, lines.as_slice())
}
