ghost use Rattle.std.specs.Prelude.{◌≡◌, ℕ, length, IfOk};
ghost use Rattle.std.specs.BTreeMap.{get};
ghost use Rattle.std.specs.Ordering.{nat_cmp};
ghost use Rattle.report_table.specs.Chains.{first_at, IsLinked, Rises};
ghost use Rattle.report_table.specs.Groups.{at_line};
ghost use Rattle.report_table.specs.Seen.{AreRead};

use crate::data_point::DataPoint;
use std::alloc::{AllocError, Global};
use std::collections::BTreeMap;

/// The points of a file by their own lines: the place of the first of each line, and at each place that of the next of the same line.
#[derive(Drop)]
pub(crate) struct LineGroups {
    pub(crate) first: BTreeMap<u32, usize>,
    pub(crate) next: Vec<Option<usize>>,
}

pub(crate) fn line_groups(alloc: Global, points: &[DataPoint]) -> Result<LineGroups, AllocError>
    requires read { AreRead points.now }
    ensures first { IfOk result (λ groups. (line : ℕ) → get nat_cmp groups.first line ≡ first_at (at_line line) points.now 0) }
    ensures linked { IfOk result (λ groups. (line : ℕ) → IsLinked (at_line line) points.now groups.next.items 0) }
    ensures rises { IfOk result (λ groups. Rises groups.next.items (length points.now)) }
    ensures len { IfOk result (λ groups. length groups.next.items ≡ length points.now) }
{
    let mut first = BTreeMap::new(alloc);
    let mut next = vec![in alloc; None; points.len()]?;
    let mut left = points.len();
    'points: while left > 0 {
        left -= 1;
        if let Some(line) = points[left].line() {
            next[left] = first.insert(line, left)?;
        }
    }
    Ok(LineGroups { first, next })
}
