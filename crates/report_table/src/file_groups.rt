ghost use Rattle.std.specs.Prelude.{◌≡◌, ℕ, List, length, IfOk};
ghost use Rattle.std.specs.Borrow.{Bor};
ghost use Rattle.std.specs.BTreeMap.{get};
ghost use Rattle.report_text.specs.Items.{files_of};
ghost use Rattle.report_table.specs.Chains.{first_at, IsLinked, Rises};
ghost use Rattle.report_table.specs.Seen.{AreRead, by_bytes, names_in, seen_points};
ghost use Rattle.report_table.specs.Groups.{of_file};

use crate::data_point::DataPoint;
use std::alloc::{AllocError, Global};
use std::collections::BTreeMap;

/// The points of each file: the place of its first, and at each place that of the next point of the same file.
#[derive(Drop)]
pub(crate) struct FileGroups<'a> {
    pub(crate) first: BTreeMap<&'a [u8], usize>,
    pub(crate) next: Vec<Option<usize>>,
}

pub(crate) fn file_groups<'a>(
    alloc: Global,
    points: &[DataPoint<'a>],
) -> Result<FileGroups<'a>, AllocError>
    requires read { AreRead points.now }
    ensures names { IfOk result (λ groups. names_in groups.first.entries ≡ files_of (seen_points points.now)) }
    ensures first { IfOk result (λ groups. (file : Bor (List ℕ)) → get by_bytes groups.first file ≡ first_at (of_file file.now) points.now 0) }
    ensures linked { IfOk result (λ groups. (file : List ℕ) → IsLinked (of_file file) points.now groups.next.items 0) }
    ensures rises { IfOk result (λ groups. Rises groups.next.items (length points.now)) }
    ensures len { IfOk result (λ groups. length groups.next.items ≡ length points.now) }
{
    let mut first = BTreeMap::new(alloc);
    let mut next = vec![in alloc; None; points.len()]?;
    let mut left = points.len();
    'points: while left > 0 {
        left -= 1;
        if let Some(file) = points[left].file() {
            next[left] = first.insert(file, left)?;
        }
    }
    Ok(FileGroups { first, next })
}
