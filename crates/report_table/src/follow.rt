ghost use Rattle.std.specs.Prelude.{◌≡◌, ◌<◌, Some, Bool, length, filter, IfOk};
ghost use Rattle.report_table.specs.Chains.{first_at, IsLinked, Rises};
ghost use Rattle.report_table.specs.declared.data_point.DataPoint.{DataPoint};

use crate::data_point::DataPoint;
use std::alloc::{AllocError, Global};

/// The points of a group in their order, from its first on.
pub(crate) fn follow<'a>(
    alloc: Global,
    points: &[DataPoint<'a>],
    next: &[Option<usize>],
    first: usize,
) -> Result<Vec<DataPoint<'a>>, AllocError>
    requires within { first < length points.now }
    requires len { length next.now ≡ length points.now }
    requires rises { Rises next.now (length points.now) }
    ensures { (p : DataPoint → Bool) → IsLinked p points.now next.now 0 → first_at p points.now 0 ≡ Some first
        → IfOk result (λ group. group.items ≡ filter p points.now) }
{
    let mut group = Vec::new(alloc);
    let mut at = Some(first);
    'chain: while let Some(place) = at {
        group.push(points[place])?;
        at = next[place];
    }
    Ok(group)
}
