ghost use Rattle.std.specs.Prelude.{◌≡◌, IfOk};
ghost use Rattle.std.specs.FinMap.{entries};
ghost use Rattle.cov_dat.specs.DataText.{count_map};
ghost use Rattle.report_table.specs.Seen.{AreRead, seen_points, seen_sorted};

use crate::data_point::DataPoint;
use cov_dat::Merged;
use std::alloc::{AllocError, Global};
use std::collections::BTreeMap;

/// The points in byte order of keys.
pub(crate) fn ordered(alloc: Global, merged: &Merged) -> Result<Vec<DataPoint<'_>>, AllocError>
    ensures points { IfOk result (λ points. seen_points points.items ≡ entries (count_map merged.now)) }
    ensures read { IfOk result (λ points. AreRead points.items) }
{
    let sorted = sorted(alloc, merged)?;
    listed(alloc, &sorted)
}

fn sorted(alloc: Global, merged: &Merged) -> Result<BTreeMap<&[u8], u64>, AllocError>
    ensures { IfOk result (λ sorted. seen_sorted sorted.entries ≡ entries (count_map merged.now)) }
{
    let mut sorted = BTreeMap::new(alloc);
    let mut left = merged.len();
    'keys: while left > 0 {
        left -= 1;
        sorted.insert(merged.key_at(left), merged.count_at(left))?;
    }
    Ok(sorted)
}

fn listed<'a>(
    alloc: Global,
    sorted: &BTreeMap<&'a [u8], u64>,
) -> Result<Vec<DataPoint<'a>>, AllocError>
    ensures points { IfOk result (λ points. seen_points points.items ≡ seen_sorted sorted.now.entries) }
    ensures read { IfOk result (λ points. AreRead points.items) }
{
    let mut points = Vec::new(alloc);
    for (key, count) in sorted {
        points.push(DataPoint::new(*key, *count))?;
    }
    Ok(points)
}
