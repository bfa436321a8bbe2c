ghost use Rattle.std.specs.Prelude.{◌≡◌, ◌+◌, ◌<◌, ℕ, IfOk, List, Option, is_some, length, map};
ghost use Rattle.arm_counters.specs.Needed.{AreNeeded, AreRows};

use arm_rows::ArmRow;
use cov_types::NoMemory;
use std::alloc::Global;

/// Marks the arms with points.
fn pointed_arms(alloc: Global, points: &[Option<u32>]) -> Result<Vec<bool>, NoMemory>
    ensures { IfOk result (λ marks. marks.items ≡ map is_some points.now) }
{
    let mut marks = Vec::new(alloc);
    for point in points {
        marks.push(point.is_some())?;
    }
    Ok(marks)
}

/// Marks what a no arm needs, if it is needed itself: the arm around its `if`, and the yes arm beside it.
fn mark_around(rows: &[ArmRow], arm: usize, marks: &mut Vec<bool>)
    requires rows { AreRows rows.now }
    requires within { arm < length rows.now }
    requires many { length marks.old.items ≡ length rows.now }
    ensures { (points : List (Option ℕ)) → AreNeeded rows.now points (arm + 1) marks.old.items → AreNeeded rows.now points arm marks.new.items }
{
    if !marks[arm] {
        return;
    }
    if let ArmRow::No { around, yes } = rows[arm] {
        marks[around] = true;
        marks[yes] = true;
    }
}

/// The arms whose counts are needed for the points: a mark for each arm.
///
/// An arm with a point is needed, and with a no arm that is needed, the arm around its `if` and the yes arm beside it.
pub(crate) fn needed_arms(
    alloc: Global,
    rows: &[ArmRow],
    points: &[Option<u32>],
) -> Result<Vec<bool>, NoMemory>
    requires rows { AreRows rows.now }
    requires many { length points.now ≡ length rows.now }
    ensures { IfOk result (λ marks. AreNeeded rows.now points.now 0 marks.items) }
{
    let mut marks = pointed_arms(alloc, points)?;
    let mut arm = rows.len();
    while arm > 0 {
        arm -= 1;
        mark_around(rows, arm, &mut marks);
    }
    Ok(marks)
}
