ghost use Rattle.std.specs.Prelude.{◌≡◌, ◌<◌, ◌^◌, ℕ, IfOk, false, length};
ghost use Rattle.arm_rows.specs.Rows.{row_at};
ghost use Rattle.arm_rows.specs.declared.row.ArmRow.TheVariants as row;
ghost use Rattle.arm_counters.specs.Needed as needed;
ghost use Rattle.arm_counters.specs.Needed.{AreRows, has_point};
ghost use Rattle.arm_counters.specs.Counters.{AreCarrying, AreCounters};

use crate::needed::needed_arms;
use arm_rows::ArmRow;
use cov_types::NoMemory;
use mark_numbers::{MarkNumbers, number_marks};
use std::alloc::Global;

/// Whether an arm is the no arm of an `if`.
fn is_no_arm(row: ArmRow) -> bool
    ensures { result ≡ needed.is_no_arm row }
{
    match row {
        ArmRow::No { around: _, yes: _ } => true,
        ArmRow::Body => false,
        ArmRow::Assignment => false,
        ArmRow::Cover => false,
        ArmRow::Yes => false,
        ArmRow::Listed => false,
        ArmRow::NoMatch { written: _ } => false,
    }
}

/// Flags each marked arm that isn't a no arm.
fn carrying_arms(alloc: Global, rows: &[ArmRow], marks: &[bool]) -> Result<Vec<bool>, NoMemory>
    requires { length marks.now ≡ length rows.now }
    ensures { IfOk result (λ flags. AreCarrying rows.now marks.now flags.items) }
{
    let mut flags = Vec::new(alloc);
    for arm in 0..rows.len() {
        flags.push(marks[arm] && !is_no_arm(rows[arm]))?;
    }
    Ok(flags)
}

/// The counters of arms, as few as the points need: a place for each arm, and how many counters there are.
///
/// An arm with a point has a counter of its own, but for the no arm of an `if`: its entries are those of the arm around the `if`
/// less those of the yes arm, which have counters therefore. No other arm has one.
pub fn arm_counters(
    alloc: Global,
    rows: &[ArmRow],
    points: &[Option<u32>],
) -> Result<MarkNumbers, NoMemory>
    requires rows { AreRows rows.now }
    requires many { length points.now ≡ length rows.now }
    requires assignments { (n : ℕ) → row_at rows.now n ≡ row.Assignment → has_point points.now n ≡ false }
    requires few { length rows.now < 2 ^ 32 }
    ensures { IfOk result (λ r. AreCounters rows.now points.now r.next r.numbers) }
{
    let marks = needed_arms(alloc, rows, points)?;
    let flags = carrying_arms(alloc, rows, marks.as_slice())?;
    number_marks(alloc, flags.as_slice(), 0)
}
