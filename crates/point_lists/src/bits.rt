ghost use Rattle.std.specs.Prelude.{◌≡◌, ◌+◌, ◌<◌, ◌==◌, ◌^◌, ℕ, All, IfOk, false, length, slice_index_or};
ghost use Rattle.std.specs.List.{list_any};
ghost use Rattle.point_lists.specs.Bits.{AreBitCounters};

use cov_points::TogglePoint;
use cov_types::NoMemory;
use mark_numbers::{MarkNumbers, number_marks};
use std::alloc::Global;

/// Marks the points that have bits.
fn points_with_bits(
    alloc: Global,
    toggles: &[TogglePoint],
    count: usize,
) -> Result<Vec<bool>, NoMemory>
    requires { All (λ t. t.point < count) toggles.now }
    ensures many { IfOk result (λ flags. length flags.items ≡ count) }
    ensures flags { IfOk result (λ flags. (k : ℕ) → slice_index_or flags.items k false ≡ list_any (λ t. t.point == k) toggles.now) }
{
    let mut flags = vec![in alloc; false; count]?;
    for toggle in toggles {
        flags[toggle.point as usize] = true;
    }
    Ok(flags)
}

/// The counters of the bits of points: one for each point that has bits, from `first` on.
pub fn bit_counters(
    alloc: Global,
    toggles: &[TogglePoint],
    count: usize,
    first: u32,
) -> Result<MarkNumbers, NoMemory>
    requires within { All (λ t. t.point < count) toggles.now }
    requires few { first + count < 2 ^ 32 }
    ensures { IfOk result (λ r. AreBitCounters toggles.now first r.next r.numbers) }
{
    let flags = points_with_bits(alloc, toggles, count)?;
    number_marks(alloc, flags.as_slice(), first)
}
