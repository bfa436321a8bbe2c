ghost use Rattle.std.specs.Prelude.{◌≡◌, ◌≤◌, ◌<◌, ◌-◌, ◌^◌, All, length, min};
ghost use Rattle.design_meaning.specs.Runs.{point_count, total_of};

use design_tree::PointRow;

/// The sum of these counters, repeats counted.
fn total_of(counts: &[u64], counters: &[u32]) -> u128
    requires { All (λ c. c < length counts.now) counters.now }
    ensures { result ≡ total_of counts.now counters.now }
{
    let mut total = 0u128;
    for counter in counters {
        total += u128::from(counts[*counter as usize]);
    }
    total
}

/// The greatest number of so many bits.
pub(crate) fn greatest(bits: u32) -> u64
    requires { bits ≤ 64 }
    ensures { result ≡ 2 ^ bits - 1 }
{
    ((1u128 << bits) - 1) as u64
}

/// The count of a point, at most this.
pub(crate) fn count_in_bits(point: &PointRow, counts: &[u64], most: u64) -> u64
    requires plus { All (λ c. c < length counts.now) point.now.plus }
    requires minus { All (λ c. c < length counts.now) point.now.minus }
    ensures { result ≡ min most (point_count counts.now point.now) }
{
    let plus = total_of(counts, point.plus.as_slice());
    let minus = total_of(counts, point.minus.as_slice());
    plus.saturating_sub(minus).min(u128::from(most)) as u64
}
