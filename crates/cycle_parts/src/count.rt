ghost use Rattle.std.specs.Prelude.{ℕ, ◌+◌, ◌<◌, ◌^◌, ◌∷◌, [], length, slice_index};
ghost use Rattle.design_meaning.specs.Counters.{HasCounted};

/// Raises a counter. There is none past the last.
pub(crate) fn raise_one(counts: &mut [u64], counter: u32)
    requires { slice_index counts.old counter + 1 < 2 ^ 64 }
    ensures { HasCounted counts.old (counter ∷ []) counts.new }
{
    let at = counter as usize;
    if at < counts.len() {
        counts[at] += 1;
    }
}

/// Raises counters, each as often as it is listed.
pub fn raise(counts: &mut [u64], raised: &[u32])
    requires { (k : ℕ) → slice_index counts.old k + length raised.now < 2 ^ 64 }
    ensures { HasCounted counts.old raised.now counts.new }
{
    for counter in raised {
        raise_one(counts, *counter);
    }
}
