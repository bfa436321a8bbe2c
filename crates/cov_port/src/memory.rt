ghost use Rattle.std.specs.Prelude.{◌≡◌, ◌≤◌, ◌+◌, ◌++◌, length, vec_len, vec_capacity};
ghost use Rattle.cov_port.specs.Memory.{is_listed, next_call};

/// Counts a call, and tells whether it is one that is to fail.
pub(crate) fn count_call(calls: &mut u64, listed: &[u64]) -> bool
    ensures counted { calls.new ≡ next_call calls.old }
    ensures fails { result ≡ is_listed calls.old listed.now }
{
    let call = calls.saturating_add(1);
    *calls = call;
    listed.iter().any(|listed| *listed == call)
}

/// Puts bytes at the end, for which there is room already. It takes no memory.
pub(crate) fn append_within(log: &mut Vec<u8>, bytes: &[u8])
    requires fits { vec_len log.old + length bytes.now ≤ vec_capacity log.old }
    ensures items { log.new.items ≡ log.old.items ++ bytes.now }
    ensures len { vec_len log.new ≡ vec_len log.old + length bytes.now }
    ensures capacity { vec_capacity log.old ≤ vec_capacity log.new }
{
    match log.extend_from_slice(bytes) {
        Ok(()) => {}
        Err(_) => unreachable!(),
    }
}
