ghost use Rattle.std.specs.Prelude.{◌≡◌, ◌≤◌, ◌<◌, ◌+◌, ◌++◌, ◌∷◌, [], true, ℕ, length, vec_len, vec_capacity, slice_range, OnOk, IfSome};
ghost use Rattle.std.specs.Option.{option_map};
ghost use Rattle.cov_port.specs.Memory.{held_in};
ghost use Rattle.cov_port.specs.Spans.{are_within, files_in, text_in};

use crate::memory::append_within;
use crate::span::Span;
use cov_types::NoMemory;

/// Takes room for so many further spans, and bytes of the log.
pub(crate) fn reserve_room(
    log: &mut Vec<u8>,
    spans: &mut Vec<Span>,
    stores: usize,
    bytes: usize,
) -> Result<(), NoMemory>
    ensures log { log.new.items ≡ log.old.items }
    ensures log_len { vec_len log.new ≡ vec_len log.old }
    ensures log_kept { vec_capacity log.old ≤ vec_capacity log.new }
    ensures log_room { OnOk result (vec_len log.new + bytes ≤ vec_capacity log.new) }
    ensures spans { spans.new.items ≡ spans.old.items }
    ensures spans_len { vec_len spans.new ≡ vec_len spans.old }
    ensures spans_kept { vec_capacity spans.old ≤ vec_capacity spans.new }
    ensures spans_room { OnOk result (vec_len spans.new + stores ≤ vec_capacity spans.new) }
{
    if log.reserve(bytes).is_err() || spans.reserve(stores).is_err() {
        return Err(NoMemory);
    }
    Ok(())
}

/// Puts a file behind the others, for which there is room already. It takes no memory.
pub(crate) fn append_file(log: &mut Vec<u8>, spans: &mut Vec<Span>, name: &[u8], text: &[u8])
    requires within { are_within (length log.old.items) spans.old.items ≡ true }
    requires log_room { vec_len log.old + (length name.now + length text.now) ≤ vec_capacity log.old }
    requires spans_room { vec_len spans.old < vec_capacity spans.old }
    ensures log { log.new.items ≡ (log.old.items ++ name.now) ++ text.now }
    ensures log_len { vec_len log.new ≡ vec_len log.old + (length name.now + length text.now) }
    ensures log_kept { vec_capacity log.old ≤ vec_capacity log.new }
    ensures spans_len { vec_len spans.new ≡ vec_len spans.old + 1 }
    ensures spans_kept { vec_capacity spans.old ≤ vec_capacity spans.new }
    ensures within { are_within (length log.new.items) spans.new.items ≡ true }
    ensures files { files_in log.new.items spans.new.items ≡ files_in log.old.items spans.old.items ++ (name.now, text.now) ∷ [] }
{
    let start = log.as_slice().len();
    append_within(log, name);
    let middle = log.as_slice().len();
    append_within(log, text);
    let span = Span {
        name: start,
        text: middle,
        end: log.as_slice().len(),
    };
    match spans.push(span) {
        Ok(()) => {}
        Err(_) => unreachable!(),
    }
}

/// The last file of this name.
pub(crate) fn find_file(log: &[u8], spans: &[Span], name: &[u8]) -> Option<Span>
    requires { are_within (length log.now) spans.now ≡ true }
    ensures text { option_map (λ span. text_in log.now span) result ≡ held_in (files_in log.now spans.now) name.now }
    ensures within { IfSome result (λ span. (span.text ≤ span.end) × (span.end ≤ length log.now)) }
{
    let mut found = None;
    for span in spans {
        if name == &log[span.name..span.text] {
            found = Some(*span);
        }
    }
    found
}
