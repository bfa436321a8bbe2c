ghost use Rattle.std.specs.Prelude.{◌≡◌, ◌++◌, true, IfOk, OnOk};
ghost use Rattle.std.specs.FinMap.{entries, is_sorted};
ghost use Rattle.std.specs.Ordering.{nat_cmp};
ghost use Rattle.std.specs.Cmp.Lexicographic.{slice_cmp};
ghost use Rattle.cov_dat.specs.DataText.{count_map, data_text as text_of, lines_text, record_text};
ghost use Rattle.cov_dat.specs.SortedView.{seen_sorted};

use crate::byte_key::Key;
use indexmap::IndexMap;
use itoa::Buffer;
use std::alloc::{AllocError, Global};
use std::collections::BTreeMap;

const HEADER: &[u8] = b"# SystemC::Coverage-3\n";

/// The data file of these counts. Memory for `room` bytes is taken at once.
pub(crate) fn data_text(
    alloc: Global,
    counts: &IndexMap<Key, u64>,
    room: usize,
) -> Result<Vec<u8>, AllocError>
    ensures { IfOk result (λ text. text.items ≡ text_of (count_map counts.now.entries)) }
{
    if ascends(counts) {
        return written_in_order(alloc, counts, room);
    }
    let sorted = sorted(alloc, counts)?;
    written_sorted(alloc, &sorted, room)
}

/// Whether the keys ascend in byte order as they stand, as those of a single file mostly do.
fn ascends(counts: &IndexMap<Key, u64>) -> bool
    ensures { result ≡ true → is_sorted (slice_cmp nat_cmp) counts.now.entries ≡ true }
{
    let mut left = counts.len();
    'keys: while left > 1 {
        left -= 1;
        let (key, _) = counts.get_index(left).unwrap();
        let (before, _) = counts.get_index(left - 1).unwrap();
        if before.as_slice().cmp(key.as_slice()).is_ge() {
            return false;
        }
    }
    true
}

/// The entries in byte order of keys.
fn sorted(alloc: Global, counts: &IndexMap<Key, u64>) -> Result<BTreeMap<&[u8], u64>, AllocError>
    ensures { IfOk result (λ sorted. seen_sorted sorted.entries ≡ entries (count_map counts.now.entries)) }
{
    let mut sorted = BTreeMap::new(alloc);
    let mut left = counts.len();
    'keys: while left > 0 {
        left -= 1;
        let (key, count) = counts.get_index(left).unwrap();
        sorted.insert(key.as_slice(), *count)?;
    }
    Ok(sorted)
}

/// The header and the records in the order in which the keys stand.
fn written_in_order(
    alloc: Global,
    counts: &IndexMap<Key, u64>,
    room: usize,
) -> Result<Vec<u8>, AllocError>
    ensures { IfOk result (λ text. text.items ≡ lines_text counts.now.entries) }
{
    let mut text = Vec::with_capacity(alloc, room)?;
    text.extend_from_slice(HEADER)?;
    for (key, count) in counts {
        push_record(&mut text, key.as_slice(), *count)?;
    }
    Ok(text)
}

/// The header and the records in the map's order.
fn written_sorted(
    alloc: Global,
    sorted: &BTreeMap<&[u8], u64>,
    room: usize,
) -> Result<Vec<u8>, AllocError>
    ensures { IfOk result (λ text. text.items ≡ lines_text (seen_sorted sorted.now.entries)) }
{
    let mut text = Vec::with_capacity(alloc, room)?;
    text.extend_from_slice(HEADER)?;
    for (key, count) in sorted {
        push_record(&mut text, key, *count)?;
    }
    Ok(text)
}

fn push_record(text: &mut Vec<u8>, key: &[u8], count: u64) -> Result<(), AllocError>
    ensures { OnOk result (text.new.items ≡ text.old.items ++ record_text (key.now, count)) }
{
    let mut buffer = Buffer::new();
    text.extend_from_slice(b"C '")?;
    text.extend_from_slice(key)?;
    text.extend_from_slice(b"' ")?;
    text.extend_from_slice(buffer.format(count).as_bytes())?;
    text.extend_from_slice(b"\n")?;
    Ok(())
}
