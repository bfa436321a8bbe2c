ghost use Rattle.std.specs.Prelude.{◌≡◌, ◌≤◌, ◌<◌, ◌+◌, ◌∷◌, ◌++◌, [], length, is_some, IfOk, IfSome, OnOk, OnErr, true, false};
ghost use Rattle.cov_dat.specs.Merging.{number_of, saturated};
ghost use Rattle.cov_dat.specs.KeyTable.{has_key, limit_at, raised_at};

use crate::byte_key::Key;
use cov_port::LimitName;
use indexmap::IndexMap;
use std::alloc::{AllocError, Global};

/// The greatest number of keys.
const MOST_KEYS: usize = 4_194_304;

/// The greatest number of bytes of all keys together.
const MOST_KEY_BYTES: usize = 1_073_741_824;

/// The limit that so many keys with so many bytes pass, if they pass one.
pub(crate) fn limit_at(keys: usize, bytes: usize) -> Option<LimitName>
    ensures { result ≡ limit_at keys bytes }
{
    if keys > MOST_KEYS {
        Some(LimitName::DataPoints)
    } else if bytes > MOST_KEY_BYTES {
        Some(LimitName::TotalKeyBytes)
    } else {
        None
    }
}

fn sum_of(before: u64, count: u64) -> u64
    ensures { result ≡ saturated (before + count) }
{
    before.saturating_add(count)
}

/// The number of the key, if it stands. `sought` is written over.
///
/// The key with the number `next` is tried first, since files mostly have their keys in one order.
pub(crate) fn look_up(
    counts: &IndexMap<Key, u64>,
    sought: &mut Key,
    next: usize,
    key: &[u8],
) -> Result<Option<usize>, AllocError>
    ensures found { IfOk result (λ found. is_some found ≡ has_key counts.now.entries key.now) }
    ensures number { IfOk result (λ found. IfSome found (λ number. number_of counts.now.entries key.now ≡ number)) }
    ensures within { IfOk result (λ found. IfSome found (λ number. number < length counts.now.entries)) }
{
    if stands_at(counts, next, key) {
        return Ok(Some(next));
    }
    sought.refill(key)?;
    Ok(counts.get_index_of(&*sought))
}

/// Whether the key stands with this number.
fn stands_at(counts: &IndexMap<Key, u64>, number: usize, key: &[u8]) -> bool
    ensures found { result ≡ true → has_key counts.now.entries key.now ≡ true }
    ensures number { result ≡ true → number_of counts.now.entries key.now ≡ number }
    ensures within { result ≡ true → number < length counts.now.entries }
{
    if number >= counts.len() {
        return false;
    }
    let (stored, _) = counts.get_index(number).unwrap();
    stored.as_slice() == key
}

/// Adds a count to the key with this number.
pub(crate) fn raise(counts: &mut IndexMap<Key, u64>, number: usize, count: u64)
    requires { number < length counts.old.entries }
    ensures { counts.new.entries ≡ raised_at counts.old.entries number count }
{
    counts[number] = sum_of(counts[number], count);
}

/// Puts a new key with its count behind the others.
pub(crate) fn append(
    alloc: Global,
    counts: &mut IndexMap<Key, u64>,
    key: &[u8],
    count: u64,
) -> Result<(), AllocError>
    requires { has_key counts.old.entries key.now ≡ false }
    ensures ok { OnOk result (counts.new.entries ≡ counts.old.entries ++ (key.now, count) ∷ []) }
    ensures err { OnErr result (counts.new.entries ≡ counts.old.entries) }
{
    let key = Key::from_slice(alloc, key)?;
    counts.insert(key, count)?;
    Ok(())
}
