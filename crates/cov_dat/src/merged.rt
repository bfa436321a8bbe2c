ghost use Rattle.std.specs.Prelude.{◌≡◌, ◌<◌, [], length, map, slice_get, IfOk, OnOk, OnErr, IsErrOf, Some, None};
ghost use Rattle.std.specs.List.{AllByRecursion, IsDistinct};
ghost use Rattle.std.specs.Str.{bytes_eq};
ghost use Rattle.cov_types.specs.Key.{IsKey};
ghost use Rattle.cov_types.specs.declared.limit.LimitName.{LimitName};
ghost use Rattle.cov_dat.specs.Merging.{added, keys_of, limit_passed, number_of};
ghost use Rattle.cov_dat.specs.DataText.{count_map, data_text as text_of};
ghost use Rattle.cov_dat.specs.declared.merge_fault.MergeFault.TheVariants.{Limit};

use crate::byte_key::Key;
use crate::data_text::data_text;
use crate::key_table::{append, limit_at, look_up, raise};
use crate::merge_fault::MergeFault;
use cov_port::{ByteText, NoMemory};
use indexmap::IndexMap;
use std::alloc::Global;
use std::marker::Model;

/// The bytes of the header and its line feed.
const HEADER_BYTES: usize = 22;

/// What a record has beside its key: `C`, two quotes, two blanks, at most 20 digits and a line feed.
const MOST_BYTES_BESIDE_KEY: usize = 26;

/// Keys with the sums of their counts, in order of first arrival.
#[derive(Drop)]
pub struct Merged {
    alloc: Global,
    counts: IndexMap<Key, u64>,
    // The bytes of all keys together.
    bytes_held: usize,
    // The key that is looked up. It keeps its memory from one look-up to the next.
    sought: Key,
    // The number behind that of the key that was added last.
    next: usize,
}

impl Model for Merged {
    ghost use Rattle.std.specs.Prelude.{◌≡◌, None, length};
    ghost use Rattle.std.specs.List.{AllByRecursion};
    ghost use Rattle.cov_types.specs.Key.{IsKey};
    ghost use Rattle.cov_dat.specs.Merging.{Counts, key_bytes, limit_passed};

    ghost Value = { Counts };

    ghost view = { λ merged. merged.counts.entries };

    ghost invariant = { λ merged. (limit_passed merged.counts.entries ≡ None)
        × (merged.bytes_held ≡ key_bytes merged.counts.entries)
        × AllByRecursion (λ e. IsKey e.0) merged.counts.entries };
}

impl Merged {
    /// No keys.
    pub fn new(alloc: Global) -> Result<Merged, NoMemory>
        ensures { IfOk result (λ m. m ≡ []) }
    {
        Ok(Merged {
            alloc,
            counts: IndexMap::new(alloc),
            bytes_held: 0,
            sought: Key::new(alloc),
            next: 0,
        })
    }

    /// Adds a count to a key's sum, and gives the key's number. The sum stays at 2^64 - 1 once it is there.
    ///
    /// `Limit` comes where the key would be one too many, or else where its bytes would be too many.
    /// A key that stands already needs no memory, except where it is longer than each key before it.
    pub fn add(&mut self, key: &[u8], count: u64) -> Result<u32, MergeFault>
        requires { IsKey key.now }
        ensures ok { OnOk result (self.new ≡ added self.old key.now count) }
        ensures number { IfOk result (λ k. k ≡ number_of self.old key.now) }
        ensures err { OnErr result (self.new ≡ self.old) }
        ensures limit { (name : LimitName) → IsErrOf result (MergeFault.Limit name) → limit_passed (added self.old key.now count) ≡ Some name }
        ensures within { OnOk result (limit_passed (added self.old key.now count) ≡ None) }
    {
        match look_up(&self.counts, &mut self.sought, self.next, key)? {
            Some(number) => {
                raise(&mut self.counts, number, count);
                self.next = number + 1;
                Ok(number as u32)
            }
            None => {
                let number = self.counts.len();
                let bytes_held = self.bytes_held + key.len();
                if let Some(name) = limit_at(number + 1, bytes_held) {
                    return Err(MergeFault::Limit(name));
                }
                append(self.alloc, &mut self.counts, key, count)?;
                self.bytes_held = bytes_held;
                self.next = number + 1;
                Ok(number as u32)
            }
        }
    }

    /// The data file of these keys, in byte order of keys.
    pub fn text(&self, alloc: Global) -> Result<ByteText, NoMemory>
        ensures { IfOk result (λ t. t ≡ text_of (count_map self.now)) }
    {
        let room = HEADER_BYTES + self.bytes_held + self.counts.len() * MOST_BYTES_BESIDE_KEY;
        let text = data_text(alloc, &self.counts, room)?;
        Ok(ByteText::from_vec(text))
    }

    /// The number of keys.
    pub fn len(&self) -> u32
        ensures len { result ≡ length self.now }
        ensures distinct { IsDistinct bytes_eq (keys_of self.now) }
        ensures keys { AllByRecursion (λ e. IsKey e.0) self.now }
        ensures within { limit_passed self.now ≡ None }
    {
        self.counts.len() as u32
    }

    /// The key with this number, in order of first arrival from 0.
    pub fn key_at(&self, k: u32) -> &[u8]
        requires { k < length self.now }
        ensures value { slice_get (keys_of self.now) k ≡ Some result.now }
        ensures key { IsKey result.now }
    {
        self.counts.get_index(k as usize).unwrap().0.as_slice()
    }

    /// The sum of the key with this number.
    pub fn count_at(&self, k: u32) -> u64
        requires { k < length self.now }
        ensures { slice_get (map (λ e. e.1) self.now) k ≡ Some result }
    {
        *self.counts.get_index(k as usize).unwrap().1
    }
}
