ghost use Rattle.std.specs.Prelude.{◌≡◌, ◌≤◌, ◌<◌, ◌+◌, ◌++◌, ◌∷◌, ◌||◌, [], Some, length, nat_lt, OnOk, OnErr, IfOk};
ghost use Rattle.std.specs.Option.{option_copied};
ghost use Rattle.std.specs.Result.{is_err};
ghost use Rattle.cov_port.specs.Causes.{HasCause};
ghost use Rattle.cov_port.specs.Files.{HasOpenCause, ReadTakes, Stores, StoresPart, lacks};
ghost use Rattle.cov_port.specs.Memory.{FilesInMemory, held_in, no_files, open_fails, read_count, read_fails, store_fails, with_failed_open, with_failed_read};
ghost use Rattle.cov_port.specs.Memory.{with_failed_store, with_open, with_read, with_store};

use crate::file_log::{append_file, find_file, reserve_room};
use crate::files::{FileFault, Files};
use crate::memory::count_call;
use crate::span::Span;
use cov_types::NoMemory;
use std::alloc::Global;
use std::marker::Model;

/// Files in memory, for tests, of which any call can be made to fail.
#[derive(Debug, Drop)]
pub struct MemFiles {
    // All names and texts, one after the other, and where each file stands there.
    log: Vec<u8>,
    spans: Vec<Span>,
    // What is left of the open file.
    at: usize,
    end: usize,
    opens: u64,
    reads: u64,
    stores: u64,
    piece: u32,
    calls: u64,
    listed: Vec<u64>,
    // Room for so many further spans and bytes stands behind those above.
    stores_left: usize,
    bytes_left: usize,
}

impl Model for MemFiles {
    ghost use Rattle.std.specs.Prelude.{◌≡◌, ◌≤◌, ◌+◌, true, length, slice_range, vec_len, vec_capacity};
    ghost use Rattle.cov_port.specs.Memory.{FilesInMemory};
    ghost use Rattle.cov_port.specs.Spans.{are_within, files_in};

    ghost Value = { FilesInMemory };

    ghost view = { λ memory. record {
      files = files_in memory.log.items memory.spans.items;
      rest = slice_range memory.log.items memory.at memory.end;
      faults = record { opens = memory.opens; reads = memory.reads; stores = memory.stores };
      piece = memory.piece;
      calls = memory.calls;
      listed = memory.listed.items;
      stores_left = memory.stores_left;
      bytes_left = memory.bytes_left;
    } };

    ghost invariant = { λ memory. (1 ≤ memory.piece)
        × (are_within (length memory.log.items) memory.spans.items ≡ true)
        × (memory.at ≤ memory.end)
        × (memory.end ≤ length memory.log.items)
        × (vec_len memory.log + memory.bytes_left ≤ vec_capacity memory.log)
        × (vec_len memory.spans + memory.stores_left ≤ vec_capacity memory.spans) };
}

impl MemFiles {
    /// No files and no room. A read gives at most `piece` bytes. It takes no memory.
    pub fn new(alloc: Global, piece: u32) -> MemFiles
        requires { 1 ≤ piece }
        ensures { result ≡ no_files piece }
    {
        MemFiles {
            log: Vec::new(alloc),
            spans: Vec::new(alloc),
            at: 0,
            end: 0,
            opens: 0,
            reads: 0,
            stores: 0,
            piece,
            calls: 0,
            listed: Vec::new(alloc),
            stores_left: 0,
            bytes_left: 0,
        }
    }

    /// Makes the name hold these bytes. It takes the memory for them, and leaves the room as it is.
    /// With `NoMemory` nothing has changed.
    pub fn add_file(&mut self, name: &str, bytes: &[u8]) -> Result<(), NoMemory>
        ensures ok { OnOk result (self.new ≡ record self.old { files = self.old.files ++ (name.now, bytes.now) ∷ [] }) }
        ensures err { OnErr result (self.new ≡ self.old) }
    {
        let Some(stores) = self.stores_left.checked_add(1) else {
            return Err(NoMemory);
        };
        let Some(room) = self.bytes_left.checked_add(name.len() + bytes.len()) else {
            return Err(NoMemory);
        };
        match reserve_room(&mut self.log, &mut self.spans, stores, room) {
            Ok(()) => {
                append_file(&mut self.log, &mut self.spans, name.as_bytes(), bytes);
                Ok(())
            }
            Err(refused) => Err(refused),
        }
    }

    /// Makes the call of the trait with this number fail. Calls are counted from 1, and the count
    /// stays at 2^64 - 1. With `NoMemory` nothing has changed.
    pub fn fail_at(&mut self, call: u64) -> Result<(), NoMemory>
        ensures ok { OnOk result (self.new ≡ record self.old { listed = self.old.listed ++ call ∷ [] }) }
        ensures err { OnErr result (self.new ≡ self.old) }
    {
        match self.listed.push(call) {
            Ok(()) => Ok(()),
            Err(_) => Err(NoMemory),
        }
    }

    /// Takes room for so many further stores, and so many bytes of their names and texts together,
    /// beside the room there is. With `NoMemory`, also where the sums pass 2^64 - 1, nothing has changed.
    pub fn room(&mut self, stores: u32, bytes: u64) -> Result<(), NoMemory>
        ensures ok { OnOk result (self.new ≡ record self.old { stores_left = self.old.stores_left + stores; bytes_left = self.old.bytes_left + bytes }) }
        ensures err { OnErr result (self.new ≡ self.old) }
    {
        let Some(stores_left) = self.stores_left.checked_add(stores as usize) else {
            return Err(NoMemory);
        };
        let Some(bytes_left) = self.bytes_left.checked_add(bytes as usize) else {
            return Err(NoMemory);
        };
        match reserve_room(&mut self.log, &mut self.spans, stores_left, bytes_left) {
            Ok(()) => {
                self.stores_left = stores_left;
                self.bytes_left = bytes_left;
                Ok(())
            }
            Err(refused) => Err(refused),
        }
    }

    /// The bytes that the name holds, or nothing where it is absent.
    pub fn bytes_of(&self, name: &str) -> Option<&[u8]>
        ensures { option_copied result ≡ held_in self.now.files name.now }
    {
        match find_file(self.log.as_slice(), self.spans.as_slice(), name.as_bytes()) {
            Some(span) => Some(&self.log[span.text..span.end]),
            None => None,
        }
    }
}

impl Files for MemFiles {
    ghost held = { λ memory. Some (held_in memory.files) };

    ghost rest = { λ memory. Some memory.rest };

    ghost faults = { λ memory. memory.faults };

    /// Fails where the call is listed or the name is absent. It takes no memory.
    fn open(&mut self, name: &str) -> Result<(), FileFault>
        ensures opened { OnOk result (Some self.new.rest ≡ held_in self.old.files name.now) }
        ensures none_open { OnErr result (self.new.rest ≡ []) }
        ensures held { held_in self.new.files ≡ held_in self.old.files }
        ensures cause { HasOpenCause (lacks (Some (held_in self.old.files)) name.now) self.old.faults.opens self.new.faults.opens result }
        ensures reads { self.new.faults.reads ≡ self.old.faults.reads }
        ensures stores { self.new.faults.stores ≡ self.old.faults.stores }

        // When it fails, and all that changes.
        ensures fails { is_err result ≡ open_fails self.old name.now }
        ensures ok { OnOk result (self.new ≡ with_open self.old name.now) }
        ensures err { OnErr result (self.new ≡ with_failed_open self.old name.now) }
    {
        let fails = count_call(&mut self.calls, self.listed.as_slice());
        self.at = 0;
        self.end = 0;
        match find_file(self.log.as_slice(), self.spans.as_slice(), name.as_bytes()) {
            Some(_) if fails => {
                self.opens = self.opens.saturating_add(1);
                Err(FileFault::Failed)
            }
            Some(span) => {
                self.at = span.text;
                self.end = span.end;
                Ok(())
            }
            None => Err(FileFault::Failed),
        }
    }

    /// Fails where the call is listed. It takes no memory.
    fn read(&mut self, buf: &mut [u8]) -> Result<usize, FileFault>
        ensures bound { IfOk result (λ n. n ≤ length buf.new) }
        ensures bytes { IfOk result (λ n. ReadTakes self.old.rest (Some self.new.rest) n buf.new) }
        ensures held { held_in self.new.files ≡ held_in self.old.files }
        ensures cause { HasCause self.old.faults.reads self.new.faults.reads result }
        ensures opens { self.new.faults.opens ≡ self.old.faults.opens }
        ensures stores { self.new.faults.stores ≡ self.old.faults.stores }

        // When it fails, and all that changes.
        ensures fails { is_err result ≡ read_fails self.old }
        ensures count { IfOk result (λ n. n ≡ read_count self.old (length buf.old)) }
        ensures ok { IfOk result (λ n. self.new ≡ with_read self.old n) }
        ensures err { OnErr result (self.new ≡ with_failed_read self.old) }
    {
        if count_call(&mut self.calls, self.listed.as_slice()) {
            self.reads = self.reads.saturating_add(1);
            return Err(FileFault::Failed);
        }
        let count = (self.piece as usize).min(buf.len().min(self.end - self.at));
        buf[..count].copy_from_slice(&self.log[self.at..self.at + count]);
        self.at += count;
        Ok(count)
    }

    /// Fails where the call is listed, or there is too little room. It takes no memory.
    fn store(&mut self, name: &str, bytes: &[u8]) -> Result<(), FileFault>
        ensures stored { OnOk result (Stores name.now bytes.now (held_in self.old.files) (held_in self.new.files)) }
        ensures part { OnErr result (StoresPart name.now bytes.now (held_in self.old.files) (held_in self.new.files)) }
        ensures rest { self.new.rest ≡ self.old.rest }
        ensures cause { HasCause self.old.faults.stores self.new.faults.stores result }
        ensures opens { self.new.faults.opens ≡ self.old.faults.opens }
        ensures reads { self.new.faults.reads ≡ self.old.faults.reads }

        // When it fails, and all that changes.
        ensures fails { is_err result ≡ store_fails self.old name.now bytes.now }
        ensures ok { OnOk result (self.new ≡ with_store self.old name.now bytes.now) }
        ensures err { OnErr result (self.new ≡ with_failed_store self.old) }
    {
        let fails = count_call(&mut self.calls, self.listed.as_slice());
        let name = name.as_bytes();
        let needed = name.len() + bytes.len();
        if fails || lacks_room(self.stores_left, self.bytes_left, needed) {
            self.stores = self.stores.saturating_add(1);
            return Err(FileFault::Failed);
        }
        append_file(&mut self.log, &mut self.spans, name, bytes);
        self.stores_left -= 1;
        self.bytes_left -= needed;
        Ok(())
    }
}

/// Whether there is no room for one more store of so many bytes.
fn lacks_room(stores_left: usize, bytes_left: usize, needed: usize) -> bool
    ensures { result ≡ (nat_lt stores_left 1 || nat_lt bytes_left needed) }
{
    stores_left < 1 || bytes_left < needed
}
