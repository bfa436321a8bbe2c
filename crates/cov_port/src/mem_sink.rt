ghost use Rattle.std.specs.Prelude.{◌≡◌, ◌≤◌, ◌&&◌, nat_lt, ◌<◌, ◌+◌, ◌++◌, ◌∷◌, [], Some, length, OnOk, OnErr, IfOk};
ghost use Rattle.std.specs.Result.{is_err};
ghost use Rattle.cov_port.specs.Causes.{Both, HasCause};
ghost use Rattle.cov_port.specs.Memory.{empty_sink, put_count, put_fails, with_failed_put, with_put};
ghost use Rattle.cov_port.specs.Sinks.{Puts, PutsPart};

use crate::memory::{append_within, count_call};
use crate::sink::{Sink, SinkFault};
use cov_types::NoMemory;
use std::alloc::Global;
use std::marker::Model;

/// A sink in memory, for tests, of which any put can be made to fail.
#[derive(Debug, Drop)]
pub struct MemSink {
    written: Vec<u8>,
    faults: u64,
    piece: u32,
    calls: u64,
    listed: Vec<u64>,
    // Room for so many further bytes stands behind those written.
    bytes_left: usize,
}

impl Model for MemSink {
    ghost use Rattle.std.specs.Prelude.{◌≤◌, ◌+◌, vec_len, vec_capacity};
    ghost use Rattle.cov_port.specs.Memory.{SinkInMemory};

    ghost Value = { SinkInMemory };

    ghost view = { λ sink. record {
      written = sink.written.items;
      faults = sink.faults;
      piece = sink.piece;
      calls = sink.calls;
      listed = sink.listed.items;
      bytes_left = sink.bytes_left;
    } };

    ghost invariant = { λ sink. (1 ≤ sink.piece)
        × (vec_len sink.written + sink.bytes_left ≤ vec_capacity sink.written) };
}

impl MemSink {
    /// An empty sink without room, of which a put takes at most `piece` bytes. It takes no memory.
    pub fn new(alloc: Global, piece: u32) -> MemSink
        requires { 1 ≤ piece }
        ensures { result ≡ empty_sink piece }
    {
        MemSink {
            written: Vec::new(alloc),
            faults: 0,
            piece,
            calls: 0,
            listed: Vec::new(alloc),
            bytes_left: 0,
        }
    }

    /// Makes the put with this number fail. Puts are counted from 1, and the count stays at
    /// 2^64 - 1. With `NoMemory` nothing has changed.
    pub fn fail_at(&mut self, call: u64) -> Result<(), NoMemory>
        ensures ok { OnOk result (self.new ≡ record self.old { listed = self.old.listed ++ call ∷ [] }) }
        ensures err { OnErr result (self.new ≡ self.old) }
    {
        match self.listed.push(call) {
            Ok(()) => Ok(()),
            Err(_) => Err(NoMemory),
        }
    }

    /// Takes room for so many further bytes, beside the room there is. With `NoMemory`, also where
    /// the sum passes 2^64 - 1, nothing has changed.
    pub fn room(&mut self, bytes: u64) -> Result<(), NoMemory>
        ensures ok { OnOk result (self.new ≡ record self.old { bytes_left = self.old.bytes_left + bytes }) }
        ensures err { OnErr result (self.new ≡ self.old) }
    {
        let Some(bytes_left) = self.bytes_left.checked_add(bytes as usize) else {
            return Err(NoMemory);
        };
        match self.written.reserve(bytes_left) {
            Ok(()) => {
                self.bytes_left = bytes_left;
                Ok(())
            }
            Err(_) => Err(NoMemory),
        }
    }

    /// What was put.
    pub fn bytes(&self) -> &[u8]
        ensures { result.now ≡ self.now.written }
    {
        self.written.as_slice()
    }
}

impl Sink for MemSink {
    ghost written = { λ sink. Some sink.written };

    ghost faults = { λ sink. sink.faults };

    /// Takes at most `piece` bytes, and no more than there is room for. It takes no memory.
    fn put(&mut self, bytes: &[u8]) -> Result<usize, SinkFault>
        ensures bound { IfOk result (λ n. n ≤ length bytes.now) }
        ensures some { IfOk result (λ n. 0 < length bytes.now → 0 < n) }
        ensures put { IfOk result (λ n. Puts n bytes.now self.old.written self.new.written) }
        ensures part { OnErr result (PutsPart bytes.now self.old.written self.new.written) }
        ensures cause { HasCause self.old.faults self.new.faults result }

        // When it fails, and all that changes.
        ensures fails { is_err result ≡ put_fails self.old bytes.now }
        ensures count { IfOk result (λ n. n ≡ put_count self.old bytes.now) }
        ensures ok { OnOk result (self.new ≡ with_put self.old bytes.now) }
        ensures err { OnErr result (self.new ≡ with_failed_put self.old) }
    {
        let fails = count_call(&mut self.calls, self.listed.as_slice());
        if fails || lacks_room(self.bytes_left, bytes) {
            self.faults = self.faults.saturating_add(1);
            return Err(SinkFault::Failed);
        }
        let count = (self.piece as usize).min(bytes.len().min(self.bytes_left));
        append_within(&mut self.written, &bytes[..count]);
        self.bytes_left -= count;
        Ok(count)
    }
}

/// Whether there is a byte to put and no room for one.
fn lacks_room(bytes_left: usize, bytes: &[u8]) -> bool
    ensures { result ≡ (nat_lt 0 (length bytes.now) && nat_lt bytes_left 1) }
{
    0 < bytes.len() && bytes_left < 1
}
