ghost use Rattle.std.specs.Prelude.{◌≡◌, ◌++◌, [], IfOk, OnOk, OnErr};
ghost use Rattle.cov_port.specs.Causes.{Both, HasCause};
ghost use Rattle.cov_port.specs.Sinks.{FrontPut, PutsAll, PutsPart};

use crate::within::append_within;
use cov_port::{NoMemory, Sink, SinkFault, put_all};
use std::alloc::Global;
use std::marker::Model;

/// The most bytes that are kept before they are put.
const PIECE: usize = 65_536;

/// Text on its way to a sink, kept until there is a piece of it.
///
/// Contracts see what is kept. Only `new` takes memory.
#[derive(Drop)]
pub struct Output {
    kept: Vec<u8>,
}

impl Model for Output {
    ghost use Rattle.std.specs.Prelude.{◌≤◌, ℕ, List, vec_len, vec_capacity};

    ghost Value = { List ℕ };

    ghost view = { λ o. o.kept.items };

    ghost invariant = { λ o. (vec_len o.kept ≤ 65536) × (65536 ≤ vec_capacity o.kept) };
}

impl Output {
    /// Nothing is kept as yet. It takes a buffer of 65,536 bytes.
    pub fn new(alloc: Global) -> Result<Output, NoMemory>
        ensures { IfOk result (λ o. o ≡ []) }
    {
        Ok(Output {
            kept: Vec::with_capacity(alloc, PIECE)?,
        })
    }

    /// Adds text to what is kept, and puts all that was kept where both are more than a piece. After an error some first
    /// bytes of what was kept and of the text are put, and what is kept then means nothing.
    pub fn add<S: Sink>(&mut self, sink: &mut S, text: &[u8]) -> Result<(), SinkFault>
        ensures keeps { OnOk result (Both (FrontPut (self.old ++ text.now) self.new) (S.written sink.old) (S.written sink.new)) }
        ensures part { OnErr result (Both (PutsPart (self.old ++ text.now)) (S.written sink.old) (S.written sink.new)) }
        ensures cause { HasCause (S.faults sink.old) (S.faults sink.new) result }
    {
        if text.len() > PIECE - self.kept.len() {
            match self.put_kept(sink) {
                Ok(()) => return self.keep(sink, text),
                Err(fault) => return Err(fault),
            }
        }
        append_within(&mut self.kept, text);
        Ok(())
    }

    /// Puts all that is kept. After an error some first bytes of it are put.
    pub fn put_kept<S: Sink>(&mut self, sink: &mut S) -> Result<(), SinkFault>
        ensures empty { OnOk result (self.new ≡ []) }
        ensures put { OnOk result (Both (PutsAll self.old) (S.written sink.old) (S.written sink.new)) }
        ensures part { OnErr result (Both (PutsPart self.old) (S.written sink.old) (S.written sink.new)) }
        ensures cause { HasCause (S.faults sink.old) (S.faults sink.new) result }
    {
        match put_all(sink, self.kept.as_slice()) {
            Ok(()) => {
                self.kept.clear();
                Ok(())
            }
            Err(fault) => Err(fault),
        }
    }

    /// Keeps text where nothing is kept, or puts it at once where it is more than a piece.
    fn keep<S: Sink>(&mut self, sink: &mut S, text: &[u8]) -> Result<(), SinkFault>
        requires { self.old ≡ [] }
        ensures keeps { OnOk result (Both (FrontPut text.now self.new) (S.written sink.old) (S.written sink.new)) }
        ensures part { OnErr result (Both (PutsPart text.now) (S.written sink.old) (S.written sink.new)) }
        ensures cause { HasCause (S.faults sink.old) (S.faults sink.new) result }
    {
        if text.len() > PIECE {
            return put_all(sink, text);
        }
        append_within(&mut self.kept, text);
        Ok(())
    }
}
