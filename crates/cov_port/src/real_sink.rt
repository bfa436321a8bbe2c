ghost use Rattle.std.specs.Prelude.{◌≡◌, None};

use crate::sink::{Sink, SinkFault};
use std::io::Write;

/// A stream of the system, as standard output. Contracts don't learn what was put.
///
/// This is a trusted edge: that the stream takes the bytes it says it took is up to the system.
#[derive(Drop)]
pub struct RealSink<W: Write> {
    to: W,
    faults: u64,
}

impl<W: Write> RealSink<W> {
    /// A sink that writes to this stream.
    pub fn new(to: W) -> RealSink<W>
        ensures { ⟦<RealSink<W> as Sink>⟧.faults result ≡ 0 }
    {
        RealSink { to, faults: 0 }
    }
}

impl<W: Write> Sink for RealSink<W> {
    ghost written = { λ _. None };

    ghost faults = { λ sink. sink.faults };

    /// Writes once to the stream. That it takes nothing of a piece that isn't empty is a fault.
    fn put(&mut self, bytes: &[u8]) -> Result<usize, SinkFault> {
        match self.to.write(bytes) {
            Ok(count) if count > 0 || bytes.is_empty() => Ok(count),
            _ => {
                self.faults = self.faults.saturating_add(1);
                Err(SinkFault::Failed)
            }
        }
    }
}
