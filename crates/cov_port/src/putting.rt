ghost use Rattle.std.specs.Prelude.{◌≡◌, OnOk, OnErr};
ghost use Rattle.cov_port.specs.Causes.{Both, HasCause};
ghost use Rattle.cov_port.specs.Sinks.{PutsAll, PutsPart};

use crate::sink::{Sink, SinkFault};

/// Puts all the bytes, in as many pieces as the sink takes. After an error some first bytes of them are put.
pub fn put_all<S: Sink>(sink: &mut S, bytes: &[u8]) -> Result<(), SinkFault>
    ensures put { OnOk result (Both (PutsAll bytes.now) (S.written sink.old) (S.written sink.new)) }
    ensures part { OnErr result (Both (PutsPart bytes.now) (S.written sink.old) (S.written sink.new)) }
    ensures cause { HasCause (S.faults sink.old) (S.faults sink.new) result }
{
    let mut left = bytes;
    'pieces: while !left.is_empty() {
        match sink.put(left) {
            Ok(count) => left = &left[count..],
            Err(fault) => return Err(fault),
        }
    }
    Ok(())
}
