ghost use Rattle.std.specs.Prelude.{◌≡◌, ◌≤◌, length, take, IfErr, OnOk};
ghost use Rattle.std.specs.Io.KnownBytes.{Appends};
ghost use Rattle.rec_base.specs.Causes.{HasCause};

use rec_base::{Failed, Sink};
use thiserror::Error;

/// A write failed. The first `went` bytes of those that were to be written went out before it, and no
/// others.
#[derive(Clone, Copy, Debug, PartialEq, Eq, Error)]
#[error("a write failed after {went} bytes")]
pub struct WriteFault {
    pub went: usize,
}

/// Writes all the bytes, in as many writes as the sink takes. This project's own; a short write goes
/// on behind it, as in `std::io::Write::write_all`.
///
/// A `WriteFault` comes only where a write of the sink failed, and that write was the last.
pub fn write_all_of<K: Sink>(sink: &mut K, bytes: &[u8]) -> Result<(), WriteFault>
    ensures ok { OnOk result (Appends (K.held sink.old) (K.held sink.new) bytes.now) }
    ensures err { IfErr result (λ fault. Appends (K.held sink.old) (K.held sink.new) (take fault.went bytes.now)) }
    ensures went { IfErr result (λ fault. fault.went ≤ length bytes.now) }
    ensures cause { HasCause (K.write_faults sink.old) (K.write_faults sink.new) result }
    ensures rest { K.rest sink.new ≡ K.rest sink.old }
{
    let mut went = 0;
    while went < bytes.len() {
        match sink.write(&bytes[went..]) {
            Ok(n) => went += n,
            Err(Failed) => return Err(WriteFault { went }),
        }
    }
    Ok(())
}
