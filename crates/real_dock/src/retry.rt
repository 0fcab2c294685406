//! Reads and writes that a signal interrupts are tried again.

ghost use Rattle.std.specs.Prelude.{◌≡◌, ◌≢◌, ◌↔◌, IsTrue, IfErr};
ghost use Rattle.std.specs.Io.{ReadsAtMost, WritesAtMost};
ghost use Rattle.std.specs.Io.KnownBytes.{ReadConsumes, WriteAppends};
ghost use Rattle.std.specs.IoError.{error_kind};
ghost use Rattle.std.specs.declared.io.ErrorKind.TheVariants.{Interrupted};

use std::io::{self, Read, Write};

/// One read that no signal interrupted.
pub(crate) fn read_again<F: Read>(file: &mut F, buf: &mut [u8]) -> io::Result<usize>
    ensures bound { ReadsAtMost result buf.new }
    ensures bytes { ReadConsumes (F.remaining file.old) (F.remaining file.new) result buf.new }
    ensures again { IfErr result (λ fault. error_kind fault ≢ Interrupted) }
{
    for _ in 0..u64::MAX {
        match file.read(buf) {
            Ok(n) => return Ok(n),
            Err(fault) => {
                if !is_interrupted(&fault) {
                    return Err(fault);
                }
            }
        }
    }
    Err(io::Error::from(io::ErrorKind::TimedOut))
}

/// One write that no signal interrupted.
pub(crate) fn write_again<F: Write>(file: &mut F, bytes: &[u8]) -> io::Result<usize>
    ensures bound { WritesAtMost result bytes.now }
    ensures bytes { WriteAppends (F.contents file.old) (F.contents file.new) result bytes.now }
    ensures again { IfErr result (λ fault. error_kind fault ≢ Interrupted) }
{
    for _ in 0..u64::MAX {
        match file.write(bytes) {
            Ok(n) => return Ok(n),
            Err(fault) => {
                if !is_interrupted(&fault) {
                    return Err(fault);
                }
            }
        }
    }
    Err(io::Error::from(io::ErrorKind::TimedOut))
}

fn is_interrupted(fault: &io::Error) -> bool
    ensures { IsTrue result ↔ (error_kind fault.now ≡ Interrupted) }
{
    fault.kind() == io::ErrorKind::Interrupted
}
