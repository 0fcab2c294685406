//! Lines that are said.

ghost use Rattle.std.specs.Prelude.{◌≤◌, length, take, IfErr, OnOk};
ghost use Rattle.std.specs.Io.KnownBytes.{Appends};
ghost use Rattle.rec_base.specs.Known.{Says};

use crate::output::write_counted;
use refusal_text::Cause;
use std::io::Write;

// A write that failed, and how many bytes were taken before it.
#[derive(Drop)]
struct Refused {
    went: usize,
    cause: Cause,
}

/// Writes a line, and a line feed behind it. A refusal comes where a byte isn't taken; a front of the
/// line is then written.
pub(crate) fn say_into<W: Write>(out: &mut W, line: &str) -> Result<(), Cause>
    ensures { Says (W.contents out.old) (W.contents out.new) result line.now }
{
    match write_whole(out, line.as_bytes()) {
        Ok(()) => {}
        Err(refused) => return Err(refused.cause),
    }
    match write_whole(out, b"\n") {
        Ok(()) => Ok(()),
        Err(refused) => Err(refused.cause),
    }
}

// Writes all the bytes, in as many writes as it takes.
fn write_whole<W: Write>(out: &mut W, bytes: &[u8]) -> Result<(), Refused>
    ensures ok { OnOk result (Appends (W.contents out.old) (W.contents out.new) bytes.now) }
    ensures err { IfErr result (λ refused. Appends (W.contents out.old) (W.contents out.new) (take refused.went bytes.now)) }
    ensures went { IfErr result (λ refused. refused.went ≤ length bytes.now) }
{
    let mut went = 0;
    while went < bytes.len() {
        match write_counted(out, &bytes[went..]) {
            Ok(n) => went += n,
            Err(cause) => return Err(Refused { went, cause }),
        }
    }
    Ok(())
}
