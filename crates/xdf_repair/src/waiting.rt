//! Bytes that wait, so that many small chunks go out in one write.

ghost use Rattle.std.specs.Prelude.{◌≡◌, ◌≤◌, ◌+◌, ◌++◌, length, take, IfOk, OnErr};
ghost use Rattle.rec_base.specs.Causes.{HasCause};
ghost use Rattle.rec_base.specs.Known.{AppendsFront};
ghost use Rattle.xdf_repair.specs.Copying.{Gathers};

use chunk_encoder::write_all_of;
use rec_base::{Failed, Sink};

/// How many bytes wait for one write at most.
pub(crate) const ROOM: usize = 65_536;

/// Puts bytes behind the first `len` of a room, and counts both.
pub(crate) fn put_behind(room: &mut [u8], len: usize, bytes: &[u8]) -> usize
    requires { len + length bytes.now ≤ length room.old }
    ensures count { result ≡ len + length bytes.now }
    ensures bytes { take result room.new ≡ take len room.old ++ bytes.now }
    ensures size { length room.new ≡ length room.old }
{
    let end = len + bytes.len();
    room[len..end].copy_from_slice(bytes);
    end
}

/// Appends bytes to the `len` that wait in a room, and counts those that wait then. Where they don't
/// fit, what waits is written first; bytes that fill a room are written as they lie.
pub(crate) fn gather<K: Sink>(
    sink: &mut K,
    room: &mut [u8],
    len: usize,
    bytes: &[u8],
) -> Result<usize, Failed>
    requires { len ≤ length room.old }
    ensures gathers { IfOk result (λ n. Gathers (K.held sink.old) (K.held sink.new) (take len room.old ++ bytes.now) (take n room.new)) }
    ensures within { IfOk result (λ n. n ≤ length room.new) }
    ensures front { OnErr result (AppendsFront (K.held sink.old) (K.held sink.new) (take len room.old ++ bytes.now)) }
    ensures size { length room.new ≡ length room.old }
    ensures cause { HasCause (K.write_faults sink.old) (K.write_faults sink.new) result }
    ensures rest { K.rest sink.new ≡ K.rest sink.old }
{
    if bytes.len() <= room.len() - len {
        return Ok(put_behind(room, len, bytes));
    }
    if write_all_of(sink, &room[..len]).is_err() {
        return Err(Failed);
    }
    if bytes.len() < room.len() {
        return Ok(put_behind(room, 0, bytes));
    }
    if write_all_of(sink, bytes).is_err() {
        return Err(Failed);
    }
    Ok(0)
}
