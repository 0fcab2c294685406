//! How many bytes a cut chunk surely still wants.

ghost use Rattle.std.specs.Prelude.{◌≤◌, ◌<◌, ◌+◌, length};

use xdf_lengths::{NumRead, read_num};

// The most that a chunk's length may be, in bytes. This project's own.
const LENGTH_LIMIT: u64 = 67_108_864;

// The size of a chunk with its length, as far as its first bytes tell it.
fn known_size(bytes: &[u8]) -> usize
    ensures { result ≤ 67_108_873 }
{
    match read_num(bytes) {
        NumRead::Read { value, used } if value <= LENGTH_LIMIT => used + value as usize,
        NumRead::Short => match bytes.first() {
            Some(width) => 1 + *width as usize,
            None => 1,
        },
        _ => 0,
    }
}

/// How many bytes are surely missing behind these, which hold no whole chunk: those up to the end of
/// the length, or of the chunk. It is one at least.
pub(crate) fn missing(bytes: &[u8]) -> usize
    ensures some { 0 < result }
    ensures within { length bytes.now < 67_108_873 → length bytes.now + result ≤ 67_108_873 }
{
    known_size(bytes).saturating_sub(bytes.len()).max(1)
}
