//! Reads an input to its end.

ghost use Rattle.std.specs.Prelude.{◌≡◌, ◌≤◌, ◌^◌, ◌+◌, ◌-◌, false};
ghost use Rattle.rec_base.specs.Causes.{Blames};
ghost use Rattle.rec_base.specs.Known.{LosesAtMost};
ghost use Rattle.file_reader.specs.FileInlet.{IsSkipped};

use crate::rest::Rest;
use rec_base::{Failed, Source};

// How many bytes are asked for at once.
const PIECE: usize = 4096;

/// Reads a source to its end and keeps nothing, where so many bytes of it were taken before and so many
/// count; no more than one byte past those is read.
pub(crate) fn skip_source<S: Source>(source: &mut S, taken: u64, limit: u64) -> Rest
    requires { limit ≤ 2 ^ 40 }
    ensures skipped { IsSkipped (S.left source.old) (S.left source.new) false taken limit result }
    ensures cause { Blames (result ≡ Rest.ReadFault) (S.faults source.old) (S.faults source.new) }
    ensures marked { S.mark source.new ≡ S.mark source.old }
    ensures one_past { LosesAtMost (limit + 1 - taken) (S.left source.old) (S.left source.new) }
{
    let mut buffer = [0; PIECE];
    let mut size = taken;
    while size <= limit {
        let most = (limit - size + 1).min(PIECE as u64) as usize;
        match source.read(&mut buffer[..most]) {
            Ok(0) => return Rest::End { size },
            Ok(n) => size += n as u64,
            Err(Failed) => return Rest::ReadFault,
        }
    }
    Rest::SizeLimit
}
