//! Goes past a place at which no whole chunk stands.

ghost use Rattle.std.specs.Prelude.{◌≡◌, ◌≤◌, IsTrue, IsErrOf, ◌⊎◌};
ghost use Rattle.std.specs.Io.KnownBytes.{IsAtEnd};
ghost use Rattle.rec_base.specs.Causes.{Blames};
ghost use Rattle.boundary_search.specs.Searching.{NoneStands, IsSearched};

use crate::find::find_boundary;
use crate::step::SalvageEnd;
use file_reader::FileReader;
use rec_base::{Failed, Source};

// One byte less than a boundary has: what is kept of the bytes in which none was found, since one may
// begin there.
const KEPT: usize = 15;

/// Goes past the bytes up to the end of the first boundary's bytes, or past all bytes where there are
/// none, at a place at which no whole chunk stands. `ended` tells whether the input has ended.
///
/// Each place is tried once. `ReadFault` comes only where a read failed, and `SizeLimit` where the bytes
/// that count have no boundary's and there are more. No memory is taken.
pub(crate) fn skip_range<S: Source>(
    reader: &mut FileReader<S>,
    ended: &mut bool,
) -> Result<(), SalvageEnd>
    requires stands { NoneStands ended.old reader.old.file }
    ensures searched { IsSearched (S.left reader.old.source) (S.left reader.new.source) ended.old ended.new reader.old.file reader.new.file result }
    ensures closed { IsTrue ended.new → IsTrue ended.old ⊎ IsAtEnd (S.left reader.new.source) }
    ensures still { IsTrue ended.old → (reader.new.source ≡ reader.old.source) × IsTrue ended.new }
    ensures cause { Blames (IsErrOf result SalvageEnd.ReadFault) (S.faults reader.old.source) (S.faults reader.new.source) }
    ensures marked { S.mark reader.new.source ≡ S.mark reader.old.source }
{
    'pieces: loop {
        let bytes = reader.counted();
        let size = bytes.len();
        if let Some(place) = find_boundary(bytes, 0) {
            reader.leave(place + KEPT + 1);
            return Ok(());
        }
        if reader.is_past_limit() {
            return Err(SalvageEnd::SizeLimit);
        }
        if *ended {
            reader.leave(size);
            return Ok(());
        }
        reader.leave(size.saturating_sub(KEPT));
        match reader.take_behind() {
            Ok(0) => *ended = true,
            Ok(_) => {}
            Err(Failed) => return Err(SalvageEnd::ReadFault),
        }
    }
}
