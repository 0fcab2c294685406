//! A file that is read, or a peer.

ghost use Rattle.std.specs.Io.{ReadsAtMost};
ghost use Rattle.std.specs.Io.KnownBytes.{ReadConsumes};
ghost use Rattle.real_dock.specs.Origins.{left_of};

use crate::notes::Notes;
use crate::retry::read_again;
use rec_base::{Failed, Source};
use std::alloc::Global;
use std::io::{self, Read};
use std::sync::Arc;

/// What the bytes come from.
#[derive(Drop)]
pub(crate) enum Origin<F: Drop, P: Drop> {
    File(F),
    Peer(P),
}

/// An open file, or a peer that was sent its request. It tells what these tell of their bytes, and counts
/// the reads that failed.
#[derive(Drop)]
pub struct RealSource<F: Drop, P: Drop> {
    origin: Origin<F, P>,
    faults: u64,
    // its place among those that were opened
    place: usize,
    notes: Option<Arc<Notes, Global>>,
}

impl<F: Read + Drop, P: Read + Drop> RealSource<F, P> {
    pub(crate) fn new(
        origin: Origin<F, P>,
        place: usize,
        notes: Option<Arc<Notes, Global>>,
    ) -> RealSource<F, P> {
        RealSource {
            origin,
            faults: 0,
            place,
            notes,
        }
    }
}

// One read of either that no signal interrupted. A peer gives what has arrived, and is waited for where
// nothing has.
fn read_origin<F: Read + Drop, P: Read + Drop>(
    origin: &mut Origin<F, P>,
    buf: &mut [u8],
) -> io::Result<usize>
    ensures bound { ReadsAtMost result buf.new }
    ensures bytes { ReadConsumes (left_of F.remaining P.remaining origin.old) (left_of F.remaining P.remaining origin.new) result buf.new }
{
    match origin {
        Origin::File(file) => read_again(file, buf),
        Origin::Peer(peer) => read_again(peer, buf),
    }
}

impl<F: Read + Drop, P: Read + Drop> Source for RealSource<F, P> {
    ghost use Rattle.real_dock.specs.Origins.{left_of};

    ghost left = { λ s. left_of F.remaining P.remaining s.origin };

    ghost faults = { λ s. s.faults };

    ghost mark = { λ _. tt };

    /// Answers `Failed` where the system refuses the read, or the peer broke the connection. A read that
    /// a signal interrupts is tried again.
    fn read(&mut self, buf: &mut [u8]) -> Result<usize, Failed> {
        match read_origin(&mut self.origin, buf) {
            Ok(n) => {
                if let Some(notes) = &self.notes {
                    notes.count_read(n);
                }
                Ok(n)
            }
            Err(fault) => {
                if let Some(notes) = &self.notes {
                    notes.note_read(self.place, &fault);
                }
                self.faults = self.faults.saturating_add(1);
                Err(Failed)
            }
        }
    }
}
