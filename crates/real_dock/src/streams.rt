//! Numbers of open files, beside those of the standard streams.
//!
//! Where a standard stream is closed, the system gives its number to what is opened next. If that were
//! standard output's, the lines would go into it.

ghost use Rattle.std.specs.Prelude.{◌≡◌, ◌<ℤ◌, pos, IfSome};

use std::fs::OpenFile;
use std::net::OpenStream;
use std::os::fd::AsRawFd;

// The number of standard error.
const LAST_STREAM: i32 = 2;

/// A file, and its number, which is past those of the standard streams.
#[derive(Drop)]
pub(crate) struct HighFile<F: Drop> {
    pub(crate) file: F,
    pub(crate) number: i32,
    ghost beside_streams: { pos 2 <ℤ number },
}

/// The same file under a number past those of the standard streams.
pub(crate) fn file_beside_streams<F: OpenFile + AsRawFd + Drop>(file: F) -> Option<HighFile<F>>
    ensures { IfSome result (λ high. IfSome (F.raw_fd high.file) (λ number. high.number ≡ number)) }
{
    let number = file.as_raw_fd();
    if number > LAST_STREAM {
        return Some(HighFile { file, number });
    }
    let Ok(copy) = file.try_clone() else {
        return None;
    };
    let number = copy.as_raw_fd();
    if number > LAST_STREAM {
        return Some(HighFile { file: copy, number });
    }
    None
}

/// The same connection under a number past those of the standard streams.
pub(crate) fn peer_beside_streams<P: OpenStream + AsRawFd + Drop>(peer: P) -> Option<P>
    ensures { IfSome result (λ peer. IfSome (P.raw_fd peer) (λ number. pos 2 <ℤ number)) }
{
    if peer.as_raw_fd() > LAST_STREAM {
        return Some(peer);
    }
    match peer.try_clone() {
        Ok(copy) if copy.as_raw_fd() > LAST_STREAM => Some(copy),
        _ => None,
    }
}
