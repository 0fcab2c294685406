//! What the sources of a dock let it know, from whatever thread they are read in.

use crate::pulse::Pulse;
use std::io;
use std::sync::atomic::{AtomicU64, Ordering};

// The part of the word that has the system's number of a fault.
const CODE: u64 = 0xffff_ffff;

/// The first read that failed, and the sign of life, where there is one.
#[derive(Drop)]
pub(crate) struct Notes {
    // 0, or the place of the source and the system's number of the fault
    fault: AtomicU64,
    pulse: Option<Pulse>,
}

impl Notes {
    pub(crate) fn new(pulse: Option<Pulse>) -> Notes {
        Notes {
            fault: AtomicU64::new(0),
            pulse,
        }
    }

    /// Notes a read that failed, of the source at this place, unless one did before.
    pub(crate) fn note_read(&self, place: usize, fault: &io::Error) {
        let code = u64::from(fault.raw_os_error().unwrap_or(0).cast_unsigned());
        let word = (place as u64).saturating_add(1) << 32 | code;
        let _ = self
            .fault
            .compare_exchange(0, word, Ordering::SeqCst, Ordering::SeqCst);
    }

    /// The place of the source whose read failed first, and why.
    pub(crate) fn first_read(&self) -> Option<(usize, io::Error)> {
        let word = self.fault.load(Ordering::SeqCst);
        let place = (word >> 32).checked_sub(1)?;
        let code = u32::try_from(word & CODE).unwrap_or(0).cast_signed();
        Some((place as usize, io::Error::from_raw_os_error(code)))
    }

    /// So many bytes will be read of a source; none where that isn't known.
    pub(crate) fn expect(&self, bytes: Option<u64>) {
        if let Some(pulse) = &self.pulse {
            pulse.expect(bytes);
        }
    }

    /// So many bytes were read.
    pub(crate) fn count_read(&self, bytes: usize) {
        if let Some(pulse) = &self.pulse {
            pulse.count_read(bytes);
        }
    }

    /// So many bytes were written.
    pub(crate) fn count_written(&self, bytes: usize) {
        if let Some(pulse) = &self.pulse {
            pulse.count_written(bytes);
        }
    }

    /// Takes the sign of life off the terminal.
    pub(crate) fn clear(&self) {
        if let Some(pulse) = &self.pulse {
            pulse.clear();
        }
    }
}
