//! The sign of life: one line on a terminal, written anew at most twice a second.

use arrayvec::ArrayString;
use std::fmt::Write as _;
use std::io::{IsTerminal, Write};
use std::sync::atomic::{AtomicU64, Ordering};
use std::time::{Clock, Duration};

// How long a command runs before it shows that it does, and how long a line stands at least.
const FIRST: u64 = 1000;

const NEXT: u64 = 500;

/// What a command has read and written so far. It stands on standard error, and never fails.
#[derive(Drop)]
pub struct Pulse {
    system: HostRuntime,
    // what the command does
    work: &'static str,
    begun: Duration,
    // when the next line is due, in milliseconds from the beginning
    due: AtomicU64,
    read: AtomicU64,
    written: AtomicU64,
    // how many bytes there are to be read; the most that there can be where that isn't known
    size: AtomicU64,
}

impl Pulse {
    /// The sign of life of a command that does this work, as `recording`. `None` where standard error is no
    /// terminal.
    pub fn new(system: HostRuntime, work: &'static str) -> Option<Pulse> {
        if !system.stderr().is_terminal() {
            return None;
        }
        Some(Pulse {
            system,
            work,
            begun: system.monotonic().ok()?,
            due: AtomicU64::new(FIRST),
            read: AtomicU64::new(0),
            written: AtomicU64::new(0),
            size: AtomicU64::new(0),
        })
    }

    /// So many bytes more are to be read; none where that isn't known.
    pub(crate) fn expect(&self, bytes: Option<u64>) {
        let size = self.size.load(Ordering::Relaxed);
        let more = match bytes {
            Some(bytes) => size.saturating_add(bytes),
            None => u64::MAX,
        };
        self.size.store(more, Ordering::Relaxed);
    }

    pub(crate) fn count_read(&self, bytes: usize) {
        self.read.fetch_add(bytes as u64, Ordering::Relaxed);
        self.beat();
    }

    pub(crate) fn count_written(&self, bytes: usize) {
        self.written.fetch_add(bytes as u64, Ordering::Relaxed);
        self.beat();
    }

    /// Takes the line off the terminal, if there is one.
    pub(crate) fn clear(&self) {
        if self.due.load(Ordering::Relaxed) > FIRST {
            let _ = self.system.stderr().write_all(b"\r\x1b[K");
        }
    }

    // Writes the line anew where it is due. Of several threads at once one does.
    fn beat(&self) {
        let Ok(now) = self.system.monotonic() else {
            return;
        };
        let passed = u64::try_from(now.saturating_sub(self.begun).as_millis()).unwrap_or(u64::MAX);
        let due = self.due.load(Ordering::Relaxed);
        if passed < due {
            return;
        }
        let next = passed.saturating_add(NEXT);
        if self
            .due
            .compare_exchange(due, next, Ordering::Relaxed, Ordering::Relaxed)
            .is_ok()
        {
            let line = self.line(passed / 1000);
            let _ = self.system.stderr().write_all(line.as_bytes());
        }
    }

    // The line after so many seconds.
    fn line(&self, seconds: u64) -> ArrayString<120> {
        let mut line = ArrayString::new();
        let read = self.read.load(Ordering::Relaxed);
        let written = self.written.load(Ordering::Relaxed);
        let size = self.size.load(Ordering::Relaxed);
        let _ = write!(line, "\r\x1b[K{}: {seconds} s", self.work);
        if written > 0 {
            let _ = line.try_push_str(", ");
            put_size(&mut line, written);
            let _ = line.try_push_str(" written");
        }
        if size < u64::MAX && size > 0 {
            let _ = write!(line, ", {} % read", read.saturating_mul(100) / size);
        } else {
            let _ = line.try_push_str(", ");
            put_size(&mut line, read);
            let _ = line.try_push_str(" read");
        }
        line
    }
}

// A number of bytes, in millions where there are some.
fn put_size(line: &mut ArrayString<120>, bytes: u64) {
    let _ = if bytes < 1_000_000 {
        write!(line, "{bytes} bytes")
    } else {
        write!(line, "{}.{} MB", bytes / 1_000_000, bytes / 100_000 % 10)
    };
}
