ghost use Rattle.std.specs.Prelude.{◌≡◌, ◌+◌, ◌-◌, ◌^◌, ◌++◌, [], length, min, IfOk, OnOk, OnErr};
ghost use Rattle.rec_base.specs.Causes.{HasCause};

use crate::{Failed, Sink};
use std::alloc::Global;
use std::marker::Model;

/// A sink in memory that grows. A write takes all its bytes, or fails for want of memory. This
/// project's own.
#[derive(Debug, Drop)]
pub struct MemSink {
    bytes: Vec<u8>,
    faults: u64,
}

impl Model for MemSink {
    ghost use Rattle.rec_base.specs.MemSink.{SinkState};

    ghost Value = { SinkState };

    ghost view = { λ s. record { held = s.bytes.items; faults = s.faults } };
}

impl MemSink {
    /// A sink that nothing was written to. It takes no memory before the first write.
    pub fn new(alloc: Global) -> MemSink
        ensures { result ≡ record { held = []; faults = 0 } }
    {
        MemSink {
            bytes: Vec::new(alloc),
            faults: 0,
        }
    }

    /// The bytes written.
    pub fn held(&self) -> &[u8]
        ensures { result.now ≡ self.now.held }
    {
        &self.bytes
    }
}

impl Sink for MemSink {
    ghost use Rattle.std.specs.Prelude.{Some};

    ghost held = { λ s. Some s.held };

    ghost write_faults = { λ s. s.faults };

    ghost rest = { λ s. tt };

    fn write(&mut self, bytes: &[u8]) -> Result<usize, Failed>
        ensures count { IfOk result (λ n. n ≡ length bytes.now) }
        ensures ok { OnOk result (self.new ≡ record { held = self.old.held ++ bytes.now; faults = self.old.faults }) }
        ensures err { OnErr result (self.new ≡ record { held = self.old.held; faults = min (self.old.faults + 1) (2 ^ 64 - 1) }) }
        ensures cause { HasCause self.old.faults self.new.faults result }
    {
        match self.bytes.extend_from_slice(bytes) {
            Ok(()) => Ok(bytes.len()),
            Err(_) => {
                self.faults = self.faults.saturating_add(1);
                Err(Failed)
            }
        }
    }
}
