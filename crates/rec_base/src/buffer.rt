ghost use Rattle.std.specs.Prelude.{◌≡◌, ◌≤◌, ◌-◌, ◌++◌, [], length, take, min, IfOk};

use crate::Memory;
use std::alloc::Global;
use std::marker::Model;

// Bytes, with memory for so many of them.
#[derive(Debug, Drop)]
pub(crate) struct Buffer {
    bytes: Vec<u8>,
    room: usize,
}

impl Model for Buffer {
    ghost use Rattle.std.specs.Prelude.{vec_capacity, ◌≤◌};
    ghost use Rattle.rec_base.specs.Buffer.{BufferState};

    ghost Value = { BufferState };

    ghost view = { λ b. record { bytes = b.bytes.items; room = b.room } };

    ghost invariant = { λ b. b.room ≤ vec_capacity b.bytes };
}

impl Buffer {
    pub(crate) fn new(alloc: Global, room: usize) -> Result<Buffer, Memory>
        ensures { IfOk result (λ b. b ≡ record { bytes = []; room = room }) }
    {
        let bytes = Vec::with_capacity(alloc, room)?;
        Ok(Buffer { bytes, room })
    }

    pub(crate) fn bytes(&self) -> &[u8]
        ensures { result.now ≡ self.now.bytes }
    {
        &self.bytes
    }

    // Appends as many bytes as there is room for.
    pub(crate) fn append_front(&mut self, bytes: &[u8]) -> usize
        ensures count { result ≡ min (length bytes.now) (self.old.room - length self.old.bytes) }
        ensures bytes { self.new.bytes ≡ self.old.bytes ++ take result bytes.now }
        ensures room { self.new.room ≡ self.old.room }
    {
        let n = bytes.len().min(self.room.saturating_sub(self.bytes.len()));
        match self.bytes.extend_from_slice(&bytes[..n]) {
            Ok(()) => n,
            Err(_) => unreachable!(),
        }
    }

    // Puts other bytes in their place.
    pub(crate) fn replace(&mut self, bytes: &[u8])
        requires { length bytes.now ≤ self.old.room }
        ensures bytes { self.new.bytes ≡ bytes.now }
        ensures room { self.new.room ≡ self.old.room }
    {
        self.bytes.clear();
        match self.bytes.extend_from_slice(bytes) {
            Ok(()) => {}
            Err(_) => unreachable!(),
        }
    }
}
