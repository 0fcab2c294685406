ghost use Rattle.std.specs.Prelude.{◌≡◌, IfOk};

use crate::Memory;
use std::alloc::Global;
use std::marker::Model;

/// Bytes that are owned. Contracts see the list of them.
#[derive(Debug, Drop)]
pub struct Blob {
    bytes: Vec<u8>,
}

impl Model for Blob {
    ghost use Rattle.std.specs.Prelude.{List, ℕ};

    ghost Value = { List ℕ };

    ghost view = { λ b. b.bytes.items };
}

impl Blob {
    /// A copy of the bytes, or `Memory` where there is no room for it.
    pub fn from_bytes(alloc: Global, bytes: &[u8]) -> Result<Blob, Memory>
        ensures { IfOk result (λ blob. blob ≡ bytes.now) }
    {
        let bytes = bytes.to_vec(alloc)?;
        Ok(Blob { bytes })
    }

    /// The bytes of a vector, which are not copied.
    pub fn from_vec(bytes: Vec<u8>) -> Blob
        ensures { result ≡ bytes.items }
    {
        Blob { bytes }
    }

    pub fn bytes(&self) -> &[u8]
        ensures { result.now ≡ self.now }
    {
        &self.bytes
    }
}
