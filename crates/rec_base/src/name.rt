use crate::{Blob, Word};

/// What a dock can open: a file by its path, or a peer by its host and its port, to whom the request
/// is sent before the first byte is read. This project's own.
#[derive(Debug, Drop)]
pub enum Name {
    File(Word),
    Peer {
        host: Word,
        port: u16,
        request: Blob,
    },
}
