//! A chunk where it lies.

ghost use Rattle.std.specs.Prelude.{◌≡◌, IfOk};
ghost use Rattle.chunk_decoder.specs.Viewed.{chunk_in};

use crate::samples::SamplesAt;
use chunk_grammar::Chunk;
use rec_base::{Blob, Memory};
use std::alloc::Global;

/// A chunk where it lies, as [`Chunk`], with no value made: documents, bodies and samples are the
/// bytes that stand there.
#[derive(Drop)]
pub enum ChunkView<'a> {
    /// Tag 1.
    FileHeader { doc: &'a [u8] },
    /// Tag 2.
    StreamHeader { id: u32, doc: &'a [u8] },
    /// Tag 3.
    Samples { id: u32, samples: SamplesAt<'a> },
    /// Tag 4. Both times are patterns of doubles, in seconds.
    ClockOffset { id: u32, time: u64, offset: u64 },
    /// Tag 5.
    Boundary,
    /// Tag 6.
    StreamFooter { id: u32, doc: &'a [u8] },
    /// Any other tag.
    Other { tag: u16, body: &'a [u8] },
}

impl<'a> ChunkView<'a> {
    /// A copy of the chunk: one copy of its bytes, at most.
    pub fn copy(&self, alloc: Global) -> Result<Chunk, Memory>
        ensures { IfOk result (λ c. c ≡ chunk_in self.now) }
    {
        Ok(match self {
            ChunkView::FileHeader { doc } => Chunk::FileHeader {
                doc: Blob::from_bytes(alloc, doc)?,
            },
            ChunkView::StreamHeader { id, doc } => Chunk::StreamHeader {
                id: *id,
                doc: Blob::from_bytes(alloc, doc)?,
            },
            ChunkView::Samples { id, samples } => Chunk::Samples {
                id: *id,
                samples: samples.copy(alloc)?,
            },
            ChunkView::ClockOffset { id, time, offset } => Chunk::ClockOffset {
                id: *id,
                time: *time,
                offset: *offset,
            },
            ChunkView::Boundary => Chunk::Boundary,
            ChunkView::StreamFooter { id, doc } => Chunk::StreamFooter {
                id: *id,
                doc: Blob::from_bytes(alloc, doc)?,
            },
            ChunkView::Other { tag, body } => Chunk::Other {
                tag: *tag,
                body: Blob::from_bytes(alloc, body)?,
            },
        })
    }
}
