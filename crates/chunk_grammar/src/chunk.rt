ghost use Rattle.std.specs.Prelude.{◌≡◌};
ghost use Rattle.chunk_grammar.specs.Chunk.{tag_of};

use crate::SampleList;
use rec_base::Blob;

/// A chunk of a file, of one of the six kinds of XDF 1.0 ("Chunk layout"), or of a tag that the
/// format leaves open. Documents are kept as bytes, and times as patterns of IEEE 754 doubles. An
/// `id` is the number of a stream.
#[derive(Debug, Drop)]
pub enum Chunk {
    /// Tag 1: a document about the file.
    FileHeader { doc: Blob },
    /// Tag 2: the document of a stream, which tells its shape.
    StreamHeader { id: u32, doc: Blob },
    /// Tag 3: samples of a stream.
    Samples { id: u32, samples: SampleList },
    /// Tag 4: when an offset between two clocks was measured, and how large it was. Both are patterns
    /// of doubles, in seconds.
    ClockOffset { id: u32, time: u64, offset: u64 },
    /// Tag 5: sixteen fixed bytes, by which a reader finds its place again.
    Boundary,
    /// Tag 6: what was recorded of a stream.
    StreamFooter { id: u32, doc: Blob },
    /// Any other tag, 0 or 7 and above, with any bytes. The tag of a kind above has no text here.
    Other { tag: u16, body: Blob },
}

/// The tag that stands in a chunk's text, which tells its kind (XDF 1.0, "Chunk layout").
pub fn tag_of_chunk(chunk: &Chunk) -> u16
    ensures { result ≡ tag_of chunk.now }
{
    match chunk {
        Chunk::FileHeader { .. } => 1,
        Chunk::StreamHeader { .. } => 2,
        Chunk::Samples { .. } => 3,
        Chunk::ClockOffset { .. } => 4,
        Chunk::Boundary => 5,
        Chunk::StreamFooter { .. } => 6,
        Chunk::Other { tag, .. } => *tag,
    }
}
