use chunk_grammar::Chunk;
use xdf_model::Why;

/// What one who reads a file from its front is told next. Places are bytes, counted from the file's
/// first one. This project's own.
#[derive(Debug, Drop)]
pub enum Next {
    /// A whole chunk, whose first byte is at `at`.
    Chunk { at: u64, chunk: Chunk },
    /// The file ends behind its last chunk, and has `at` bytes.
    End { at: u64 },
    /// The file ends within a chunk: `left` bytes are there from `at` on.
    Torn { at: u64, left: u64 },
    /// No chunk stands here, whatever follows. The first fault is at `at`.
    Bad { at: u64, why: Why },
    /// A read failed.
    ReadFault,
    /// The file is longer than the limit, and its bytes up to there hold no further chunk and no fault.
    SizeLimit,
    /// Want of memory, and nothing else.
    Memory,
}
