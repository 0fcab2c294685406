//! What is told of a chunk that is gone past.

ghost use Rattle.std.specs.Prelude.{◌≡◌, List, ℕ};
ghost use Rattle.chunk_grammar.specs.Chunk.{Context as Streams};
ghost use Rattle.file_reader.specs.AsNext.{HasValue, as_next};

use chunk_grammar::Chunk;
use file_model::Next;
use xdf_model::Why;

/// What one who goes past the chunks of a file, and wants no value of them, is told next: as
/// [`Next`](crate::Next), where a chunk is told by its place alone. This project's own.
#[derive(Clone, Copy, Debug, PartialEq, Eq)]
pub enum Passed {
    /// A whole chunk, whose first byte is at `at`.
    Chunk { at: u64 },
    /// The file ends behind its last chunk, and has `at` bytes.
    End { at: u64 },
    /// The file ends within a chunk: `left` bytes are there from `at` on.
    Torn { at: u64, left: u64 },
    /// No chunk stands here, whatever follows. The first fault is at `at`.
    Bad { at: u64, why: Why },
    /// A read failed.
    ReadFault,
    /// The file is longer than the limit, and its bytes up to there hold no further chunk and no fault.
    SizeLimit,
    /// Want of memory, and nothing else.
    Memory,
}

// The same with the chunk's value.
pub(crate) fn next_with(passed: Passed, value: Option<Chunk>) -> Next
    ensures { (context : Streams) (text : List ℕ) → HasValue (as_next context text passed) value → result ≡ as_next context text passed }
{
    match (passed, value) {
        (Passed::Chunk { at }, Some(chunk)) => Next::Chunk { at, chunk },
        // A chunk comes with its value.
        (Passed::Chunk { .. }, None) => Next::Memory,
        (Passed::End { at }, _) => Next::End { at },
        (Passed::Torn { at, left }, _) => Next::Torn { at, left },
        (Passed::Bad { at, why }, _) => Next::Bad { at, why },
        (Passed::ReadFault, _) => Next::ReadFault,
        (Passed::SizeLimit, _) => Next::SizeLimit,
        (Passed::Memory, _) => Next::Memory,
    }
}
