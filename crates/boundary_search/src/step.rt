//! What a salvager answers.

ghost use Rattle.std.specs.Prelude.{◌≡◌, ℕ, List, Some};
ghost use Rattle.chunk_grammar.specs.Chunk.{Context as Streams};
ghost use Rattle.chunk_grammar.specs.Standing.{standing_at};
ghost use Rattle.file_reader.specs.AsNext.{HasValue, as_next, chunk_of};
ghost use Rattle.boundary_search.specs.Following.{HasValueIn};
ghost use Rattle.boundary_search.specs.Salvage.{as_step};

use chunk_grammar::Chunk;
use file_reader::{Next, Passed};

/// How the salvaging of a file ended. This project's own.
#[derive(Clone, Copy, Debug, PartialEq, Eq)]
pub enum SalvageEnd {
    /// The input ended.
    End,
    /// A read failed.
    ReadFault,
    /// The file is longer than the limit.
    SizeLimit,
}

/// What one who goes past the parts of a damaged file is told next. Places are bytes, counted from the
/// file's first one. This project's own.
#[derive(Clone, Copy, Debug, PartialEq, Eq)]
pub enum Salvaged {
    /// A whole chunk, whose first byte is at `at`.
    Chunk { at: u64 },
    /// The bytes from `from` up to `to` are skipped. No whole chunk stands at `from`; they end with the
    /// first boundary's bytes behind it, or, where there are none, with the file.
    Skipped { from: u64, to: u64 },
    /// The file ends behind its last part.
    End,
    /// A read failed.
    ReadFault,
    /// The file is longer than the limit, and of its bytes up to there nothing further can be told.
    SizeLimit,
    /// Want of memory, and nothing else.
    Memory,
}

/// The same, where a chunk is told with its value. This project's own.
#[derive(Debug, Drop)]
pub enum SalvageStep {
    /// A whole chunk, whose first byte is at `at`.
    Chunk { at: u64, chunk: Chunk },
    /// The bytes from `from` up to `to` are skipped. No whole chunk stands at `from`; they end with the
    /// first boundary's bytes behind it, or, where there are none, with the file.
    Skipped { from: u64, to: u64 },
    /// The file ends behind its last part.
    End,
    /// A read failed.
    ReadFault,
    /// The file is longer than the limit, and of its bytes up to there nothing further can be told.
    SizeLimit,
    /// Want of memory, and nothing else.
    Memory,
}

// The answer of the reader beneath, and the value of a chunk.
pub(crate) fn parted(next: Next) -> (Passed, Option<Chunk>)
    ensures same { (context : Streams) (text : List ℕ) → HasValueIn context text next → as_next context text result.0 ≡ next }
    ensures value { (context : Streams) (text : List ℕ) → HasValueIn context text next → HasValue next result.1 }
{
    match next {
        Next::Chunk { at, chunk } => (Passed::Chunk { at }, Some(chunk)),
        Next::End { at } => (Passed::End { at }, None),
        Next::Torn { at, left } => (Passed::Torn { at, left }, None),
        Next::Bad { at, why } => (Passed::Bad { at, why }, None),
        Next::ReadFault => (Passed::ReadFault, None),
        Next::SizeLimit => (Passed::SizeLimit, None),
        Next::Memory => (Passed::Memory, None),
    }
}

// The same with the chunk's value.
pub(crate) fn step_with(found: Salvaged, value: Option<Chunk>) -> SalvageStep
    ensures { (context : Streams) (text : List ℕ) → ((at : ℕ) → found ≡ Salvaged.Chunk at → value ≡ Some (chunk_of (standing_at context text))) → result ≡ as_step context text found }
{
    match (found, value) {
        (Salvaged::Chunk { at }, Some(chunk)) => SalvageStep::Chunk { at, chunk },
        // A chunk comes with its value.
        (Salvaged::Chunk { .. }, None) => SalvageStep::Memory,
        (Salvaged::Skipped { from, to }, _) => SalvageStep::Skipped { from, to },
        (Salvaged::End, _) => SalvageStep::End,
        (Salvaged::ReadFault, _) => SalvageStep::ReadFault,
        (Salvaged::SizeLimit, _) => SalvageStep::SizeLimit,
        (Salvaged::Memory, _) => SalvageStep::Memory,
    }
}
