//! What to do by an answer of the reader.

ghost use Rattle.std.specs.Prelude.{◌≡◌, ℕ, List};
ghost use Rattle.chunk_grammar.specs.Chunk.{Context};
ghost use Rattle.file_reader.specs.AsNext.{as_next};
ghost use Rattle.xdf_repair.specs.Copying.{turn_by};

use crate::repaired::Repaired;
use file_reader::Passed;

/// What to do next.
pub(crate) enum Turn {
    /// Write the chunk.
    Copy,
    /// Count what is left.
    Skip,
    /// Give up.
    Stop(Repaired),
}

/// What to do by an answer.
pub(crate) fn turn_by(passed: Passed) -> Turn
    ensures { (context : Context) (text : List ℕ) → turn_by (as_next context text passed) ≡ result }
{
    match passed {
        Passed::Chunk { .. } => Turn::Copy,
        Passed::End { .. } | Passed::Torn { .. } | Passed::Bad { .. } => Turn::Skip,
        Passed::ReadFault => Turn::Stop(Repaired::ReadFault),
        Passed::SizeLimit => Turn::Stop(Repaired::SizeLimit),
        Passed::Memory => Turn::Stop(Repaired::Memory),
    }
}
