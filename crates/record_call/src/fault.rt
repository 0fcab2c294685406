ghost use Rattle.std.specs.Prelude.{◌≡◌};
ghost use Rattle.record_call.specs.declared.fault.RecordFault.TheVariants.{Memory as memory};

use rec_base::Memory;
use thiserror::Error;

/// Why nothing, or not all, was recorded: a variant for each status but 0 and 1.
#[derive(Clone, Copy, Debug, PartialEq, Eq, Error)]
pub(crate) enum RecordFault {
    /// The words break the usage of this number.
    #[error("usage {0}")]
    Usage(u8),
    /// The plan is refused: its first line that is, and the number of the reason.
    #[error("line {line} of the plan is refused for the reason {why}")]
    Plan { line: u64, why: u8 },
    /// An input can't be opened or read, or the output can't be created.
    #[error("an input or the output can't be opened")]
    Open,
    /// A write failed.
    #[error("the file can't be written")]
    Write,
    /// The header document of the feed of this id tells no shape, or is too long.
    #[error("the document of feed {0} is none")]
    Document(u32),
    /// The rings cost so many bytes, which is too much.
    #[error("the rings cost {0} bytes")]
    Cost(u64),
    /// A line can't be said.
    #[error("a line can't be said")]
    Say,
    /// There is no memory.
    #[error("out of memory")]
    Memory,
}

impl From<Memory> for RecordFault {
    ghost from_gives = { λ _ e. e ≡ memory };

    fn from(_e: Memory) -> RecordFault {
        RecordFault::Memory
    }
}
