ghost use Rattle.std.specs.Prelude.{◌≡◌};
ghost use Rattle.stream_report.specs.declared.fault.SayFault.TheVariants.{Memory as memory};

use rec_base::Memory;
use thiserror::Error;

/// Why the lines of a chunk weren't all said. This project's own.
#[derive(Clone, Copy, Debug, PartialEq, Eq, Error)]
pub enum SayFault {
    /// A call of `say` failed.
    #[error("a line can't be said")]
    Print,
    /// There was no memory for a line, and nothing else went wrong.
    #[error("out of memory")]
    Memory,
}

impl From<Memory> for SayFault {
    ghost from_gives = { λ _ e. e ≡ memory };

    fn from(_fault: Memory) -> SayFault {
        SayFault::Memory
    }
}
