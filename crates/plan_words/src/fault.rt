//! Why a line of a plan isn't taken.

ghost use Rattle.std.specs.Prelude.{◌≡◌};
ghost use Rattle.plan_words.specs.declared.fault.LineFault.TheVariants.{Memory as memory};

use plan_model::PlanWhy;
use rec_base::Memory;

/// The line is refused, or there was no memory.
#[derive(Debug, Drop)]
pub(crate) enum LineFault {
    Refused(PlanWhy),
    Memory,
}

impl From<Memory> for LineFault {
    ghost from_gives = { λ _ e. e ≡ memory };

    fn from(_fault: Memory) -> LineFault {
        LineFault::Memory
    }
}
