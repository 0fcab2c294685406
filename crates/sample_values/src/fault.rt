//! Why no sample could be walked over.

ghost use Rattle.std.specs.Prelude.{◌≡◌};

use xdf_model::Why;

/// Why no sample stands at a place. The reasons are this project's own.
#[derive(Clone, Copy, Debug, PartialEq, Eq)]
pub enum WalkFault {
    /// A byte that is needed lies behind the end of the bytes.
    Outside,
    /// A byte is wrong: so many bytes are left from it to the end, itself among them.
    Wrong { left: usize, why: Why },
}

pub(crate) fn wrong(left: usize, why: Why) -> WalkFault
    ensures { result ≡ WalkFault.Wrong left why }
{
    WalkFault::Wrong { left, why }
}
