//! Why no value could be read.

ghost use Rattle.std.specs.Prelude.{◌≡◌};

use sample_values::WalkFault;
use xdf_model::Why;

pub(crate) fn wrong(left: usize, why: Why) -> WalkFault
    ensures { result ≡ WalkFault.Wrong left why }
{
    WalkFault::Wrong { left, why }
}
