ghost use Rattle.std.specs.Prelude.{◌≡◌, List, ℕ, Option};
ghost use Rattle.std.specs.Io.{ReadsAtMost};
ghost use Rattle.std.specs.Io.KnownBytes.{ReadConsumes};
ghost use Rattle.rec_base.specs.Causes.{HasCause};

use crate::Failed;

/// What bytes are read from. This project's own; a read means what it means in `std::io::Read`.
pub trait Source {
    /// The bytes still to come, where the source tells them.
    ghost left: { Self → Option (List ℕ) };

    /// How many reads failed.
    ghost faults: { Self → ℕ };

    /// What marks this source among others, and no read changes.
    ghost Mark: { Type 0 } = { Unit {0} };

    ghost mark: { Self → Self.Mark };

    /// Reads some bytes into the front of the buffer, and answers how many. `Ok(0)` with room in the
    /// buffer is the end of input. After `Failed` no byte is lost, and a later read may go on.
    fn read(&mut self, buf: &mut [u8]) -> Result<usize, Failed>
        ensures bound { ReadsAtMost result buf.new }
        ensures bytes { ReadConsumes (left self.old) (left self.new) result buf.new }
        ensures cause { HasCause (faults self.old) (faults self.new) result }
        ensures marked { mark self.new ≡ mark self.old };
}
