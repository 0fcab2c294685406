//! What is left to do at the end of a command.

ghost use Rattle.std.specs.Prelude.{◌≡◌, List, ℕ, Bool, true, Option, OnOk};
ghost use Rattle.std.specs.Io.KnownBytes.{Keeps};
ghost use Rattle.rec_base.specs.Causes.{HasCause};

use rec_base::{Dock, Failed, MemDock};

/// A dock that may keep what was written from the disk, and lines from whoever reads them, until it is
/// told to let them go. This project's own.
pub trait Settle: Dock {
    /// Whether all that was written is on the disk, as far as it goes to one.
    ghost is_forced: { Self → Bool };

    /// The bytes of the lines that are out, where the dock tells them.
    ghost out: { Self → Option (List ℕ) };

    /// Forces to the disk what was written. `Failed` comes where the system can't.
    fn force(&mut self) -> Result<(), Failed>
        ensures forced { OnOk result (is_forced self.new ≡ true) }
        ensures cause { HasCause (Self.write_faults self.old) (Self.write_faults self.new) result }
        ensures held { Self.held self.new ≡ Self.held self.old }
        ensures rest { Self.Sink.rest self.new ≡ Self.Sink.rest self.old };

    /// Puts out the lines that were said. `Failed` comes where not all of them were taken; what wasn't is
    /// not out.
    fn flush(&mut self) -> Result<(), Failed>
        ensures out { OnOk result (out self.new ≡ Self.printed self.new) }
        ensures said { Keeps (Self.printed self.old) (Self.printed self.new) }
        ensures cause { HasCause (Self.print_faults self.old) (Self.print_faults self.new) result }
        ensures forced { is_forced self.new ≡ is_forced self.old }
        ensures rest { Self.Lines.rest self.new ≡ Self.Lines.rest self.old };
}

/// In memory nothing is kept back.
impl Settle for MemDock {
    ghost use Rattle.std.specs.Prelude.{true, Some};

    ghost is_forced = { λ _. true };

    ghost out = { λ d. Some d.printed };

    fn force(&mut self) -> Result<(), Failed> {
        Ok(())
    }

    fn flush(&mut self) -> Result<(), Failed> {
        Ok(())
    }
}
