//! Says the lines of a recording.

ghost use Rattle.std.specs.Prelude.{◌≡◌, ◌≤◌, string_bytes, map, OnOk, OnErr};
ghost use Rattle.std.specs.Io.KnownBytes.{Appends};
ghost use Rattle.rec_base.specs.Causes.{HasCause};
ghost use Rattle.rec_base.specs.Known.{AppendsFront};
ghost use Rattle.report_model.specs.Shown.{printed_lines};

use dock_calls::say_line;
use rec_base::{Dock, Failed, Lines, Sink};

/// Says lines, one after the other, up to the first that can't be said.
pub(crate) fn say_lines<D: Dock>(dock: &mut D, lines: &[String]) -> Result<(), Failed>
    ensures said { OnOk result (Appends (D.printed dock.old) (D.printed dock.new) (printed_lines (map string_bytes lines.now))) }
    ensures failed { OnErr result (AppendsFront (D.printed dock.old) (D.printed dock.new) (printed_lines (map string_bytes lines.now))) }
    ensures cause { HasCause (D.print_faults dock.old) (D.print_faults dock.new) result }
    ensures rest { D.Lines.rest dock.new ≡ D.Lines.rest dock.old }
{
    for line in lines {
        match say_line(dock, line.as_str()) {
            Ok(()) => {}
            Err(Failed) => return Err(Failed),
        }
    }
    Ok(())
}
