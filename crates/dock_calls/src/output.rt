//! What every command says.

ghost use Rattle.std.specs.Prelude.{◌≡◌, ◌≤◌, ◌++◌, ◌∷◌, OnOk, OnErr, IsTrue, codes};
ghost use Rattle.std.specs.Fmt.{decimal};
ghost use Rattle.std.specs.Io.KnownBytes.{Appends};
ghost use Rattle.rec_base.specs.Causes.{HasCause};
ghost use Rattle.rec_base.specs.Known.{AppendsFront, printed_line};
ghost use Rattle.dock_calls.specs.Said.{SaysFault, is_usage};

use rec_base::{Dock, Failed, Lines, Sink};

/// Says a line; at `Failed` a front of it may have been said. Nothing else of the dock changes.
/// This project's own.
pub fn say_line<D: Dock>(dock: &mut D, line: &str) -> Result<(), Failed>
    ensures ok { OnOk result (Appends (D.printed dock.old) (D.printed dock.new) (printed_line line.now)) }
    ensures err { OnErr result (AppendsFront (D.printed dock.old) (D.printed dock.new) (printed_line line.now)) }
    ensures cause { HasCause (D.print_faults dock.old) (D.print_faults dock.new) result }
    ensures rest { D.Lines.rest dock.new ≡ D.Lines.rest dock.old }
{
    dock.say(line)
}

/// The line of a usage fault: `fault 2 usage` and the number of the usage, 1 to 5. This project's
/// own.
pub fn usage_line(why: u8) -> &'static str
    requires known { IsTrue (is_usage why) }
    ensures { result.now ≡ codes "fault 2 usage " ++ decimal why }
{
    match why {
        1 => "fault 2 usage 1",
        2 => "fault 2 usage 2",
        3 => "fault 2 usage 3",
        4 => "fault 2 usage 4",
        _ => "fault 2 usage 5",
    }
}

/// Says the line of a fault, which is the last thing that a command says. Whether it is said changes
/// no status. This project's own.
pub fn say_fault<D: Dock>(dock: &mut D, line: &str)
    ensures line { SaysFault (D.printed dock.old) (D.printed dock.new) (D.print_faults dock.old) (D.print_faults dock.new) line.now }
    ensures later { D.print_faults dock.old ≤ D.print_faults dock.new }
    ensures rest { D.Lines.rest dock.new ≡ D.Lines.rest dock.old }
{
    let _ = say_line(dock, line);
}
