ghost use Rattle.std.specs.Prelude.{◌≡◌, ◌+◌, ◌-◌, ◌^◌, min, is_err, false};
ghost use Rattle.rec_base.specs.Causes.{HasCause};

use crate::{Failed, Lines};
use std::marker::Model;

/// Lines that are counted and not kept, of which none fails. They tell no bytes. This project's own.
#[derive(Debug, Drop)]
pub struct CountLines {
    lines: u64,
}

impl Model for CountLines {
    ghost use Rattle.std.specs.Prelude.{ℕ};

    ghost Value = { ℕ };

    ghost view = { λ l. l.lines };
}

impl CountLines {
    /// No line was said yet.
    pub fn new() -> CountLines
        ensures { result ≡ 0 }
    {
        CountLines { lines: 0 }
    }

    /// How many lines were said. The number stands still at 2^64 - 1.
    pub fn lines(&self) -> u64
        ensures { result ≡ self.now }
    {
        self.lines
    }
}

impl Lines for CountLines {
    ghost use Rattle.std.specs.Prelude.{None};

    ghost printed = { λ l. None };

    ghost print_faults = { λ l. 0 };

    ghost rest = { λ l. tt };

    fn say(&mut self, _line: &str) -> Result<(), Failed>
        ensures fails { is_err result ≡ false }
        ensures count { self.new ≡ min (self.old + 1) (2 ^ 64 - 1) }
        ensures cause { HasCause 0 0 result }
    {
        self.lines = self.lines.saturating_add(1);
        Ok(())
    }
}
