ghost use Rattle.std.specs.Prelude.{◌≡◌, ◌+◌, ◌<◌, ◌^◌};

use std::marker::Model;

/// How many entries of a stream were kept, and how many were lost. This project's own.
#[derive(Debug, Drop)]
pub struct Tally {
    kept: u64,
    lost: u64,
}

impl Model for Tally {
    ghost use Rattle.overrun_ledger.specs.Counts.{Counts};

    ghost Value = { Counts };

    ghost view = { λ t. record { kept = t.kept; lost = t.lost } };
}

impl Tally {
    /// Nothing was kept or lost yet.
    pub fn new() -> Tally
        ensures { result ≡ record { kept = 0; lost = 0 } }
    {
        Tally { kept: 0, lost: 0 }
    }

    /// One more entry was kept.
    pub fn keep(&mut self)
        requires { self.old.kept + 1 < 2 ^ 63 }
        ensures { self.new ≡ record { kept = self.old.kept + 1; lost = self.old.lost } }
    {
        self.kept += 1;
    }

    /// So many more entries were lost.
    pub fn lose(&mut self, n: u64)
        requires { self.old.lost + n < 2 ^ 63 }
        ensures { self.new ≡ record { kept = self.old.kept; lost = self.old.lost + n } }
    {
        self.lost += n;
    }

    /// How many entries were kept.
    pub fn kept(&self) -> u64
        ensures { result ≡ self.now.kept }
    {
        self.kept
    }

    /// How many entries were lost.
    pub fn lost(&self) -> u64
        ensures { result ≡ self.now.lost }
    {
        self.lost
    }
}
