ghost use Rattle.std.specs.Prelude.{◌≡◌, ◌≤◌};
ghost use Rattle.rec_base.specs.Calls.{begun, calls_of, failed, fails_next};

use crate::Failed;
use std::marker::Model;

// The calls of one kind: how many were done, which fail by their number, and how many failed.
#[derive(Debug, Drop)]
pub(crate) struct Calls {
    done: u64,
    failing: Vec<u64>,
    faults: u64,
}

impl Model for Calls {
    ghost use Rattle.rec_base.specs.Calls.{CallsState};

    ghost Value = { CallsState };

    ghost view = { λ c. record { done = c.done; failing = c.failing.items; faults = c.faults } };
}

impl Calls {
    // The first call has the number 1.
    pub(crate) fn new(failing: Vec<u64>) -> Calls
        ensures { result ≡ calls_of failing.items }
    {
        Calls {
            done: 0,
            failing,
            faults: 0,
        }
    }

    // Counts a call, and says whether it is to fail.
    pub(crate) fn begin(&mut self) -> bool
        ensures fails { result ≡ fails_next self.old }
        ensures counted { self.new ≡ begun self.old }
    {
        self.done = self.done.saturating_add(1);
        self.failing.contains(&self.done)
    }

    // Counts a failure.
    pub(crate) fn fail(&mut self) -> Failed
        ensures counted { self.new ≡ failed self.old }
        ensures later { self.old.faults ≤ self.new.faults }
    {
        self.faults = self.faults.saturating_add(1);
        Failed
    }
}
