//! The calls of an object in memory: which of them are to fail, and how many came and failed.
//!
//! It is a list of call numbers beside two counters. Calls are counted from 1.
ghost use Rattle.std.specs.Prelude.{◌≡◌, ◌≤◌, ◌↔◌, IsErr, OnErr, OnOk};
ghost use Rattle.heap_io.specs.Calls.{IsToFail, after_fault, after_success, before_calls};
ghost use Rattle.heap_io.specs.Causes.{HasCause, next_count};

use crate::Failed;
use std::marker::Model;

/// The calls so far.
#[derive(Debug, Drop)]
pub(crate) struct Calls {
    fails: Vec<u64>,
    made: u64,
    faults: u64,
}

impl Model for Calls {
    ghost use Rattle.heap_io.specs.Calls.{CallCounts};

    ghost Value = { CallCounts };

    ghost view = { λ c. record { fails = c.fails.items; made = c.made; faults = c.faults } };
}

impl Calls {
    /// No call was made yet. Those of the list are to fail.
    pub(crate) fn new(fails: Vec<u64>) -> Calls
        ensures { result ≡ before_calls fails.items }
    {
        Calls {
            fails,
            made: 0,
            faults: 0,
        }
    }

    /// Counts a call, which fails where it is on the list.
    pub(crate) fn count_call(&mut self) -> Result<(), Failed>
        ensures failed { IsErr result ↔ IsToFail self.old }
        ensures ok { OnOk result (self.new ≡ after_success self.old) }
        ensures err { OnErr result (self.new ≡ after_fault self.old) }
        ensures cause { HasCause self.old.faults self.new.faults result }
    {
        self.made = self.made.saturating_add(1);
        if self.fails.contains(&self.made) {
            self.faults = self.faults.saturating_add(1);
            return Err(Failed);
        }
        Ok(())
    }

    /// Counts that the call failed for a cause of its own.
    pub(crate) fn count_fault(&mut self) -> Failed
        ensures counted { self.new ≡ record self.old { faults = next_count self.old.faults } }
        ensures later { self.old.faults ≤ self.new.faults }
    {
        self.faults = self.faults.saturating_add(1);
        Failed
    }

    /// How many calls failed.
    pub(crate) fn faults(&self) -> u64
        ensures { result ≡ self.now.faults }
    {
        self.faults
    }
}
