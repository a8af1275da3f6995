//! Which calls of an object in memory fail.
ghost use Rattle.std.specs.Prelude.{◌≡◌, ◌↔◌, ◌≤◌, IfOk, IsTrue};
ghost use Rattle.fg_io.specs.Calls.{first_calls, after_call, NextFails, next_count};

use std::alloc::{AllocError, Global};
use std::marker::Model;

/// Counts the calls of an object and its faults, and knows which calls are to fail.
///
/// Each count stands still at its last value.
#[derive(Drop)]
pub(crate) struct Calls {
    fails: Vec<u64>,
    made: u64,
    faults: u64,
}

impl Model for Calls {
    ghost use Rattle.fg_io.specs.Calls.{CallState};

    ghost Value = { CallState };

    ghost view = { λ a. record { fails = a.fails.items; made = a.made; faults = a.faults } };
}

impl Calls {
    /// No call yet, and these calls are to fail.
    pub(crate) fn new(alloc: Global, fails: &[u64]) -> Result<Calls, AllocError>
        ensures { IfOk result (λ calls. calls ≡ first_calls fails.now) }
    {
        Ok(Calls {
            fails: Vec::from_slice(alloc, fails)?,
            made: 0,
            faults: 0,
        })
    }

    /// Counts a call, and answers whether it is to fail.
    pub(crate) fn next_fails(&mut self) -> bool
        ensures fails { IsTrue result ↔ NextFails self.old }
        ensures counted { self.new ≡ after_call self.old }
    {
        let number = self.made;
        self.made = number.saturating_add(1);
        self.fails.contains(&number)
    }

    /// Counts a fault.
    pub(crate) fn count_fault(&mut self)
        ensures counted { self.new ≡ record self.old { faults = next_count self.old.faults } }
        ensures never_falls { self.old.faults ≤ self.new.faults }
    {
        self.faults = self.faults.saturating_add(1);
    }
}
