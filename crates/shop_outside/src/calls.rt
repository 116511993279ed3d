//! Which calls of an object in memory are to fail.
ghost use Rattle.std.specs.Prelude.{◌≡◌, ◌≤◌, IsErr, ◌↔◌};
ghost use Rattle.shop_outside.specs.Causes.{HasCause, Rose};

use crate::failed::Failed;

/// The calls of one method: how many were made, and which are to fail.
#[derive(Drop)]
pub struct Calls {
    /// How many calls were made, up to `u64::MAX`.
    made: u64,
    /// The calls that are to fail, counted from 1.
    failing: Vec<u64>,
    /// How many calls failed, up to `u64::MAX`.
    faults: u64,
}

impl Calls {
    ghost use Rattle.shop_outside.specs.Failing.{FailsNext, IsCounted};

    pub(crate) fn new(failing: Vec<u64>) -> Calls
        ensures { result ≡ record { made = 0; failing = failing; faults = 0 } }
    {
        Calls {
            made: 0,
            failing,
            faults: 0,
        }
    }

    /// Counts a call, which fails where it is listed.
    pub(crate) fn begin(&mut self) -> Result<(), Failed>
        ensures fails { IsErr result ↔ FailsNext self.old }
        ensures counted { IsCounted self.old self.new }
        ensures cause { HasCause self.old.faults self.new.faults result }
    {
        self.made = self.made.saturating_add(1);
        if self.failing.contains(&self.made) {
            return Err(self.fault());
        }
        Ok(())
    }

    /// Counts a fault.
    pub(crate) fn fault(&mut self) -> Failed
        ensures rest { self.new ≡ record self.old { faults = self.new.faults } }
        ensures later { self.old.faults ≤ self.new.faults }
        ensures rose { Rose self.old.faults self.new.faults }
    {
        self.faults = self.faults.saturating_add(1);
        Failed
    }
}
