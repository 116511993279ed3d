//! A spawner that runs nothing.
ghost use Rattle.std.specs.Prelude.{◌≡◌, ◌↔◌, not, IsErr};
ghost use Rattle.shop_outside.specs.Causes.{HasCause};
ghost use Rattle.shop_outside.specs.Counting.{taken_after};

use crate::calls::Calls;
use crate::failed::Failed;
use crate::spawner::Spawner;

/// Drops each job that it takes. The calls in a list fail, counted from 1.
#[derive(Drop)]
pub struct MemSpawner {
    calls: Calls,
    connections: u64,
    others: u64,
}

impl MemSpawner {
    ghost use Rattle.shop_outside.specs.Failing.{Begins};
    ghost use Rattle.shop_outside.specs.MemJobs.{starts_of};

    /// A spawner that has taken nothing.
    pub fn new(failing: Vec<u64>) -> MemSpawner
        ensures faults { ⟦<MemSpawner as Spawner>⟧.start_faults result ≡ 0 }
        ensures connections { ⟦<MemSpawner as Spawner>⟧.connections result ≡ 0 }
        ensures others { ⟦<MemSpawner as Spawner>⟧.others result ≡ 0 }
        ensures calls { Begins failing.items (starts_of result) }
    {
        MemSpawner {
            calls: Calls::new(failing),
            connections: 0,
            others: 0,
        }
    }

    /// How many jobs that serve a connection it has taken, up to `u64::MAX`.
    pub fn connections(&self) -> u64
        ensures { result ≡ ⟦<MemSpawner as Spawner>⟧.connections self.now }
    {
        self.connections
    }

    /// How many other jobs it has taken, up to `u64::MAX`.
    pub fn others(&self) -> u64
        ensures { result ≡ ⟦<MemSpawner as Spawner>⟧.others self.now }
    {
        self.others
    }
}

impl Spawner for MemSpawner {
    ghost use Rattle.shop_outside.specs.Failing.{FailsNext, IsCounted};
    ghost use Rattle.shop_outside.specs.MemJobs.{starts_of};

    ghost start_faults = { λ s. s.calls.faults };

    ghost connections = { λ s. s.connections };

    ghost others = { λ s. s.others };

    /// It fails where the call is listed.
    fn start<F: FnOnce() -> bool + Drop>(
        &mut self,
        connection: bool,
        begin: F,
    ) -> Result<(), Failed>
        requires { F.pre begin }
        ensures cause { HasCause (starts_of self.old).faults (starts_of self.new).faults result }
        ensures connections { self.new.connections
            ≡ taken_after connection self.old.connections result }
        ensures others { self.new.others ≡ taken_after (not connection) self.old.others result }

        ensures fails { IsErr result ↔ FailsNext (starts_of self.old) }
        ensures calls { IsCounted (starts_of self.old) (starts_of self.new) }
    {
        drop(begin);
        self.calls.begin()?;
        if connection {
            self.connections = self.connections.saturating_add(1);
            Ok(())
        } else {
            self.others = self.others.saturating_add(1);
            Ok(())
        }
    }
}
