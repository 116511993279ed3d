//! A spawner of threads.
ghost use Rattle.std.specs.Prelude.{◌≡◌, not};
ghost use Rattle.shop_outside.specs.Causes.{HasCause};
ghost use Rattle.shop_outside.specs.Counting.{taken_after};

use crate::failed::Failed;
use crate::spawner::Spawner;

/// Starts each job, in a thread of its own. A call fails where there is no thread for the job.
///
/// Nobody joins the threads: one that still runs where the program ends is cut off.
#[derive(Drop)]
pub struct ThreadSpawner {
    faults: u64,
    connections: u64,
    others: u64,
}

impl ThreadSpawner {
    /// A spawner that has taken nothing.
    pub fn new() -> ThreadSpawner
        ensures faults { ⟦<ThreadSpawner as Spawner>⟧.start_faults result ≡ 0 }
        ensures connections { ⟦<ThreadSpawner as Spawner>⟧.connections result ≡ 0 }
        ensures others { ⟦<ThreadSpawner as Spawner>⟧.others result ≡ 0 }
    {
        ThreadSpawner {
            faults: 0,
            connections: 0,
            others: 0,
        }
    }
}

impl Spawner for ThreadSpawner {
    ghost start_faults = { λ s. s.faults };

    ghost connections = { λ s. s.connections };

    ghost others = { λ s. s.others };

    fn start<F: FnOnce() -> bool + Drop>(
        &mut self,
        connection: bool,
        begin: F,
    ) -> Result<(), Failed>
        requires { F.pre begin }
        ensures cause { HasCause self.old.faults self.new.faults result }
        ensures connections { self.new.connections
            ≡ taken_after connection self.old.connections result }
        ensures others { self.new.others ≡ taken_after (not connection) self.old.others result }
    {
        if !begin() {
            self.faults = self.faults.saturating_add(1);
            return Err(Failed);
        }
        if connection {
            self.connections = self.connections.saturating_add(1);
            Ok(())
        } else {
            self.others = self.others.saturating_add(1);
            Ok(())
        }
    }
}
