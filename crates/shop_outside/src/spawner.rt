//! Work for a thread of its own, and what starts it.
ghost use Rattle.std.specs.Prelude.{◌≡◌, ℕ, Bool, not};
ghost use Rattle.shop_outside.specs.Causes.{HasCause};
ghost use Rattle.shop_outside.specs.Counting.{taken_after};

use crate::failed::Failed;
use std::marker::Send;
use std::sync::Wait;
use std::thread;
use std::thread::Threads;

/// Work that a thread may take over.
pub trait Job: Send + Drop + 'static {
    /// What the work comes to.
    type Out: Send + Drop + 'static;

    /// Whether it serves a connection.
    ghost CONNECTION: { Bool };

    /// Whether it serves a connection.
    const CONNECTION: bool;

    /// Does the work, which may wait for other threads.
    fn run<R: Wait>(self, rt: &R) -> Self::Out;
}

/// What decides whether jobs are started, and counts them. `start_job` hands it a job.
pub trait Spawner {
    /// How often a call has failed.
    ghost start_faults: { Self → ℕ };

    /// How many jobs that serve a connection it has taken.
    ghost connections: { Self → ℕ };

    /// How many other jobs it has taken.
    ghost others: { Self → ℕ };

    /// Takes a job, of which `connection` says whether it serves a connection. `begin` holds the
    /// job: called, it starts the job and says whether that could be done; dropped, it drops it.
    ///
    /// # Errors
    ///
    /// `Failed` where the count of faults rose or stands at its last value.
    fn start<F: FnOnce() -> bool + Drop>(
        &mut self,
        connection: bool,
        begin: F,
    ) -> Result<(), Failed>
        requires { F.pre begin }
        ensures cause { HasCause (start_faults self.old) (start_faults self.new) result }
        ensures connections { connections self.new
            ≡ taken_after connection (connections self.old) result }
        ensures others { others self.new
            ≡ taken_after (not connection) (others self.old) result };
}

/// Starts a thread that runs the job and drops what it comes to. Where there is no thread for it,
/// the job is dropped.
fn start_thread<R: Threads + Wait + Copy + Send + 'static, J: Job>(rt: R, job: J) -> bool {
    match thread::spawn(&rt, move || drop(job.run(&rt))) {
        Ok(handle) => {
            drop(handle);
            true
        }
        Err(_) => false,
    }
}

/// Hands a job to a spawner, which may run it in a thread of its own. That the job is run isn't
/// promised, nor waited for.
///
/// # Errors
///
/// `Failed` where the spawner's count of faults rose or stands at its last value. The job is
/// dropped.
pub fn start_job<R: Threads + Wait + Copy + Send + 'static, W: Spawner, J: Job>(
    rt: &R,
    spawner: &mut W,
    job: J,
) -> Result<(), Failed>
    ensures cause { HasCause (W.start_faults spawner.old) (W.start_faults spawner.new) result }
    ensures connections { W.connections spawner.new
        ≡ taken_after J.CONNECTION (W.connections spawner.old) result }
    ensures others { W.others spawner.new
        ≡ taken_after (not J.CONNECTION) (W.others spawner.old) result }
{
    let rt = *rt;
    spawner.start(J::CONNECTION, move || start_thread(rt, job))
}
