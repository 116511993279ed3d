//! The system's clock.
ghost use Rattle.std.specs.Prelude.{◌≡◌, ◌≤◌, None, refl};
ghost use Rattle.shop_outside.specs.Clocks.{IsMoment};

use crate::clock::{Clock, Moment};
use std::time;

/// The latest moment, in seconds since 1970-01-01T00:00:00 UTC.
const LATEST: u64 = 250_000_000_000;

/// The clock of the system, which doesn't tell the moments that are to come. A time outside the
/// range of moments counts as the nearer end, and one that can't be read as 0.
#[derive(Clone, Copy)]
pub struct SystemClock<R: time::Clock + Copy> {
    rt: R,
}

impl<R: time::Clock + Copy> SystemClock<R> {
    /// A clock that reads the system's.
    pub fn new(rt: R) -> SystemClock<R> {
        SystemClock { rt }
    }
}

impl<R: time::Clock + Copy> Clock for SystemClock<R> {
    ghost coming = { λ _. None };

    fn now(&mut self) -> Moment {
        let seconds = match self.rt.since_1970() {
            Ok(time) => time.as_secs(),
            Err(_) => 0,
        };
        seconds.min(LATEST) as i64
    }
}
