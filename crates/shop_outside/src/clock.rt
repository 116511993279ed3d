//! The moment.
ghost use Rattle.std.specs.Prelude.{◌≡◌, ◌<◌, ◌≤◌, ◌+◌, ◌↔◌, ℕ, ℤ, length, Option, Some, None, All};
ghost use Rattle.std.specs.Prelude.{IsTrue};
ghost use Rattle.shop_outside.specs.Clocks.{IsMoment, Ticks, Tells, moment_at};

/// Seconds since 1970-01-01T00:00:00 UTC, from 0 to 250,000,000,000.
pub type Moment = i64;

/// Whether so many seconds since 1970-01-01T00:00:00 UTC are a moment: 0 to 250,000,000,000.
pub fn is_moment(seconds: i64) -> bool
    ensures { IsTrue result ↔ IsMoment seconds }
{
    0 <= seconds && seconds <= 250_000_000_000
}

/// What tells the moment.
pub trait Clock {
    /// The moments that are still to come, the next one at 0, where the clock tells them.
    ghost coming: { Self → Option (ℕ → ℤ) };

    /// The moment at which it is called.
    fn now(&mut self) -> Moment
        ensures range { IsMoment result }
        ensures ticks { Ticks (coming self.old) (coming self.new) result };
}

/// Gives the moments of a list in order, and then the last one again.
#[derive(Drop)]
pub struct FixedClock {
    moments: Vec<Moment>,
    at: usize,
    ghost within: { at < length moments.items },
    ghost range: { All IsMoment moments.items },
}

impl FixedClock {
    /// A clock that gives these moments, of which there is at least one.
    pub fn new(moments: Vec<Moment>) -> FixedClock
        requires some { 0 < length moments.items }
        requires range { All IsMoment moments.items }
        ensures { Tells (⟦<FixedClock as Clock>⟧.coming result) (moment_at moments.items) }
    {
        FixedClock { moments, at: 0 }
    }
}

impl Clock for FixedClock {
    ghost coming = { λ c. Some (λ k. moment_at c.moments.items (c.at + k)) };

    fn now(&mut self) -> Moment {
        let moment = self.moments[self.at];
        self.at = (self.at + 1).min(self.moments.len() - 1);
        moment
    }
}

/// Gives one moment always.
#[derive(Clone, Copy)]
pub struct StillClock {
    moment: Moment,
    ghost range: { IsMoment moment },
}

impl StillClock {
    /// A clock that gives this moment at each call.
    pub fn new(moment: Moment) -> StillClock
        requires { IsMoment moment }
        ensures { Tells (⟦<StillClock as Clock>⟧.coming result) (λ _. moment) }
    {
        StillClock { moment }
    }
}

impl Clock for StillClock {
    ghost coming = { λ c. Some (λ _. c.moment) };

    fn now(&mut self) -> Moment {
        self.moment
    }
}
