//! Where connections come from.
ghost use Rattle.std.specs.Prelude.{◌≡◌, ℕ};
ghost use Rattle.shop_outside.specs.Causes.{HasCause};
ghost use Rattle.shop_outside.specs.Counting.{given_after, closed_after};

use crate::failed::Failed;
use crate::link::Link;
use std::marker::Send;

/// Where connections come from.
pub trait Listener {
    /// A connection, which a thread may take over.
    type Conn: Link + Send + Drop + 'static;

    /// How often a call has failed.
    ghost accept_faults: { Self → ℕ };

    /// How many connections it has given.
    ghost given: { Self → ℕ };

    /// How often it has said that it is closed.
    ghost closed: { Self → ℕ };

    /// Gives the next connection, or none where the listener has been closed. It may wait for one.
    ///
    /// # Errors
    ///
    /// `Failed` where the count of faults rose or stands at its last value.
    fn accept(&mut self) -> Result<Option<Self::Conn>, Failed>
        ensures cause { HasCause (accept_faults self.old) (accept_faults self.new) result }
        ensures given { given self.new ≡ given_after (given self.old) result }
        ensures closed { closed self.new ≡ closed_after (closed self.old) result };
}
