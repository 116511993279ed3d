//! What picks ids.
ghost use Rattle.std.specs.Prelude.{◌≡◌, IfOk};

use shop_defs::NoMemory;
use std::alloc::Global;

/// Says of each id whether it belongs to a set.
pub trait Pick {
    ghost use Rattle.std.specs.Prelude.{ℕ, Bool};

    ghost picks: { Self → ℕ → Bool };

    /// It may be asked.
    ghost IsReady: { Self → Type 0 };

    /// Whether the id belongs to the set. Want of memory is the only error.
    fn picks(&self, alloc: Global, id: u128) -> Result<bool, NoMemory>
        requires { IsReady self.now }
        ensures { IfOk result (λ answer. answer ≡ picks self.now id) };
}
