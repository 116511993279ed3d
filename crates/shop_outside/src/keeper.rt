//! What keeps rows, as bytes under their keys.
ghost use Rattle.std.specs.Prelude.{◌≡◌, ◌<◌, ◌^◌, ◌↔◌, IsTrue, IfOk, OnErr, IfSome};
ghost use Rattle.shop_defs.specs.Keys.{key_cmp};
ghost use Rattle.keyed.specs.Keyed.{Ascends};
ghost use Rattle.shop_outside.specs.Keeping.{KeepCause, Applied, kept_key};
ghost use Rattle.shop_outside.specs.declared.keeper.KeepFault.TheVariants as faults;

use crate::bodies::has_ascending_keys;
use crate::failed::Failed;
use shop_defs::{Key, List, NoMemory};
use std::alloc::{AllocError, AllocFailed};

/// What a keeper holds.
#[derive(Drop)]
pub struct Kept {
    /// The bytes under each key.
    pub rows: List<(Key, List<u8>)>,
    /// How many entries of the history led to the rows, less than 2^63.
    pub number: u64,
}

/// Why a keeper didn't do what it was asked.
#[derive(Drop, Clone, Copy)]
pub enum KeepFault {
    /// The call failed, and the count of faults rose or stands at its last value.
    Failed,
    /// Memory was refused.
    NoMemory,
}

impl From<Failed> for KeepFault {
    ghost from_gives = { λ _ e. e ≡ faults.Failed };

    fn from(_: Failed) -> KeepFault {
        KeepFault::Failed
    }
}

impl From<NoMemory> for KeepFault {
    ghost from_gives = { λ _ e. e ≡ faults.NoMemory };

    fn from(_: NoMemory) -> KeepFault {
        KeepFault::NoMemory
    }
}

impl From<AllocError> for KeepFault {
    ghost from_gives = { λ _ e. e ≡ faults.NoMemory };

    fn from(_: AllocError) -> KeepFault {
        KeepFault::NoMemory
    }
}

impl<T: Drop> From<AllocFailed<T>> for KeepFault {
    ghost from_gives = { λ _ e. e ≡ faults.NoMemory };

    fn from(_: AllocFailed<T>) -> KeepFault {
        KeepFault::NoMemory
    }
}

/// Whether the keys of changes ascend, as `Keeper::apply` needs them.
pub fn keys_ascend(changes: &[(Key, Option<List<u8>>)]) -> bool
    ensures { IsTrue result ↔ Ascends key_cmp kept_key changes.now }
{
    has_ascending_keys(changes)
}

/// What keeps rows and how many entries led to them.
pub trait Keeper {
    ghost use Rattle.std.specs.Prelude.{Option, ℕ};
    ghost use Rattle.shop_outside.specs.declared.keeper.Kept.{Kept};

    /// What it holds, where it tells.
    ghost content: { Self → Option Kept };

    /// How often a call has failed.
    ghost keep_faults: { Self → ℕ };

    /// Gives what is held, in its order, and leaves it.
    ///
    /// # Errors
    ///
    /// `Failed` where the count of faults rose or stands at its last value, and `NoMemory` where
    /// memory is refused.
    fn load(&mut self) -> Result<Kept, KeepFault>
        ensures same { content self.new ≡ content self.old }
        ensures held { IfOk result (λ kept. IfSome (content self.old) (λ held. kept ≡ held)) }
        ensures number { IfOk result (λ kept. kept.number < 2 ^ 63) }
        ensures cause { KeepCause (keep_faults self.old) (keep_faults self.new) result };

    /// Sets the bytes at each key, or removes them, and sets the number: all of it or nothing.
    ///
    /// # Errors
    ///
    /// `Failed` where the count of faults rose or stands at its last value, and `NoMemory` where
    /// memory is refused. What was held is held still.
    fn apply(&mut self, changes: &[(Key, Option<List<u8>>)], number: u64) -> Result<(), KeepFault>
        requires keys { Ascends key_cmp kept_key changes.now }
        requires number { number < 2 ^ 63 }
        ensures ok { IfOk result (λ _.
            Applied (content self.old) (content self.new) changes.now number) }
        ensures err { OnErr result (content self.new ≡ content self.old) }
        ensures cause { KeepCause (keep_faults self.old) (keep_faults self.new) result };
}
