//! Why bytes give no row.
ghost use Rattle.std.specs.Prelude.{◌≡◌};
ghost use Rattle.shop_kept.specs.declared.fault.DecodeFault.TheVariants as F;

use std::alloc::{AllocError, AllocFailed};

/// Why bytes were not read as a row.
#[derive(Drop, Clone, Copy)]
pub enum DecodeFault {
    /// No row of that key has these bytes.
    Malformed,
    /// Memory was wanted and refused.
    NoMemory,
}

impl From<shop_defs::NoMemory> for DecodeFault {
    ghost from_gives = { λ _ fault. fault ≡ F.NoMemory };

    fn from(_: shop_defs::NoMemory) -> DecodeFault {
        DecodeFault::NoMemory
    }
}

impl From<AllocError> for DecodeFault {
    ghost from_gives = { λ _ fault. fault ≡ F.NoMemory };

    fn from(_: AllocError) -> DecodeFault {
        DecodeFault::NoMemory
    }
}

impl<T: Drop> From<AllocFailed<T>> for DecodeFault {
    ghost from_gives = { λ _ fault. fault ≡ F.NoMemory };

    fn from(_: AllocFailed<T>) -> DecodeFault {
        DecodeFault::NoMemory
    }
}
