//! Why no rows of a cart are lent.

use shop_defs::NoMemory;

/// Why no rows of a cart are lent.
#[derive(Drop, Clone, Copy)]
pub enum CollectFault {
    /// There is no such cart.
    NoSuchCart,
    /// Memory was wanted and refused.
    NoMemory,
}

impl From<NoMemory> for CollectFault {
    ghost use Rattle.std.specs.Prelude.{◌≡◌};
    ghost use Rattle.cart_collect.specs.declared.fault.CollectFault.TheVariants.{NoMemory};

    ghost from_gives = { λ _ fault. fault ≡ NoMemory };

    fn from(_: NoMemory) -> CollectFault {
        CollectFault::NoMemory
    }
}
