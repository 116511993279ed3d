//! Why there is no settled cart.
use cart_collect::CollectFault;
use shop_defs::NoMemory;

/// Why there is no settled cart.
#[derive(Drop, Clone, Copy)]
pub enum CartRefused {
    /// There is no such cart.
    NoSuchCart,
    /// Of seven rounds, no two in a row gave the same.
    Unstable,
    /// Memory was wanted and refused.
    NoMemory,
}

impl From<NoMemory> for CartRefused {
    ghost use Rattle.std.specs.Prelude.{◌≡◌};
    ghost use Rattle.cart_loop.specs.declared.fault.CartRefused.TheVariants.{NoMemory};

    ghost from_gives = { λ _ fault. fault ≡ NoMemory };

    fn from(_: NoMemory) -> CartRefused {
        CartRefused::NoMemory
    }
}

impl From<CollectFault> for CartRefused {
    ghost use Rattle.std.specs.Prelude.{◌≡◌};
    ghost use Rattle.cart_loop.specs.Faults.{refused_by};

    ghost from_gives = { λ fault refused. refused ≡ refused_by fault };

    fn from(fault: CollectFault) -> CartRefused {
        match fault {
            CollectFault::NoSuchCart => CartRefused::NoSuchCart,
            CollectFault::NoMemory => CartRefused::NoMemory,
        }
    }
}
