//! Where the rows of stock, carts and orders stand.
ghost use Rattle.std.specs.Prelude.{◌≡◌};
ghost use Rattle.shop_order.specs.Keys as spec;

use shop_defs::{Entity, Key};

/// The key of a live row.
pub(crate) fn live_key(entity: Entity, id: u128, second: u128) -> Key
    ensures { result ≡ spec.live_key entity id second }
{
    Key {
        entity,
        version: 0,
        id,
        second,
    }
}
