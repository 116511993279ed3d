//! Where a row stands, whatever its version.
ghost use Rattle.std.specs.Prelude.{◌≡◌};
ghost use Rattle.shop_operations.specs.Deletes as deletes;

use shop_defs::{Key, Row};

/// Whether the row stands at the key's place: the key's version doesn't count.
pub fn stands_at(key: &Key, row: &Row) -> bool
    ensures { result ≡ deletes.stands_at key.now row.now }
{
    key.entity == row.key.entity && key.id == row.key.id && key.second == row.key.second
}
