//! Products and their parents.
ghost use Rattle.std.specs.Prelude.{◌≡◌, ℕ, false, None, IfOk, map};
ghost use Rattle.std.specs.Option.{option_copied};
ghost use Rattle.shop_defs.specs.declared.entity.Entity.TheVariants as E;
ghost use Rattle.id_sets.specs.Sets.{has};
ghost use Rattle.shop_meanings.specs.Live.{live_key};
ghost use Rattle.product_meanings.specs.Products as spec;

use id_sets::Ids;
use shop_defs::{Entity, Key, NoMemory, Row};
use shop_operations::parent_id;
use shop_rows::Rows;
use std::alloc::Global;

/// The key of a live product.
pub(crate) fn product_key(id: u128) -> Key
    ensures { result ≡ live_key E.Product id }
{
    Key {
        entity: Entity::Product,
        version: 0,
        id,
        second: 0,
    }
}

/// The live product with that id: `None` where there is none. It takes no memory.
pub fn product(rows: &Rows, id: u128) -> Option<&Row>
    ensures { option_copied result ≡ spec.product rows.now.list id }
{
    rows.get(&product_key(id))
}

/// The product that a product names as its parent. It takes no memory.
pub fn parent_of<'a>(rows: &'a Rows, row: &Row) -> Option<&'a Row>
    ensures { option_copied result ≡ spec.parent_of rows.entry.now.list row.now }
{
    match parent_id(row) {
        Some(id) => product(rows, id),
        None => None,
    }
}

/// The ids of all live products, by a walk over these. Want of memory is the only error.
pub fn product_ids(alloc: Global, rows: &Rows) -> Result<Ids, NoMemory>
    ensures { IfOk result (λ ids. (id : ℕ) → has ids id ≡ false → spec.product rows.now.list id ≡ None) }
{
    let keys = rows.keys_of(alloc, Entity::Product, 0)?;
    let ids = ids_of(alloc, keys.as_slice())?;
    Ok(Ids::from_vec(ids))
}

/// The ids of keys. Want of memory is the only error.
pub fn ids_of(alloc: Global, keys: &[Key]) -> Result<Vec<u128>, NoMemory>
    ensures { IfOk result (λ ids. ids.items ≡ map (λ key. key.id) keys.now) }
{
    let mut ids = Vec::new(alloc);
    for key in keys {
        ids.push(key.id)?;
    }
    Ok(ids)
}
