//! Rows that are found by key, and by the row that they name.
ghost use Rattle.std.specs.Prelude.{◌≡◌, ◌++◌, IfOk, OnOk};
ghost use Rattle.std.specs.Option.{option_copied, option_to_list};
ghost use Rattle.shop_defs.specs.Rows.{IsInKeyOrder};
ghost use Rattle.cart_price.specs.Lent.{lent_rows};
ghost use Rattle.cart_collect.specs.Finding as spec;
ghost use Rattle.cart_collect.specs.Looking as looking;

use shop_defs::{Entity, Key, List, NoMemory, Row};
use shop_rows::Rows;
use std::alloc::{AllocError, Global};

/// The rows stand in the order of their keys.
pub(crate) fn in_order(rows: &Rows)
    ensures { IsInKeyOrder rows.now.list }
{
    // Of this call just its promise is wanted.
    let _all = rows.len();
}

/// The key of a live row of an entity whose keys have one part.
pub(crate) fn live_key(entity: Entity, id: u128) -> Key
    ensures { result ≡ spec.live_key entity id }
{
    Key {
        entity,
        version: 0,
        id,
        second: 0,
    }
}

/// The live row of the entity with that id, if an id is given.
pub(crate) fn live_at<'a>(rows: &'a Rows, entity: Entity, id: Option<u128>) -> Option<&'a Row>
    ensures { option_copied result ≡ spec.live_at rows.entry.now.list entity id }
{
    match id {
        Some(id) => rows.get(&live_key(entity, id)),
        None => None,
    }
}

/// The live rows of the entity that refer to the one of the other entity with that id. It costs a
/// look-up for each of them, whatever else refers to that row.
pub(crate) fn referring_rows<'a>(
    alloc: Global,
    rows: &'a Rows,
    entity: Entity,
    of: Entity,
    id: u128,
) -> Result<List<&'a Row>, NoMemory>
    ensures { IfOk result (λ found. lent_rows found ≡ looking.referring_rows rows.entry.now.list entity of id) }
{
    let keys = rows.referrers_by(alloc, entity, 0, &live_key(of, id))?;
    rows_at(alloc, rows, keys.as_slice())
}

/// Whether there is such a row.
pub(crate) fn is_referred(
    alloc: Global,
    rows: &Rows,
    entity: Entity,
    of: Entity,
    id: u128,
) -> Result<bool, NoMemory>
    ensures { IfOk result (λ any. any ≡ looking.is_referred rows.now.list entity of id) }
{
    let keys = rows.referrers_by(alloc, entity, 0, &live_key(of, id))?;
    Ok(has_any(keys.as_slice()))
}

fn has_any(keys: &[Key]) -> bool
    ensures { result ≡ looking.has_any keys.now }
{
    match keys {
        [] => false,
        _ => true,
    }
}

/// The rows at the keys.
fn rows_at<'a>(alloc: Global, rows: &'a Rows, keys: &[Key]) -> Result<List<&'a Row>, NoMemory>
    ensures { IfOk result (λ found. lent_rows found ≡ looking.rows_at rows.entry.now.list keys.now) }
{
    let mut found = Vec::new(alloc);
    let mut rest = keys;
    while let [key, more @ ..] = rest {
        push_if_any(&mut found, rows.get(key))?;
        rest = more;
    }
    Ok(List::from_vec(found))
}

/// Puts a row at the end, if there is one.
pub(crate) fn push_if_any<'a>(
    found: &mut Vec<&'a Row>,
    row: Option<&'a Row>,
) -> Result<(), AllocError>
    ensures { OnOk result (lent_rows found.new.items ≡ lent_rows found.old.items ++ option_to_list (option_copied row.entry)) }
{
    match row {
        Some(row) => Ok(found.push(row)?),
        None => Ok(()),
    }
}
