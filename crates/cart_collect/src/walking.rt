//! The live rows of an entity, one after the other.
ghost use Rattle.std.specs.Prelude.{◌≡◌, IfOk};
ghost use Rattle.std.specs.Option.{option_copied};
ghost use Rattle.cart_price.specs.Lent.{lent_rows};
ghost use Rattle.cart_collect.specs.Finding as spec;
ghost use Rattle.cart_collect.specs.Looking as looking;

use crate::finding::{in_order, live_key, push_if_any};
use shop_defs::{Entity, Key, List, NoMemory, Row};
use shop_rows::Rows;
use std::alloc::Global;

/// The live rows of an entity in the order of their keys, lent by these rows. It costs a look-up for
/// each. Want of memory is the only error.
pub fn live_rows<'a>(
    alloc: Global,
    rows: &'a Rows,
    entity: Entity,
) -> Result<List<&'a Row>, NoMemory>
    ensures { IfOk result (λ found. lent_rows found ≡ spec.live_of rows.entry.now.list entity) }
{
    in_order(rows);
    let mut found = Vec::new(alloc);
    let mut at = live_key(entity, 0);
    push_if_any(&mut found, rows.get(&at))?;
    while let Some(row) = next_beside(rows, &at) {
        found.push(row)?;
        at = row.key;
    }
    Ok(List::from_vec(found))
}

/// The row after the key, where it is of the key's entity and version.
fn next_beside<'a>(rows: &'a Rows, key: &Key) -> Option<&'a Row>
    ensures { option_copied result ≡ looking.next_beside rows.entry.now.list key.now }
{
    match rows.after(key) {
        Some(row) if is_beside(&row.key, key) => Some(row),
        _ => None,
    }
}

/// Whether both keys are of one entity and one version.
fn is_beside(a: &Key, b: &Key) -> bool
    ensures { result ≡ looking.is_beside a.now b.now }
{
    a.entity == b.entity && a.version == b.version
}
