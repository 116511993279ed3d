//! In how many pages rows stand: no request shows it.
use super::calls::key;
use shop_defs::{Delta, Entity, Key, List, NoMemory, Row};
use shop_rows::{Rows, Shape};
use std::alloc::Global;

/// So many categories, put as one batch, and so many products with a link each, a batch for each two; and the fewest and the most
/// pages in which all these rows may stand.
pub(crate) const SHAPES: [(u128, u128, usize, usize); 5] = [
    (0, 0, 0, 0),
    (1, 0, 1, 1),
    (14, 25, 1, 1),
    (15, 25, 2, 4),
    // What a thousand products of the generator make: 2,014 rows.
    (14, 1_000, 32, 125),
];

/// Puts bare rows under these keys, or takes out what stands there.
fn change(alloc: Global, rows: &mut Rows, keys: &[Key], puts: bool) -> Result<(), NoMemory> {
    let mut changes = List::new(alloc);
    for key in keys {
        let row = Row {
            key: *key,
            fields: List::new(alloc),
            ops: List::new(alloc),
        };
        changes.push((*key, if puts { Some(row) } else { None }))?;
    }
    let delta = Delta { changes };
    rows.reserve(&delta)?;
    rows.apply(delta);
    Ok(())
}

/// The keys of so many categories.
fn categories(alloc: Global, count: u128) -> Result<Vec<Key>, NoMemory> {
    let mut keys = Vec::new(alloc);
    for id in 1..=count {
        keys.push(key(Entity::Category, 0, id, 0))?;
    }
    Ok(keys)
}

fn filled(alloc: Global, first: u128, products: u128) -> Result<Rows, NoMemory> {
    let mut rows = Rows::empty(alloc);
    change(alloc, &mut rows, categories(alloc, first)?.as_slice(), true)?;
    for id in 1..=products {
        let link = key(Entity::ProductCategory, 0, id, 1 + id % 10);
        change(
            alloc,
            &mut rows,
            &[key(Entity::Product, 0, id, 0), link],
            true,
        )?;
    }
    Ok(rows)
}

fn lies_within(shape: &Shape, fewest: usize, most: usize) -> bool {
    fewest <= shape.pages
        && shape.pages <= most
        && (shape.pages < 2 || 16 <= shape.least)
        && shape.most <= 64
}

/// Whether the rows stand in as many pages as they may, and in none once all are taken out at once.
pub(crate) fn is_shaped(
    alloc: Global,
    (first, products, fewest, most): (u128, u128, usize, usize),
) -> Result<bool, NoMemory> {
    let mut rows = filled(alloc, first, products)?;
    let holds = lies_within(&rows.shape(), fewest, most);
    let mut keys = Vec::new(alloc);
    for row in rows.iter() {
        keys.push(row.key)?;
    }
    change(alloc, &mut rows, keys.as_slice(), false)?;
    Ok(holds && rows.shape().pages == 0)
}
