//! What no clause says: that with ample memory a cart that is there is collected, and that another is missing.

use crate::{CollectFault, collect};
use shop_defs::{Delta, Entity, Key, List, NoMemory, Row, Value};
use shop_rows::Rows;
use std::alloc::Global;
use std::test::Fail;

/// Live rows in the order of their keys: the entity, the id, and the ids that fields hold.
const ROWS: [(Entity, u128, &[(u8, u128)]); 5] = [
    (Entity::Product, 10, &[]),
    (Entity::Cart, 40, &[(1, 2)]),
    (Entity::Cart, 41, &[]),
    (Entity::CartLine, 50, &[(1, 40), (2, 10)]),
    (Entity::CartLine, 51, &[(1, 40), (2, 11)]),
];

/// Carts, and of how many lines each is made: of none where it is missing.
const CARTS: [(u128, Option<usize>); 4] = [(40, Some(2)), (41, Some(0)), (10, None), (42, None)];

fn shop(alloc: Global) -> Result<Rows, NoMemory> {
    let mut changes = List::new(alloc);
    for (entity, id, ids) in ROWS {
        let mut fields = List::new(alloc);
        for (number, id) in ids {
            fields.push((*number, Value::Ident(*id)))?;
        }
        let key = Key {
            entity,
            version: 0,
            id,
            second: 0,
        };
        let row = Row {
            key,
            fields,
            ops: List::new(alloc),
        };
        changes.push((key, Some(row)))?;
    }
    let delta = Delta { changes };
    let mut rows = Rows::empty(alloc);
    rows.reserve(&delta)?;
    rows.apply(delta);
    Ok(rows)
}

/// Whether a cart is collected with so many lines, or is missing.
fn is_collected(alloc: Global, rows: &Rows, cart: u128, want: Option<usize>) -> bool {
    match (collect(alloc, rows, cart), want) {
        (Ok(data), Some(lines)) => data.cart.key.id == cart && data.lines.len() == lines,
        (Err(CollectFault::NoSuchCart), None) => true,
        _ => false,
    }
}

#[test]
fn carts(rt: HostRuntime) -> Result<(), Fail> {
    let alloc = rt.alloc();
    let Ok(rows) = shop(alloc) else {
        assert!(rt; false);
        return Ok(());
    };
    for (cart, want) in CARTS {
        let holds = is_collected(alloc, &rows, cart, want);
        assert!(rt; holds, "cart {cart}");
    }
    Ok(())
}
