//! The stock of products.
ghost use Rattle.std.specs.Prelude.{◌≡◌, ◌≤◌, ◌<◌, ◌^◌, ◌+◌, unsigned_abs, IfOk};
ghost use Rattle.std.specs.Option.{option_copied};
ghost use Rattle.shop_order.specs.Checked.{AreChecked};
ghost use Rattle.shop_order.specs.Stock as spec;

use crate::keys::live_key;
use crate::numbers::{STOCK_ADJUSTED, STOCK_AVAILABLE};
use row_fields::int_at;
use shop_defs::{Entity, List, NoMemory, Row, Value};
use shop_rows::Rows;
use std::alloc::Global;

/// What is done with pieces.
#[derive(Drop, Clone, Copy)]
pub enum Move {
    /// They are taken from the stock.
    Take,
    /// They are put into it.
    Give,
}

/// The number that the row's field holds, without its sign: 0 where it holds none.
pub(crate) fn size_at(row: &Row, field: u8) -> u64
    ensures { result ≡ spec.size_at row.now field }
{
    match int_at(row, field) {
        Some(number) => number.unsigned_abs(),
        None => 0,
    }
}

/// The same of a row, if there is one.
fn size_in(row: Option<&Row>, field: u8) -> u64
    ensures { result ≡ spec.size_in (option_copied row.entry) field }
{
    match row {
        Some(row) => size_at(row, field),
        None => 0,
    }
}

/// How many pieces of the product are available, up to 2,000,000,000,000: none where it has no stock.
/// It takes no memory.
#[tactic(auto, using(crate::proofs::Bounds::available_few))]
pub fn available(rows: &Rows, product: u128) -> u64
    requires { AreChecked rows.now.list }
    ensures value { result ≡ spec.available rows.now.list product }
    ensures bound { result ≤ 2000000000000 }
{
    size_in(
        rows.get(&live_key(Entity::Stock, product, 0)),
        STOCK_AVAILABLE,
    )
}

/// How many pieces of it were ever adjusted.
#[tactic(auto, using(crate::proofs::Bounds::adjusted_few))]
pub(crate) fn adjusted(rows: &Rows, product: u128) -> u64
    requires { AreChecked rows.now.list }
    ensures value { result ≡ spec.adjusted rows.now.list product }
    ensures bound { result ≤ 2000000000000 }
{
    size_in(
        rows.get(&live_key(Entity::Stock, product, 0)),
        STOCK_ADJUSTED,
    )
}

/// So many pieces more or fewer.
pub(crate) fn moved(way: Move, have: u64, pieces: u64) -> u64
    requires { have + pieces < 2 ^ 63 }
    ensures value { result ≡ spec.moved way have pieces }
    ensures bound { result < 2 ^ 63 }
{
    match way {
        Move::Give => have + pieces,
        Move::Take => have.saturating_sub(pieces),
    }
}

/// The row of the product's stock. Want of memory is the only error.
pub(crate) fn stock_row(
    alloc: Global,
    product: u128,
    available: u64,
    adjusted: u64,
) -> Result<Row, NoMemory>
    requires available { available < 2 ^ 63 }
    requires adjusted { adjusted < 2 ^ 63 }
    ensures { IfOk result (λ row. row ≡ spec.stock_row product available adjusted) }
{
    let mut fields = List::new(alloc);
    fields.push((STOCK_AVAILABLE, Value::Int(available as i64)))?;
    fields.push((STOCK_ADJUSTED, Value::Int(adjusted as i64)))?;
    Ok(Row {
        key: live_key(Entity::Stock, product, 0),
        fields,
        ops: List::new(alloc),
    })
}
