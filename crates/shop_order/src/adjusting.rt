//! The stock of a product is adjusted.
ghost use Rattle.std.specs.Prelude.{◌≡◌, ◌≤◌, ℤ, pos, unsigned_abs, codes, IfOk};
ghost use Rattle.shop_defs.specs.declared.broken.Broken.TheVariants as broken;
ghost use Rattle.shop_defs.specs.declared.refused.PlanFault.TheVariants as faults;
ghost use Rattle.shop_order.specs.Adjusting as spec;
ghost use Rattle.shop_order.specs.Checked.{AreChecked};
ghost use Rattle.shop_order.specs.Held.{AreStocked, KeepsStock};
ghost use Rattle.shop_order.specs.Plans.{Plans};
ghost use Rattle.shop_order.specs.Stock.{way_of};

use crate::keys::live_key;
use crate::stock::{Move, adjusted, available, moved, stock_row};
use shop_defs::{Broken, Delta, Entity, Key, List, MOST_ROWS, NoMemory, PlanFault, Refused, Txt};
use shop_rows::Rows;
use std::alloc::Global;

/// The greatest amount by which stock is adjusted at once, up or down.
pub const MOST_ADJUSTED: u64 = 1_000_000_000;

/// How many pieces may be available after an adjustment that adds some.
pub const MOST_AVAILABLE: u64 = 1_000_000_000_000;

/// What adjusting the stock of the product by that many pieces changes, and how many are available
/// then. The product's stock is made where there is none.
///
/// It is refused, by the first of these that holds: `OutOfRange` with `amount` where the amount is
/// past 1,000,000,000 up or down, and with `available` where an amount above 0 would leave more than
/// 1,000,000,000,000; `NoSuchRow` where the product isn't there; `TooMany` where there may be no stock
/// more; `StockShort` where an amount below 0 takes more than is available. The other error is want of
/// memory. It costs some look-ups.
pub fn plan_stock(
    alloc: Global,
    rows: &Rows,
    product: u128,
    amount: i64,
) -> Result<(Delta, i64), PlanFault>
    requires { AreChecked rows.now.list }
    ensures plan { Plans rows.now.list (spec.adjust rows.now.list product amount) (pos (spec.available_after rows.now.list product amount)) result }
    // Of each product, what is available and what orders hold stay together what was adjusted.
    ensures stock { AreStocked rows.now.list → KeepsStock rows.now.list result }
{
    match broken_by(alloc, rows, product, amount)? {
        Some(broken) => Err(refused(broken)),
        None => Ok(change_of(alloc, rows, product, amount)?),
    }
}

/// The refusal, which no operation breaks.
pub(crate) fn refused(broken: Broken) -> PlanFault
    ensures { result ≡ faults.Refused (record { op = 0; broken = broken }) }
{
    PlanFault::Refused(Refused { op: 0, broken })
}

/// The first rule that the adjustment breaks. Want of memory is the only error, here and below.
#[tactic(auto, unfolding(crate::specs::Adjusting::adjusting_breaks))]
fn broken_by(
    alloc: Global,
    rows: &Rows,
    product: u128,
    amount: i64,
) -> Result<Option<Broken>, NoMemory>
    requires { AreChecked rows.now.list }
    ensures { IfOk result (λ broken. broken ≡ spec.adjusting_breaks rows.now.list product amount) }
{
    let pieces = amount.unsigned_abs();
    if MOST_ADJUSTED < pieces {
        return Ok(Some(out_of_range(alloc, "amount", i128::from(amount))?));
    }
    let have = available(rows, product);
    let after = moved(way_of(amount), have, pieces);
    if is_more(amount) && MOST_AVAILABLE < after {
        return Ok(Some(out_of_range(alloc, "available", i128::from(after))?));
    }
    let key = live_key(Entity::Product, product, 0);
    if rows.get(&key).is_none() {
        return Ok(Some(Broken::NoSuchRow { key }));
    }
    if is_full(rows, product) {
        return Ok(Some(Broken::TooMany {
            entity: Entity::Stock,
            limit: MOST_ROWS,
        }));
    }
    if is_less(amount) && have < pieces {
        return Ok(Some(Broken::StockShort {
            product,
            have: have as i64,
            want: pieces as i64,
        }));
    }
    Ok(None)
}

fn out_of_range(alloc: Global, field: &str, value: i128) -> Result<Broken, NoMemory>
    ensures { IfOk result (λ rule. rule ≡ broken.OutOfRange field.now value) }
{
    Ok(Broken::OutOfRange {
        field: Txt::from_str(alloc, field)?,
        value,
    })
}

/// Whether the product has no stock, and there may be no stock more.
fn is_full(rows: &Rows, product: u128) -> bool
    ensures { result ≡ spec.is_full rows.now.list product }
{
    rows.get(&live_key(Entity::Stock, product, 0)).is_none()
        && MOST_ROWS as usize <= rows.count(Entity::Stock)
}

fn is_more(amount: i64) -> bool
    ensures { result ≡ spec.is_more amount }
{
    amount > 0
}

fn is_less(amount: i64) -> bool
    ensures { result ≡ spec.is_less amount }
{
    amount < 0
}

/// What an adjustment by that amount does.
fn way_of(amount: i64) -> Move
    ensures { result ≡ way_of amount }
{
    if amount < 0 { Move::Take } else { Move::Give }
}

/// The change of the product's stock, and how many pieces are available then.
fn change_of(
    alloc: Global,
    rows: &Rows,
    product: u128,
    amount: i64,
) -> Result<(Delta, i64), NoMemory>
    requires checked { AreChecked rows.now.list }
    requires few { unsigned_abs amount ≤ 1000000000 }
    ensures changes { IfOk result (λ plan. plan.0.changes ≡ spec.adjusting_changes rows.now.list product amount) }
    ensures value { IfOk result (λ plan. plan.1 ≡ pos (spec.available_after rows.now.list product amount)) }
{
    let pieces = amount.unsigned_abs();
    let have = moved(way_of(amount), available(rows, product), pieces);
    let all = moved(way_of(amount), adjusted(rows, product), pieces);
    let row = stock_row(alloc, product, have, all)?;
    let mut changes = List::new(alloc);
    changes.push((live_key(Entity::Stock, product, 0), Some(row)))?;
    Ok((Delta { changes }, have as i64))
}
