//! The rows of a placed order.
ghost use Rattle.std.specs.Prelude.{◌≡◌, ◌≤◌, ◌<◌, ◌^◌, ◌++◌, ◌∷◌, [], pos, map, length, Some, IfOk, OnOk};
ghost use Rattle.std.specs.Option.{option_copied, option_map};
ghost use Rattle.cart_price.specs.Nearest.{IsAmount};
ghost use Rattle.shop_defs.specs.declared.value.Value.TheVariants as values;
ghost use Rattle.shop_order.specs.OrderRows as spec;
ghost use Rattle.shop_order.specs.Parts.{parts};

use crate::keys::live_key;
use crate::numbers::{
    CART_TAX_STATE, LINE_KIND, LINE_LABEL, LINE_PRODUCT, LINE_QUANTITY, LINE_RATE, LINE_TOTAL,
    LINE_UNIT, ORDER_PLACED, ORDER_ROUNDING, ORDER_STATE, ORDER_TAX, ORDER_TAX_STATE, ORDER_TOTAL,
    TAX_AMOUNT, TAX_TAX,
};
use crate::parts::OrderPart;
use cart_price::{PricedCart, TaxSum};
use shop_defs::{Copied, Entity, Key, List, NoMemory, Row, Txt, Value};
use std::alloc::Global;

/// A field with a word.
fn word_value(alloc: Global, word: &str) -> Result<Value, NoMemory>
    ensures { IfOk result (λ value. value ≡ values.Text word.now) }
{
    Ok(Value::Text(Txt::from_str(alloc, word)?))
}

/// Puts the field at the end, unless it is empty. Want of memory is the only error, here and below.
fn push_if_any(
    fields: &mut List<(u8, Value)>,
    number: u8,
    value: Option<Value>,
) -> Result<(), NoMemory>
    ensures { OnOk result (fields.new ≡ fields.old ++ spec.optional number value) }
{
    match value {
        Some(value) => fields.push((number, value)),
        None => Ok(()),
    }
}

/// What rounding added to the cart's total.
pub(crate) fn rounding_of(cart: &PricedCart) -> Value
    requires total { IsAmount cart.now.total }
    requires raw { IsAmount cart.now.raw }
    ensures { result ≡ values.Int (spec.rounding_of cart.now) }
{
    Value::Int(cart.total - cart.raw)
}

/// The row of an order that is placed of the cart with that row.
pub(crate) fn order_row(
    alloc: Global,
    order: u128,
    cart_row: &Row,
    moment: i64,
    cart: &PricedCart,
    rounding: Value,
) -> Result<Row, NoMemory>
    ensures { IfOk result (λ row. row ≡ spec.order_row_with order cart_row.now moment cart.now rounding) }
{
    let mut fields = List::new(alloc);
    fields.push((ORDER_STATE, word_value(alloc, "open")?))?;
    fields.push((ORDER_PLACED, Value::Int(moment)))?;
    fields.push((ORDER_TAX_STATE, tax_state(alloc, cart_row)?))?;
    fields.push((ORDER_TOTAL, Value::Int(cart.total)))?;
    fields.push((ORDER_TAX, Value::Int(cart.tax)))?;
    fields.push((ORDER_ROUNDING, rounding))?;
    Ok(Row {
        key: live_key(Entity::Order, order, 0),
        fields,
        ops: List::new(alloc),
    })
}

/// Which prices the cart has.
fn tax_state(alloc: Global, cart: &Row) -> Result<Value, NoMemory>
    ensures { IfOk result (λ value. value ≡ values.Text (spec.word_or_gross (spec.tax_state_in cart.now))) }
{
    match cart.field(CART_TAX_STATE) {
        Some(Value::Text(word)) => Ok(Value::Text(word.copy(alloc)?)),
        _ => word_value(alloc, "gross"),
    }
}

/// The row of a line at that position.
fn line_row(
    alloc: Global,
    order: u128,
    position: u128,
    part: &OrderPart,
    label: &Txt,
) -> Result<Row, NoMemory>
    ensures { IfOk result (λ row. row ≡ spec.line_row order position part.now label.now) }
{
    let mut fields = List::new(alloc);
    fields.push((LINE_KIND, word_value(alloc, part.kind.text())?))?;
    push_if_any(&mut fields, LINE_PRODUCT, ident_value(part.product))?;
    fields.push((LINE_LABEL, Value::Text(label.copy(alloc)?)))?;
    fields.push((LINE_QUANTITY, Value::Int(i64::from(part.quantity))))?;
    fields.push((LINE_UNIT, Value::Int(part.unit)))?;
    fields.push((LINE_TOTAL, Value::Int(part.total)))?;
    push_if_any(&mut fields, LINE_RATE, rate_value(part.rate))?;
    Ok(Row {
        key: live_key(Entity::OrderLine, order, position),
        fields,
        ops: List::new(alloc),
    })
}

fn ident_value(id: Option<u128>) -> Option<Value>
    ensures { result ≡ option_map values.Ident id }
{
    match id {
        Some(id) => Some(Value::Ident(id)),
        None => None,
    }
}

fn rate_value(rate: Option<u32>) -> Option<Value>
    ensures { result ≡ option_map (λ rate. values.Int (pos rate)) rate }
{
    match rate {
        Some(rate) => Some(Value::Int(i64::from(rate))),
        None => None,
    }
}

/// The changes with those that put the lines, each with its label.
pub(crate) fn push_lines(
    alloc: Global,
    changes: &mut List<(Key, Option<Row>)>,
    order: u128,
    parts: &[OrderPart],
    labels: &[Txt],
) -> Result<(), NoMemory>
    requires { length parts.now ≤ 201 }
    ensures { OnOk result (changes.new ≡ changes.old ++ spec.lines_from order 1 parts.now labels.now) }
{
    let mut position = 1;
    let mut rest = parts;
    let mut names = labels;
    while let [part, more @ ..] = rest {
        match names {
            [label, others @ ..] => {
                let row = line_row(alloc, order, position, part, label)?;
                changes.push((row.key, Some(row)))?;
                names = others;
            }
            [] => return Ok(()),
        }
        position += 1;
        rest = more;
    }
    Ok(())
}

/// The row of what the order bears at a tax rate.
fn tax_row(alloc: Global, order: u128, sum: &TaxSum) -> Result<Row, NoMemory>
    ensures { IfOk result (λ row. row ≡ spec.tax_row order sum.now) }
{
    let mut fields = List::new(alloc);
    fields.push((TAX_AMOUNT, Value::Int(sum.amount)))?;
    fields.push((TAX_TAX, Value::Int(sum.tax)))?;
    Ok(Row {
        key: live_key(Entity::OrderTax, order, u128::from(sum.rate) + 1),
        fields,
        ops: List::new(alloc),
    })
}

/// The changes with those that put what the order bears at each rate.
pub(crate) fn push_taxes(
    alloc: Global,
    changes: &mut List<(Key, Option<Row>)>,
    order: u128,
    sums: &[TaxSum],
) -> Result<(), NoMemory>
    ensures { OnOk result (changes.new ≡ changes.old ++ map (spec.tax_change order) sums.now) }
{
    let mut rest = sums;
    while let [sum, more @ ..] = rest {
        let row = tax_row(alloc, order, sum)?;
        changes.push((row.key, Some(row)))?;
        rest = more;
    }
    Ok(())
}
