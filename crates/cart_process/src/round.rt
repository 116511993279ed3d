//! One round of a cart.
ghost use Rattle.std.specs.Prelude.{◌≡◌, ◌≤◌, ◌*◌, ◌^◌, IfOk, IfSome, IsTrue};
ghost use Rattle.std.specs.Option.{option_copied};
ghost use Rattle.shop_defs.specs.declared.entity.Entity.TheVariants as E;
ghost use Rattle.row_fields.specs.Checked.{IsRowOf};
ghost use Rattle.cart_price.specs.Lent.{LineRows, cart_rows};
ghost use Rattle.cart_price.specs.Nearest.{is_interval};
ghost use Rattle.cart_sums.specs.Taxes.{most};
ghost use Rattle.cart_process.specs.Choice.{IsChoice};
ghost use Rattle.cart_process.specs.Deliveries.{shipping_price};
ghost use Rattle.cart_process.specs.ShippingChoice.{IsShippingChoice};
ghost use Rattle.cart_process.specs.declared.deliveries.Measures.{Measures};
ghost use Rattle.cart_process.specs.Fitting.{GoodsFit, SendingFits};
ghost use Rattle.cart_process.specs.Kept.{IsCartKept, ShippedFits};
ghost use Rattle.cart_process.specs.LinePrices.{quantity_of};
ghost use Rattle.cart_process.specs.Priced as spec;
ghost use Rattle.cart_process.specs.Shown.{AddsUp, AreTaxesShown};
ghost use Rattle.cart_process.specs.Units.{deciding};
ghost use Rattle.cart_process.specs.Words as words;

use crate::blocks::{blocks_of, lines_of};
use crate::deliveries::Shipped;
use crate::goods::{Goods, goods_of};
use crate::numbers::CART_INTERVAL;
use crate::sending::{Sending, sending_of};
use crate::taxing::taxes_of;
use crate::words::{mode_of, state_of};
use cart_price::{Block, CartData, Delivery, PricedCart, PricedLine, TaxState, TaxSum, round_to};
use row_fields::int_at;
use shop_defs::{List, NoMemory, Row};
use std::alloc::Global;

/// A round's cart over the lent rows at a moment, by the rules that hold, in their order.
///
/// The rows of the cart, of its lines with their products, prices and taxes, of the method's tax and of
/// its prices are rows of their entities as the table has them, and there are at most 100 lines. A line
/// for whose product no tax row is lent has no price. Want of memory is the only error.
pub fn process(
    alloc: Global,
    lent: &CartData<'_>,
    moment: i64,
    rules: &[u128],
) -> Result<PricedCart, NoMemory>
    requires { IsCartKept (cart_rows lent.now) }
    ensures value { IfOk result (λ cart. cart ≡ spec.priced (cart_rows lent.now) moment rules.now) }
    // The numbers that are shown add up, and what is to be paid is no more than half an interval away.
    ensures sum { IfOk result (AddsUp (words.state_of lent.now.cart.now) (spec.interval_of lent.now.cart.now)) }
    // The price row that decides is that of the first rule that has one, from the most pieces on of
    // those for so many pieces.
    ensures choice { IfOk result (λ _. (line : LineRows) → IsChoice rules.now (quantity_of line.line) line.prices (deciding rules.now (quantity_of line.line) line.prices)) }
    // The price of a delivery that is taken is that of the first rule that has one that may be used, and
    // where none has, one without a rule: the one from the highest bound on, and of several the first.
    ensures shipping { IfOk result (λ _. (measures : Measures) → IsShippingChoice rules.now measures (cart_rows lent.now).shipping (shipping_price rules.now measures (cart_rows lent.now).shipping)) }
    // Rates ascend, and each tax is within its amount.
    ensures taxes { IfOk result (λ cart. AreTaxesShown (words.state_of lent.now.cart.now) (words.mode_of lent.now.cart.now) cart.taxes) }
{
    let state = state_of(lent.cart);
    let goods = goods_of(alloc, state, moment, rules, lent)?;
    let sending = sending_of(alloc, state, moment, rules, lent, &goods.measures)?;
    let taxes = taxes_of(alloc, state, mode_of(lent.cart), &goods, &sending)?;
    let lines = lines_of(alloc, lent.lines.as_slice(), goods.prices.as_slice())?;
    let blocks = blocks_of(
        alloc,
        lent.lines.as_slice(),
        goods.prices.as_slice(),
        lent.cart.key.id,
        sending.cause,
    )?;
    Ok(cart_of(lent, state, lines, blocks, goods, sending, taxes))
}

/// The cart, from its parts.
fn cart_of(
    lent: &CartData<'_>,
    state: TaxState,
    lines: Vec<PricedLine>,
    blocks: List<Block>,
    goods: Goods,
    sending: Sending,
    taxes: List<TaxSum>,
) -> PricedCart
    requires cart { IsRowOf E.Cart (cart_rows lent.now).cart }
    requires goods { GoodsFit goods }
    requires sending { SendingFits sending }
    requires taxes { spec.tax_total taxes ≤ most }
    ensures { result ≡ spec.cart_of (cart_rows lent.now) state lines.items blocks goods sending taxes }
{
    let tax = tax_total(taxes.as_slice());
    let raw = raw_of(state, goods.taken.left, sending.taken.left, tax);
    PricedCart {
        count: goods.measures.count as i64,
        delivery: delivery_in(lent.method, sending.shipped),
        delivery_discounts: sending.taken.discounts,
        discounts: goods.taken.discounts,
        goods: goods.measures.goods as i64,
        lines: List::from_vec(lines),
        raw: raw as i64,
        tax: tax as i64,
        taxes,
        total: round_to(raw as i64, interval_of(lent.cart)),
        weight: goods.measures.weight as i64,
        blocks,
    }
}

/// The taxes together, in minor units.
fn tax_total(taxes: &[TaxSum]) -> u64
    requires { spec.tax_total taxes.now ≤ most }
    ensures { result ≡ spec.tax_total taxes.now }
{
    taxes.iter().map(|sum| sum.tax.unsigned_abs()).sum::<u64>()
}

/// What is to be paid before it is rounded: in the net state with the taxes.
fn raw_of(state: TaxState, goods: u64, delivery: u64, taxes: u64) -> u64
    requires goods { goods ≤ 10 ^ 18 }
    requires delivery { delivery ≤ 10 ^ 12 }
    requires taxes { taxes ≤ most }
    ensures value { result ≡ spec.raw_of state goods delivery taxes }
    ensures bound { result ≤ 4 * 10 ^ 18 }
{
    match state {
        TaxState::Net => goods + delivery + taxes,
        _ => goods + delivery,
    }
}

fn delivery_in(method: Option<&Row>, shipped: Option<Shipped>) -> Option<Delivery>
    requires { IfSome shipped ShippedFits }
    ensures { result ≡ spec.delivery_in (option_copied method.entry) shipped }
{
    match (method, shipped) {
        (Some(method), Some(shipped)) => Some(Delivery {
            cost: shipped.cost as i64,
            method: method.key.id,
            rate: shipped.rate,
        }),
        _ => None,
    }
}

/// To what the total is rounded.
#[tactic(auto, using(crate::proofs::FieldNumbers::numbers))]
fn interval_of(cart: &Row) -> i64
    requires { IsRowOf E.Cart cart.now }
    ensures value { result ≡ spec.interval_of cart.now }
    ensures interval { IsTrue (is_interval result) }
{
    int_at(cart, CART_INTERVAL).unwrap_or(1)
}
