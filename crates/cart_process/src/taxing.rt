//! The taxes of all that a cart comes to.
ghost use Rattle.std.specs.Prelude.{◌≡◌, ◌+◌, ◌≤◌, ◌++◌, ◌*◌, ◌^◌, sum_by, length, IfOk, IfSome};
ghost use Rattle.std.specs.List.{AllByRecursion};
ghost use Rattle.cart_sums.specs.Discounts.{total_off};
ghost use Rattle.cart_sums.specs.Fits.{AreSums, AreTaxed};
ghost use Rattle.cart_sums.specs.Positions.{Positions};
ghost use Rattle.cart_sums.specs.Positions as direct;
ghost use Rattle.cart_sums.specs.Sums.{left_at, plus_of, sums_of};
ghost use Rattle.cart_sums.specs.Taxes.{most};
ghost use Rattle.cart_process.specs.Fitting.{GoodsFit, SendingFits};
ghost use Rattle.cart_process.specs.Kept.{ShippedFits};
ghost use Rattle.cart_process.specs.LinePrices.{PriceFits};
ghost use Rattle.cart_process.specs.Priced as spec;
ghost use Rattle.cart_process.specs.Shown.{AreTaxesShown};
ghost use Rattle.cart_process.specs.Summing as summing;

use crate::deliveries::Shipped;
use crate::goods::{Goods, total_of};
use crate::line_price::LinePrice;
use crate::lines::has_price;
use crate::sending::Sending;
use cart_price::{Discount, TaxMode, TaxState, TaxSum};
use cart_sums::{RateSum, add_at, take_delivery, take_goods, tax_sums};
use ordered::Ordered;
use shop_defs::{List, NoMemory};
use std::alloc::{AllocError, Global};

/// The taxes of the goods and of the delivery with their discounts. Want of memory is the only error.
pub(crate) fn taxes_of(
    alloc: Global,
    state: TaxState,
    mode: TaxMode,
    goods: &Goods,
    sending: &Sending,
) -> Result<List<TaxSum>, NoMemory>
    requires goods { GoodsFit goods.now }
    requires sending { SendingFits sending.now }
    ensures value { IfOk result (λ taxes. taxes ≡ direct.tax_sums state mode (spec.positions_of goods.now sending.now)) }
    ensures bound { IfOk result (λ taxes. spec.tax_total taxes ≤ most) }
    ensures shown { IfOk result (AreTaxesShown state mode) }
    ensures amounts { IfOk result (λ taxes. spec.amount_total taxes ≡ goods.now.taken.left + sending.now.taken.left) }
{
    let sums = line_sums(alloc, state, goods.prices.as_slice())?;
    let sums = take_goods(alloc, state, sums, goods.taken.discounts.as_slice())?;
    let sums = with_delivery(
        state,
        sums,
        sending.shipped,
        sending.taken.discounts.as_slice(),
    )?;
    tax_sums(alloc, state, mode, &sums)
}

/// What the lines with a price come to at each rate.
fn line_sums(
    alloc: Global,
    state: TaxState,
    prices: &[LinePrice],
) -> Result<Ordered<RateSum>, AllocError>
    requires fit { AllByRecursion PriceFits prices.now }
    requires few { sum_by spec.line_total prices.now ≤ 10 ^ 18 }
    ensures value { IfOk result (λ sums. sums.list ≡ sums_of state (spec.line_positions prices.now)) }
    ensures sums { IfOk result (λ sums. AreSums sums.list) }
    ensures plus { IfOk result (λ sums. sum_by plus_of sums.list ≡ sum_by spec.line_total prices.now) }
    ensures left { IfOk result (λ sums. sum_by left_at sums.list ≡ sum_by spec.line_total prices.now) }
{
    let mut sums = Ordered::new(alloc);
    let mut rest = prices;
    while let [price, more @ ..] = rest {
        sums = with_line(state, sums, price)?;
        rest = more;
    }
    Ok(sums)
}

/// The sums with one line more, if it has a price.
fn with_line(
    state: TaxState,
    sums: Ordered<RateSum>,
    price: &LinePrice,
) -> Result<Ordered<RateSum>, AllocError>
    requires sums { AreSums sums.list }
    requires fits { PriceFits price.now }
    requires room { sum_by plus_of sums.list + spec.line_total price.now ≤ most }
    ensures value { IfOk result (λ after. after.list ≡ summing.with_line state sums.list price.now) }
    ensures sums { IfOk result (λ after. AreSums after.list) }
    ensures plus { IfOk result (λ after. sum_by plus_of after.list ≡ sum_by plus_of sums.list + spec.line_total price.now) }
    ensures left { IfOk result (λ after. sum_by left_at after.list ≡ sum_by left_at sums.list + spec.line_total price.now) }
{
    if !has_price(price.cause) {
        return Ok(sums);
    }
    add_at(state, sums, price.rate, total_of(price))
}

/// The sums with the delivery and the discounts on it, if there is one.
fn with_delivery(
    state: TaxState,
    sums: Ordered<RateSum>,
    shipped: Option<Shipped>,
    discounts: &[Discount],
) -> Result<Ordered<RateSum>, AllocError>
    requires sums { AreSums sums.list }
    requires fits { IfSome shipped ShippedFits }
    requires room { sum_by plus_of sums.list ≤ 10 ^ 18 }
    requires within { total_off discounts.now ≤ spec.cost_of shipped }
    ensures sums { IfOk result (λ after. AreSums after.list) }
    ensures left { IfOk result (λ after. sum_by left_at after.list + total_off discounts.now ≡ sum_by left_at sums.list + spec.cost_of shipped) }
    ensures positions { IfOk result (λ after. (given : Positions) → sums.list ≡ sums_of state given → after.list ≡ sums_of state (given ++ spec.sent_positions shipped discounts.now)) }
{
    match shipped {
        Some(shipped) => {
            let after = add_at(state, sums, shipped.rate, shipped.cost)?;
            take_delivery(state, after, shipped.rate, discounts)
        }
        None => Ok(sums),
    }
}
