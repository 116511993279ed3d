//! The lines of a cart with their prices, and what promotions take off them.
ghost use Rattle.std.specs.Prelude.{◌≡◌, ◌+◌, ◌≤◌, ◌^◌, map, length, IfOk};
ghost use Rattle.std.specs.List.{AllByRecursion};
ghost use Rattle.cart_price.specs.Lent.{cart_rows, line_rows};
ghost use Rattle.cart_process.specs.Kept.{IsCartKept, IsLineKept};
ghost use Rattle.cart_process.specs.LinePrices.{PriceFits};
ghost use Rattle.cart_process.specs.Fitting.{GoodsFit};
ghost use Rattle.cart_process.specs.Priced as spec;

use crate::deliveries::Measures;
use crate::line_price::LinePrice;
use crate::lines::line_price;
use crate::offers::offers;
use cart_price::{CartData, LentLine, TaxState};
use cart_sums::{Taken, take_all};
use shop_defs::{List, NoMemory};
use std::alloc::{AllocError, Global};

/// The prices of the lines, and what is left of them.
#[derive(Drop)]
pub(crate) struct Goods {
    /// What each line costs.
    pub(crate) prices: List<LinePrice>,
    /// How many pieces there are, what they cost and what they weigh.
    pub(crate) measures: Measures,
    /// What promotions take off what they cost, and what is left.
    pub(crate) taken: Taken,
}

/// The lines with their prices by the rules that hold, and what promotions take off them. Want of
/// memory is the only error.
pub(crate) fn goods_of(
    alloc: Global,
    state: TaxState,
    moment: i64,
    rules: &[u128],
    lent: &CartData<'_>,
) -> Result<Goods, NoMemory>
    requires { IsCartKept (cart_rows lent.now) }
    ensures value { IfOk result (λ goods. goods ≡ spec.goods_of state moment rules.now (cart_rows lent.now)) }
    ensures fit { IfOk result GoodsFit }
{
    let prices = prices_of(alloc, state, rules, lent.lines.as_slice())?;
    let measures = measures_of(prices.as_slice());
    let offers = offers(alloc, lent, moment, rules, b"cart")?;
    let taken = take_all(alloc, measures.goods, offers.as_slice())?;
    Ok(Goods {
        prices: List::from_vec(prices),
        measures,
        taken,
    })
}

/// What each line costs, by the rules that hold.
fn prices_of(
    alloc: Global,
    state: TaxState,
    rules: &[u128],
    lines: &[LentLine<'_>],
) -> Result<Vec<LinePrice>, AllocError>
    requires { AllByRecursion IsLineKept (map line_rows lines.now) }
    ensures value { IfOk result (λ prices. prices.items ≡ spec.line_prices state rules.now (map line_rows lines.now)) }
    ensures fit { IfOk result (λ prices. AllByRecursion PriceFits prices.items) }
{
    let mut prices = Vec::with_capacity(alloc, lines.len())?;
    let mut rest = lines;
    while let [line, more @ ..] = rest {
        prices.push(line_price(state, rules, line))?;
        rest = more;
    }
    Ok(prices)
}

/// How many pieces the lines are of, what they cost and what they weigh.
fn measures_of(prices: &[LinePrice]) -> Measures
    requires fit { AllByRecursion PriceFits prices.now }
    requires few { length prices.now ≤ 100 }
    ensures value { result ≡ spec.measures_of prices.now }
    ensures count { result.count ≤ 10 ^ 6 }
    ensures goods { result.goods ≤ 10 ^ 18 }
    ensures weight { result.weight ≤ 10 ^ 15 }
{
    let mut measures = Measures {
        count: 0,
        goods: 0,
        weight: 0,
    };
    let mut rest = prices;
    while let [price, more @ ..] = rest {
        measures = with_price(&measures, price);
        rest = more;
    }
    measures
}

fn with_price(measures: &Measures, price: &LinePrice) -> Measures
    requires fits { PriceFits price.now }
    requires count { measures.now.count + price.now.pieces ≤ 10 ^ 6 }
    requires goods { measures.now.goods + spec.line_total price.now ≤ 10 ^ 18 }
    requires weight { measures.now.weight + price.now.weight ≤ 10 ^ 15 }
    ensures { result ≡ spec.with_price measures.now price.now }
{
    Measures {
        count: measures.count + price.pieces,
        goods: measures.goods + total_of(price),
        weight: measures.weight + price.weight,
    }
}

/// The price of all pieces of a line, in minor units.
pub(crate) fn total_of(price: &LinePrice) -> u64
    requires { PriceFits price.now }
    ensures value { result ≡ spec.line_total price.now }
    ensures bound { result ≤ 10 ^ 16 }
{
    price.unit * price.pieces
}
