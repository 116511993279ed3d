//! A cart with its prices.
//!
//! Amounts are in minor units of the cart's currency, as cents. Tax rates are in hundredths of a
//! percent: 1900 is 19 %.

use shop_defs::{List, Txt};

/// Which prices a cart has.
#[derive(Drop, Clone, Copy)]
pub enum TaxState {
    /// Prices with tax in them.
    Gross,
    /// Prices to which tax is added.
    Net,
    /// Prices without tax.
    Free,
}

/// How a cart's tax is summed up.
#[derive(Drop, Clone, Copy)]
pub enum TaxMode {
    /// For each rate, the sum of the taxes of its positions.
    Horizontal,
    /// For each rate, the tax of the sum of its positions.
    Vertical,
}

/// A line of a cart. One that is blocked has no price: its unit price, its total and its rate are 0, and
/// it counts nowhere, unless it is blocked for its quantity alone.
#[derive(Drop)]
pub struct PricedLine {
    /// The id of the line.
    pub id: u128,
    /// The id of the product.
    pub product: u128,
    /// How many pieces, from 1 on.
    pub quantity: u32,
    /// The tax rate in hundredths of a percent, up to 10,000: 0 in a cart without tax.
    pub rate: u32,
    /// The price of all pieces, in minor units.
    pub total: i64,
    /// The price of one piece, in minor units.
    pub unit: i64,
}

/// What a promotion takes off a cart or off its delivery.
#[derive(Drop)]
pub struct Discount {
    /// What is taken off, in minor units: above 0.
    pub amount: i64,
    /// The id of the promotion's discount.
    pub discount: u128,
    /// The id of the promotion.
    pub promotion: u128,
}

/// The delivery of a cart.
#[derive(Drop)]
pub struct Delivery {
    /// What it costs before discounts, in minor units.
    pub cost: i64,
    /// The id of the shipping method.
    pub method: u128,
    /// The tax rate in hundredths of a percent, up to 10,000: 0 in a cart without tax.
    pub rate: u32,
}

/// What a cart comes to at one tax rate.
#[derive(Drop)]
pub struct TaxSum {
    /// The sum of the positions at this rate, less discounts, in minor units.
    pub amount: i64,
    /// The tax rate in hundredths of a percent, up to 10,000.
    pub rate: u32,
    /// The tax of that amount, in minor units.
    pub tax: i64,
}

/// What keeps a cart from being ordered.
#[derive(Drop)]
pub struct Block {
    /// The name of what stands in the way, as `no_price`.
    pub cause: Txt,
    /// The id of the line; of the cart where it is the delivery that stands in the way.
    pub line: u128,
}

/// A cart with its prices.
#[derive(Drop)]
pub struct PricedCart {
    /// How many pieces the lines with a price have together.
    pub count: i64,
    /// The delivery: none where there are no pieces, or where it is blocked.
    pub delivery: Option<Delivery>,
    /// What is taken off the delivery, in the order in which it is taken off.
    pub delivery_discounts: List<Discount>,
    /// What is taken off the goods, in the order in which it is taken off.
    pub discounts: List<Discount>,
    /// The sum of the lines' totals, in minor units.
    pub goods: i64,
    /// The lines, by position and then by id.
    pub lines: List<PricedLine>,
    /// What the cart comes to before it is rounded, in minor units.
    pub raw: i64,
    /// The sum of the taxes of all rates, in minor units.
    pub tax: i64,
    /// What the cart comes to at each tax rate, rates ascending.
    pub taxes: List<TaxSum>,
    /// What is to be paid, rounded to the cart's interval, in minor units.
    pub total: i64,
    /// The weight of all pieces in grams.
    pub weight: i64,
    /// What keeps the cart from being ordered: of the lines in their order, and last of the delivery.
    pub blocks: List<Block>,
}

/// A cart whose prices no longer change.
#[derive(Drop)]
pub struct Settled {
    /// The cart.
    pub cart: PricedCart,
    /// What its parts are called: the lines, the discounts, the delivery and the delivery's discounts.
    pub labels: List<Txt>,
    /// The ids of the rules that hold of the cart, in the order in which they count.
    pub rules: List<u128>,
    /// In how many rounds it was settled: from 2 to 7.
    pub rounds: u32,
}
