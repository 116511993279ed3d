//! The arithmetic of prices: the types of a cart with its prices, the tax of an amount, amounts
//! rounded to an interval, and an amount shared among tax rates.
//!
//! # What is promised
//!
//! - `tax` and `round_to` are their definitions (`value`), take no memory, and answer the whole
//!   number, or the multiple, that is nearest, a half away from zero (`nearest`), for each amount
//!   within 4 · 10^18 minor units of zero. `is_amount` and `is_interval` are the tests of what they
//!   ask for.
//! - `share` is the largest remainder with ties to the lower rate (`value`): the parts sum to the
//!   amount (`sum`), each stands under its rate, between 0 and its base (`parts`), and is the whole
//!   units of its exact share or one more (`floors`); and no other sharing by whole units has a
//!   smaller largest deviation from the exact shares (`fairest`).
//! - `cart_sums` and `cart_process` call these, and `GET /cart` leads to them.
#![tactic(auto)]

mod amounts;
mod lent;
mod priced;
mod shares;
#[cfg(test)]
mod tests;

pub use amounts::{is_amount, is_interval, round_to, tax};
pub use lent::{CartData, LentLine, LentPromotion};
pub use priced::{
    Block, Delivery, Discount, PricedCart, PricedLine, Settled, TaxMode, TaxState, TaxSum,
};
pub use shares::share;
