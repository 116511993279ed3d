//! What a cart comes to in money: discounts, sums at each tax rate, and the taxes of these. No rows.
//!
//! Amounts are in minor units, tax rates in hundredths of a percent. A *position* is a tax rate and
//! an amount at it, below 0 where it is taken off: the lines of a cart, the parts of its discounts,
//! its delivery. Positions at one rate are kept as one [`RateSum`].
//!
//! # What is promised
//!
//! - `take_all`: the discounts that offers come to, one after the other, each of what the ones
//!   before it left. Each is above 0, there are at most 50, and together with what is left they are
//!   what was there.
//! - `add_at`: one position more. `take_goods`: each discount, shared among the rates by
//!   what is left at each. `take_delivery`: each discount at the rate of the delivery. What is left
//!   at all rates grows or shrinks by just these amounts, and is never below 0 at any.
//! - `tax_sums`: at each rate of the positions, ascending, their sum and its tax. In a vertical cart
//!   that is the tax of the sum, in a horizontal one the sum of the positions' taxes, cut to between
//!   0 and the sum of the positions.
//! - What is kept are the sums of the positions, whatever these are.
#![tactic(auto)]

mod delivery;
mod discounts;
mod goods;
mod sums;
mod taxed;
mod taxes;
#[cfg(test)]
mod tests;

pub use delivery::take_delivery;
pub use discounts::{Offer, Reduction, Taken, take_all};
pub use goods::take_goods;
pub use sums::{RateSum, add_at};
pub use taxed::tax_sums;
