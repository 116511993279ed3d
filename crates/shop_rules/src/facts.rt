//! What the conditions of rules look at.

use shop_defs::{List, Txt};

/// What is known of a cart, as far as rules look at it.
#[derive(Drop)]
pub struct CartFacts {
    /// The sum of the lines' totals, in minor units.
    pub goods: i64,
    /// How many pieces the lines with a price have together.
    pub count: i64,
    /// The weight of these pieces, in grams.
    pub weight: i64,
    /// The product of each line whose product is there, blocked or not, and that product's parent.
    pub products: List<u128>,
    /// The group of the customer: empty where there is none.
    pub group: Txt,
    /// The country of the delivery: empty where there is none.
    pub country: Txt,
    /// The id of the shipping method: 0 where there is none.
    pub method: u128,
}
