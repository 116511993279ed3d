//! The rows that a cart's prices are made of, lent by the rows of a shop.
//!
//! # What is promised
//!
//! - `collect` gives the live cart with an id and the rows that its prices are made of, each the row that
//!   its definition says (`value`): lines with their products, those products' parents, the price rows
//!   and the taxes that count for them, and their names; codes; all promotions with their discounts; the
//!   shipping method with its tax and its prices. A line whose product isn't there has no other rows.
//!   There is none exactly where there is no such cart.
//! - Its lines are those of the cart, by position and then by id, and its promotions all live ones, by
//!   priority from the highest on and then by id; none is missing and none stands there twice (`order`).
//! - `live_rows` gives the live rows of an entity, in the order of their keys.
//!
//! Every row is lent and none is copied. While what is lent is in use the rows can't be changed. Want of
//! memory is the only error beside a missing cart. That no look-up walks over all rows, so that what it
//! costs grows with what is lent and with the rows that refer to the cart, its products, its promotions
//! and its method, is how it is written; no clause speaks of it.
#![tactic(auto)]

mod collecting;
mod fault;
mod finding;
mod line;
mod numbers;
mod ordering;
mod promotion;
mod ranks;
#[cfg(test)]
mod tests;
mod walking;

pub use collecting::collect;
pub use fault::CollectFault;
pub use walking::live_rows;
