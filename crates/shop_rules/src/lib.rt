//! Rules: the trees of their conditions, and which rules hold of a cart at a moment.
//!
//! # What is promised
//!
//! - `read_tree` gives the conditions of a rule: the live rows of conditions that name it, in the
//!   order of their keys.
//! - `matches` says whether they hold of a cart's facts at a moment (`value`). A leaf holds by what it
//!   looks at, within its bounds, where a bound that isn't given is none: goods, pieces, grams, the
//!   weekday (1 is Monday) and the day in UTC, the group, the country, the products and the shipping
//!   method. How leaves are joined is said in the crate `trees`: without a root nothing holds, an `and`
//!   without nodes below it holds, an `or` doesn't, and a `not` holds where just one is below it that
//!   doesn't (`words`).
//! - Only facts that a leaf of the tree looks at can change its answer (`facts`), a `not` turns what is
//!   below it (`turned`), and the order of the nodes doesn't matter (`order`).
//! - `matched` gives the rules that hold, by priority from the highest on and then by id (`value`),
//!   each pair of a priority and an id once (`ranked`). Handed in all live rules of a shop, it gives
//!   those of the shop that hold (`rows`).
//!
//! `matches` takes no memory. Want of memory is the only error of the two others.
#![tactic(auto)]

mod asking;
mod days;
mod facts;
mod leaf;
mod leaves;
mod matching;
mod numbers;
mod ranked;
mod reading;
#[cfg(test)]
mod tests;

pub use asking::matches;
pub use facts::CartFacts;
pub use matching::matched;
pub use reading::read_tree;
pub use trees::Tree;
