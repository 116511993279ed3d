//! Carts that are settled: priced again and again, until a further round leaves prices and rules as
//! they are.
//!
//! # What is promised
//!
//! - `settle` prices a cart in rounds, the first by no rules and each other by those that hold of the cart
//!   before it. It gives the first cart that the next round repeats, in prices and rules, with how many
//!   rounds were made (2 to 7) and what the cart's parts are called. So a further round by the rules of
//!   the answer gives the cart of the answer, and these rules are just those of the shop that hold of it,
//!   in their order (`IsSettled`).
//! - It is `Unstable` exactly where no two of seven rounds in a row give the same, and `NoSuchCart` exactly
//!   where there is no such cart (`IsRefused`). Want of memory is its only other error.
//! - What a cart is settled at, or why it isn't, is one value of the rows and the moment
//!   (`law_of_the_answer`).
//! - It asks that each row is as its entity has it, and that no cart has more than 100 lines
//!   (`AreCartRows`), as in all rows that were checked.
//! - That the rows of the cart and all rules are collected once, and every round goes over them, is how
//!   it is written; no clause speaks of it.
#![tactic(auto)]

mod cart;
mod facts;
mod fault;
mod labels;
mod laws;
mod numbers;
mod rounds;
mod rules;
mod same;
mod settling;
mod state;

pub use cart::settle;
pub use fault::CartRefused;
pub use laws::law_of_the_answer;
