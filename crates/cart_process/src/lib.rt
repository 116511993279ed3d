//! One round of a cart: its prices, discounts, delivery, taxes and total, by the rules that hold.
//!
//! Public is `process` alone, which makes a round's cart of lent rows. `cart_loop` calls it.
//!
//! # What is promised
//!
//! - `process` is the round's definition (`priced`), step by step (`value`): the price of each line or
//!   what keeps it from being ordered; what promotions take off the goods; the delivery, or what keeps
//!   it from being ordered; what promotions take off that; the taxes of all positions; and the total.
//!   Want of memory is its only error.
//! - Which price row decides, in words, a law on the definition (`choice`): no rule that holds has one,
//!   and none decides; or the first that has one says which, of its rows for so many pieces the one from
//!   the most pieces on.
//! - Which price of a delivery is taken, in words, a law on the definition (`shipping`): that of the first
//!   rule that holds and has one that may be used, and where none has, one for no rule; from the highest
//!   bound on. That the cart's prices are these says `value` alone.
//! - What is shown adds up (`sum`). The goods are the lines' totals together. Each discount is above 0,
//!   there are at most 50 on the goods and as many on the delivery, and they come to no more than what
//!   they are taken off. The tax is that of all rates. `raw` is what is left of the goods and of the
//!   delivery, with the tax in the net state; it is also the amounts at all rates, with that tax. The
//!   total is no more than half an interval away from it.
//! - Tax rates ascend, each once, and each tax is from 0 to its amount (`taxes`).
//! - It asks that at most 100 lines are lent, and that the rows it takes numbers from are rows of their
//!   entities as the table has them (`IsCartKept`). Then no number leaves its range.
#![tactic(auto)]

mod blocks;
mod deliveries;
mod goods;
mod line_price;
mod lines;
mod numbers;
mod offers;
mod round;
mod sending;
mod taxing;
mod units;
mod words;

pub use round::process;
