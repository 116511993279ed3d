//! What is asked about the products of a shop: which are members of a stream, at which price a listing
//! shows one, and which a category lists; and what all questions about rows are answered. Definitions
//! over a plain list of rows, and their laws.
//!
//! # What is promised
//!
//! - The definitions in `specs/` say which live products a stream has as members (`members`: those that
//!   pass the tree of its filters, on the values and links that count for them), at which price a
//!   product is listed (`listing_price`) and what a page of a category shows (`listing`). `direct` says
//!   what each question about all rows is answered over them, where a category stands among the others
//!   too: what it means, or that no row has the key that it names.
//! - `law_of_the_answers`: a question is answered just where the live row that it names is there.
//! - `law_of_the_picked`: the ids of the products that pass a test ascend, and an id is among them just
//!   where its live product passes.
//! - `law_of_the_prices`: of no offers there is no price; else the least price is that of an offer with
//!   none below it, and the cheapest is that offer, of several at its price the one with the least id;
//!   the greatest is that of an offer with none above it.
//! - `law_of_the_worked_rows` has a shop's products, as the definitions compute them: a variant that
//!   follows its parent's price into a stream, prices that are equal, a page and the one past it.
//! - Nothing here is done by a call: `specs/` is what indexes are held to.
#![tactic(auto)]

mod laws;
mod listing;

pub use laws::{law_of_the_answers, law_of_the_picked, law_of_the_prices, law_of_the_worked_rows};
pub use listing::{ListingPage, ListingPrice};
