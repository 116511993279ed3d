//! What a customer is shown of products and categories: the languages that texts are looked for in,
//! translated texts, and values that a variant inherits from its parent.
//!
//! Nothing here copies a value or takes memory. What is shown is lent by the rows that hold it, for
//! as long as they live, through any [`Look`](shop_defs::Look): the rows of a shop, or a draft's.
//!
//! # What is promised
//!
//! - `chain` and `chain_of` are the languages in which a text is looked for (`value`); in words,
//!   they begin with the one that is asked for, none stands twice, and the system language is among
//!   them (`words`).
//! - `effective` is a row's own value or the one that it inherits. `text_of` and `category_text`
//!   are the text in the first language that has one (`value`), and say it in words (`words`): in
//!   each language a product's own comes before its parent's.
//! - `shown_of` is the whole list that is shown beside a row, with names in order; its contract is
//!   the definition `shown`. The numbers by which fields are looked up are proved to be those of
//!   the table.
#![tactic(auto)]

mod inheritance;
mod languages;
mod lent;
mod numbers;
mod texts;
mod walk;

pub use inheritance::effective;
pub use languages::{Chain, SYSTEM_LANGUAGE};
pub use lent::{Shown, ShownValue, shown_of};
pub use texts::{category_text, text_of};
pub use walk::{chain, chain_of};
