//! What counts for products, by look-ups, and which products a delta affects.
//!
//! # What is promised
//!
//! - `product`, `parent_of`, `own_links` and `categories` find what `product_meanings` says of a
//!   product: its live row, its parent's, the categories that it is linked to itself, and those that it
//!   stands in. `with_above` are categories, each with those above it. `product_ids` are all products.
//! - `affected_products` are the products that a delta may affect: those that came, went or changed,
//!   by their own row or a link of their own, those with a link to a category that was moved or is
//!   below one, and the variants of all these. Each other product has the same row before and after,
//!   the same parent, and stands in the same categories (`IsOutside`).
//! - The rows are in order and their live ones coherent. Want of memory is the only error. Only
//!   `product_ids` walks over all products; that is how they are written, and no clause speaks of it.
#![tactic(auto)]

mod affected;
mod found;
mod links;

pub use affected::{affected_products, all_variants, is_live_of};
pub use found::{ids_of, parent_of, product, product_ids};
pub use links::{categories, own_links, with_above};
