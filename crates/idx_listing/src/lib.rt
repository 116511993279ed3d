//! At which prices products are listed, and which products categories list.
//!
//! # What is promised
//!
//! - A `ListingIndex` is seen as two lists: the live products' ids in their order, each with the price
//!   at which a listing shows it, and the live categories' ids, each with the ids of the products that
//!   it lists, ascending. It shows the rows where both have exactly what the rows mean
//!   (`listing_price` and `listed` of `product_meanings`) and no other id is there (`ShowsListings`).
//! - `build` gives the index that shows the rows. `apply`, called on one that shows the rows before a
//!   delta, leaves the one that shows the rows after it, by look-ups. For prices it looks at the
//!   products whose own row came, went or changed, at their variants, and at their parents before and
//!   after; that no other product is listed at another price afterwards is proved of the definitions
//!   (`proofs/Repriced.antt`). For lists it looks at what `affected` gives: outside of these products
//!   each belongs to the same lists before and after, and outside of these categories each lists the
//!   same products (`IsOutside`). In each of these categories the affected products alone are looked at.
//! - `listing_price` is the look-up, takes no memory, and is `None` exactly where there is no such live
//!   product. `listing` is a page of a category, 24 products and their prices, exactly as the rows mean
//!   it, and is `None` exactly where there is no such live category. `copy` gives the same index.
//! - The rows are in order and their live ones coherent, so that how many are sold for a product or
//!   listed by a category fits its number. Want of memory is the only error. After one from `apply` the
//!   index is only fit to be dropped.
//! - That `copy` shares pages, that a page is found without a walk over those before it, that a list
//!   that stays the same isn't made anew, that what a category lists is found among the products that
//!   are linked to it or below it, and that no call walks over all rows but `build`, which walks over
//!   all products and all categories, are how they are written; no clause speaks of it.
#![tactic(auto)]

mod below;
mod categories;
mod index;
mod lists;
mod numbers;
mod offered;
mod page;
mod touched;

pub use categories::Affected;
pub use index::ListingIndex;
