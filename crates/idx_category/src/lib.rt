//! Where each category stands: its path, its level and how many children it has.
//!
//! # What is promised
//!
//! - A `PathIndex` is seen as the list of the live categories' ids in their order, each with where the
//!   category stands. It shows the rows where each id has exactly what the rows mean there (`standing`
//!   of `shop_meanings`) and no other id is there.
//! - `build` gives the index that shows the rows. `apply`, called on one that shows the rows before a
//!   delta, leaves the one that shows the rows after it, by look-ups: it looks at what came, went or
//!   got another parent, at all below these, and at their parents before and after. That no other
//!   category stands elsewhere afterwards is proved of the definitions (`proofs/Moves.antt`).
//! - `path`, `level` and `child_count` lend or copy what stands there, take no memory, and are `None`
//!   exactly where there is no such live category. `copy` gives the same index.
//! - `category_path` is one path, by look-ups; `moved_and_below` are the categories outside which no
//!   path is another after a delta. Other indexes are made of them.
//! - The rows are in order and their live ones coherent, so that a walk up needs no more steps than a
//!   category has levels. Want of memory is the only error. After one from `apply` the index is only
//!   fit to be dropped.
//! - That `copy` shares pages, and that no call walks over all rows but `build`, which walks over all
//!   categories, is how they are written; no clause speaks of it.
#![tactic(auto)]

mod index;
mod place;
mod touched;

pub use index::PathIndex;
pub use place::category_path;
pub use touched::moved_and_below;
