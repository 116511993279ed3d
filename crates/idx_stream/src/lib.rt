//! Which products are members of which streams.
//!
//! # What is promised
//!
//! - A `StreamIndex` is seen as the list of the live streams' ids in their order, each with the ids of
//!   its members, ascending. It shows the rows where each id has exactly the members that the rows mean
//!   there (`members` of `product_meanings`) and no other id is there.
//! - `build` gives the index that shows the rows. `affected` gives the products and the streams that a
//!   delta may affect: outside of both lists a membership is the same before and after (`IsOutside`).
//!   `apply`, called on an index that shows the rows before a delta, leaves the one that shows the rows
//!   after it: a stream whose filters changed is found anew, and in each other stream the affected
//!   products alone are looked at.
//! - `members` lends the members as one slice, takes no memory, and is `None` exactly where there is no
//!   such live stream. `copy` gives the same index.
//! - The rows are in order and their live ones coherent. Want of memory is the only error. After one
//!   from `apply` the index is only fit to be dropped.
//! - That a delta without affected products touches no stream but those whose filters changed, and that
//!   `copy` shares pages, is how they are written; no clause speaks of it.
#![tactic(auto)]

mod filters;
mod index;
mod leaf;
mod members;
mod numbers;
mod touched;

pub use index::StreamIndex;
pub use touched::Affected;
