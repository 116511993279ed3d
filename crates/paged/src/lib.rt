//! A map in pages that are copied on write, sorted by key.
//!
//! Pages are shared between maps, and a change makes anew only the pages that it touches.
//!
//! # What is promised
//!
//! - `Paged` is a map that contracts see as the list of its pages, each the list of its pairs; keys
//!   ascend over all of them. Where there are several pages, each has 16 to 64 pairs (`IsPaged`);
//!   `shape` tells how many pages there are, and the least and the greatest size.
//! - `get` is the look-up of a key, `after` the first pair above one; neither takes memory.
//! - `with` gives the pairs after changes whose keys ascend (`changed`): a pair that is put, in
//!   place of the one with its key, or none. The map that it is called on stays as it was; want of
//!   memory is the only error.
//! - `share` gives a map with the same pages. `runs` and `runs_from` lend the pages one at a time,
//!   all of them or from a key on, and take no memory.
//! - A page holds its values by a `Leaf`: an `Arc` that maps share, or a small value itself
//!   (`Inline`).
//! - That pages are really shared, and what a change costs, is how it is written; no clause speaks
//!   of it.
#![tactic(auto)]

mod binder;
mod changing;
mod editing;
mod leaf;
mod maker;
mod paged;
mod runs;
mod search;
mod shape;
mod sheet;

pub use leaf::{Inline, Leaf};
pub use paged::Paged;
pub use runs::Runs;
pub use shape::Shape;
