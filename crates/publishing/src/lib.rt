//! A shop's published copy, and the deltas that it hasn't taken in yet.
//!
//! # What is promised
//!
//! - A `Queue` is seen as the published copy, the changes of each pending delta in their order, and the
//!   room for more. Its type keeps that the copy is one, that the rows are sound after each delta, and
//!   that all fronts are below 2^63.
//! - `push`, for which `reserve` made room, puts a delta behind the pending ones and takes no memory.
//!   `batch` gives the published copy and the first pending deltas, as many as are asked for, and all
//!   that `IndexCopy::next` has as its condition. `published` gives the copy alone.
//! - `install` puts a copy in place that was built of the published one and the first pending deltas,
//!   and takes these off; a copy whose front isn't above the published one is answered `Older`, and
//!   nothing changes. Either way the same rows stand at the end. It takes no memory.
//! - `catch_up` publishes the copy after all pending deltas.
//! - Want of memory is the only error of the others, and nothing changes then.
#![tactic(auto)]

mod queue;

pub use queue::{Batch, Older, Queue};
