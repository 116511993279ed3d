//! Trees of conditions, whose nodes are rows: the filters of a stream, or the conditions of a rule.
//!
//! # What is promised
//!
//! - `Tree::holds` says whether a tree holds, by a test of its leaves that is handed in. Its roots
//!   are joined by `and`, and a tree without a root holds of nothing. `and` holds where all nodes just
//!   below it hold, so without any it does; `or` where one does, so without any it doesn't; `not`
//!   where just one node is below it and that one doesn't hold; any other node is a leaf, and holds
//!   where its test says yes, whatever stands below it (`value`).
//! - The same without a count of levels: whatever gives each node what its kind and the nodes just
//!   below it say, gives the answer (`words`).
//! - A `not` turns what is below it (`turned`), the order of the nodes doesn't matter (`order`), and
//!   tests that agree on the leaves give one answer (`leaves`).
//! - `parent_of` and `join_of` read a node of either kind: the fields are the same by the table
//!   (`filters`).
//!
//! Nothing here takes memory but what makes the list of the nodes.
#![tactic(auto)]

mod answers;
mod node;
mod numbers;
mod test;
mod tree;
mod walk;

pub use node::{Join, join_of, parent_of};
pub use test::Test;
pub use tree::Tree;
