//! Whether what is kept are rows of a shop.
//!
//! # What is promised
//!
//! - `check_rows` says of kept bytes whether they are the rows of a shop. Where it is `Ok`, the
//!   rows are sound and theirs are the bytes (`found`, `bytes`), and what is kept of sound rows
//!   always gives these rows (`sound`). Where it is `Damaged`, the entry is the first that fails a
//!   rule and the rule is the first that it fails (`exact`), in words too (`first`).
//! - The rules are `order`, `encoding`, `kind`, `required`, `reference`, `duplicate`, `parent` and
//!   `limit`, over every entity that operations may write; rows of drafts, of stock and of orders
//!   fail `kind` until they come.
//! - Two laws say that this is soundness: in what is kept of sound rows nothing is damaged, and
//!   entries of which none is damaged are kept of sound rows. `law_of_the_kinds`: a row that passes
//!   `kind` is within the bounds of the kept format.
//! - That the check costs a few look-ups a row is how it is written; no clause speaks of it.
#![tactic(auto)]

mod among;
mod check;
mod fault;
mod indexed;
mod kind;
mod others;
mod plain;

pub use check::{check_rows, law_of_the_check};
pub use fault::{CheckFault, Rule};
pub use kind::{is_of_its_kind, law_of_the_kinds, passes_kind};
