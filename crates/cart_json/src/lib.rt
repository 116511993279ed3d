//! The body of the reply that shows a settled cart: JSON (RFC 8259) without spaces, the members of
//! each object in the order of the bytes of their names.
//!
//! # What is promised
//!
//! - `settled_text` prints exactly the compact text of the JSON value of a settled cart, into memory
//!   that the caller keeps.
#![tactic(auto)]

mod body;
mod cart;
mod settled;
#[cfg(test)]
mod tests;

pub use settled::settled_text;
