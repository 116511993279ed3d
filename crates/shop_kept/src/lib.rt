//! Rows as bytes: the kept format 1, in which a keeper holds each row under its key.
//!
//! The format is this project's own. `docs/KEPT.md` lays it out field by field, and
//! `specs/Spelling.antt` is its definition.
//!
//! # What is promised
//!
//! - `encode_row` gives the one spelling of a row (`bytes`), and says that the row is one which
//!   these bytes give back (`kept`).
//! - `decode_row` answers a row of that key with these bytes (`found`), and that row wherever there
//!   is one (`only`): so `Malformed` comes exactly where no row of that key has these bytes.
//!   `exact` says the same by a function that reads.
//! - `law_of_the_spellings`: two rows of one key with the same bytes are the same.
//!   `law_of_the_readings`: what that function reads are the spellings of rows and nothing else.
#![tactic(auto)]

mod fault;
mod field;
mod numbers;
mod op;
mod row;
mod spelled;
#[cfg(test)]
mod tests;
mod texts;
mod value;

pub use fault::DecodeFault;
pub use row::{decode_row, encode_row, law_of_the_readings, law_of_the_spellings};
