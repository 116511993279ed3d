//! What an operation does to the rows of a view, and which rule it breaks.
//!
//! # What is promised
//!
//! - The definitions in `specs/` say what an operation leaves of rows, or the first rule that it
//!   breaks (`operated`; `docs/DEFINITIONS.md` has it in plain words; what a batch leaves stands in
//!   `shop_soundness`). The functions here are what it is made of on one row or two; each is proved
//!   to be its definition.
//! - `given_to` is the row that an upsert leaves of another: what is given, then the presets.
//!   `law_of_the_given_row` says in words what it has of each field.
//! - `specs/Outcomes.antt` says in words what an accepted operation leaves, and that it keeps to
//!   each rule that it is tried against (`Leaves`); that `operated` does so is a law of
//!   `shop_soundness`.
//! - `fixed_field` and `missing_required` are the refusals of a row alone, with the field of the
//!   least name; `first_fixed` and `first_missing` find it without memory.
//! - `refuse_reference` is the refusal of a reference, by `reference_name`; `gives`, `gives_part`
//!   and `gives_parent` say what an operation gives.
//! - `named`, `ties`, `falls_with`, `refers_to`, `restricts`, `sets_null` and `parent_id` say how a
//!   row stands to another, `stands_at` where it stands, `is_twin` whether two rows have the same
//!   unique fields.
#![tactic(auto)]

mod given;
mod laws;
mod places;
mod references;
mod twins;
mod written;

pub use given::{bare_row, given_to};
pub use laws::law_of_the_given_row;
pub use places::stands_at;
pub use references::{falls_with, is_id, named, part_of, refers_to, restricts, sets_null, ties};
pub use twins::{agree_in, has_unique, is_twin, same_value};
pub use written::{
    first_fixed, first_missing, fixed_field, gives, gives_parent, gives_part, missing_required,
    parent_id, reference_name, refuse_reference,
};
