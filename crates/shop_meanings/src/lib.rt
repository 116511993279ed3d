//! Where the categories of a shop stand. Definitions over a plain list of rows, and their laws.
//!
//! # What is promised
//!
//! - The definitions in `specs/` say where a category stands (`standing`): its path is a walk up by
//!   the parents in the live rows, of at most as many steps as there are live categories; its level is
//!   one more than the path is long; its children are the live categories that name it.
//! - `law_of_the_paths`, of rows that are in order and coherent: a root has an empty path, and any
//!   other category its parent's with the parent at the end; a path begins at a root, has live
//!   categories alone and is shorter than 32; a walk of 31 steps, or of more, comes as far.
//! - `law_of_the_children`: a category has as many children as live categories name it, and not more
//!   than there may be rows.
//! - `law_of_the_worked_rows` has a category that is moved, as the definitions compute it.
//! - Nothing here is done by a call: `specs/` is what indexes are held to. `Standing` is the type of
//!   one answer.
#![tactic(auto)]

mod laws;
mod standing;

pub use laws::{law_of_the_children, law_of_the_paths, law_of_the_worked_rows};
pub use standing::Standing;
