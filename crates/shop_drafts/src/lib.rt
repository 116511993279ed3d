//! Drafts: versions beside the live one, in which a product or a category is edited, and merges.
//! Their definitions and laws.
//!
//! # What is promised
//!
//! - `MEMBERS` says what a draft edits; `is_part`, `is_root` and `has_versions` compute it.
//!   `law_of_the_parts`: of a product its row, its translations, its links to categories and its
//!   prices, of a category its row and its translations, and of nothing else.
//! - The definitions in `specs/` say what making, writing, dropping and merging a draft leave of
//!   rows, and the first rule that is broken (`make_draft`, `draft_write`, `drop_draft`, `merge`),
//!   what a version shows (`shown_rows`, `draft_view`), and which kept rows fail the rule on drafts
//!   (`passes_draft`).
//! - `law_of_the_views`: what a draft shows is in the order of places, its keys are formed, and an
//!   accepted batch in it is the same batch over what it shows.
//! - `law_of_the_parts_shown`: the rows of its version that a draft shows are those that it edits, also
//!   after batches in it.
//! - `law_of_other_rows`: making, writing and dropping a draft leave all rows that aren't of it as
//!   they were, and what live and each other draft show, too, but for the rows that keep the draft. A
//!   merge leaves the rows of all other drafts.
//! - `law_of_merges`: the operations of an accepted batch stand behind those that the draft's log
//!   had. What a merge leaves in live is what the replay of the log leaves, one operation after the
//!   other; operations that a batch accepts are replayed to what it left; of the draft nothing stays;
//!   and a draft that was made and merged at once changes nothing.
//! - `law_of_replays`: a replay keeps live rows coherent and well formed, and leaves drafts, their
//!   commits and all else that operations may not write as they were.
//! - `law_of_the_worked_rows` has two days of a shop as the definitions compute them.
//! - `draft_key`, `commit_key` and `root_of` are the keys of the rows that keep a draft, and what its row
//!   says that it is made of. What is done with drafts over the rows of a shop is `shop_version`'s.
#![tactic(auto)]

mod aggregate;
mod keeping;
mod laws;

pub use aggregate::{
    COMMITS, COUNT, MEMBERS, MOST_OPS, Member, ROOT, ROOT_ENTITY, Root, has_versions, is_part,
    is_root,
};
pub use keeping::{commit_key, draft_key, root_of};
pub use laws::{
    law_of_merges, law_of_other_rows, law_of_replays, law_of_the_parts, law_of_the_parts_shown,
    law_of_the_views, law_of_the_worked_rows,
};
