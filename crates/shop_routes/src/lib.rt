//! What a request's line and headers ask for: the nineteen paths of the interface, the parts of a
//! path, and the four headers that say how a request is answered.
//!
//! # What is promised
//!
//! - `Routes` are the nineteen paths of the interface, in a router of the crate `matchit`.
//! - `look` is what a request's line and headers ask for, or the first rule that they break, both
//!   ways: no route, another method, the first malformed part of the path, the first malformed
//!   header. It is said over the pieces of the target between its slashes, in words that know
//!   nothing of the router. It is lent from the request and takes no memory; `route` makes the route
//!   of it, and takes memory only for the name of an entity.
//! - What is looked up is well formed, and so is its route: no id that a path names is 0, nor is a
//!   draft's version or a language, and a page is counted from 1. `law_of_the_form` says it of the
//!   request, and that the second part of a row's key is there exactly where the path has it.
//! - `law_of_the_first_part`: the malformed part that is named is the first that stands in the
//!   target.
//! - `asks_later` says of what was looked up whether it breaks none of these rules and asks for what
//!   isn't answered yet.
#![tactic(auto)]

mod endpoint;
mod headers;
mod looked;
mod numerals;
mod parts;
mod router;
mod table;

pub use looked::{Asks, Looked};
pub use router::{Routes, law_of_the_first_part, law_of_the_form};
