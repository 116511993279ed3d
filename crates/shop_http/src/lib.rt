//! HTTP/1.1 on a stream of bytes: requests cut off its front, and responses.
//!
//! # What is promised
//!
//! - `next_request` says of any bytes which request stands at their front, or why none can (`IsNext
//!   head_cut`), both ways: any head of httparse's grammar with at most 64 fields in 16,384 bytes,
//!   a body by `Content-Length` up to 1,048,576 bytes, and the refusals of a bad head, a body in
//!   chunks and one too large, in that order. Of an unfinished one it says the least length at which
//!   there is something new to see, and so reads no head more than twice.
//! - `law_of_the_heads`: what is read as a head is a head of that grammar, both ways.
//!   `law_of_the_cut`: more bytes never change a settled front, and what isn't settled is short.
//!   `law_of_the_end`: a head ends at the first empty line behind a line end.
//! - `put_response` puts the bytes of a response (`response_text`), with the phrase of the crate
//!   `http`; `put_head` and `put` put them where there is room, and then can't fail. The responses
//!   that are always the same are made in one place, and are the same definition's bytes.
#![tactic(auto)]

mod fields;
mod fixed;
mod next;
mod region;
mod respond;

pub use fixed::{
    NO_MEMORY_BODY, STORE_FAILED_BODY, bad_head_response, body_too_large_response,
    chunked_response, no_memory_response, not_built_response,
};
pub use next::{
    Given, Head, HeadFault, Next, law_of_the_cut, law_of_the_end, law_of_the_heads, next_request,
};
pub use respond::{LONGEST_HEAD, Method2, put, put_head, put_response};
