//! A request off the front of the bytes.
ghost use Rattle.std.specs.Prelude.{◌≡◌, ◌≤◌, ℕ, IsSome, Some, drop, length, take};
ghost use Rattle.shop_http.specs.Heads.{head_cut, head_end};
ghost use Rattle.shop_http.specs.Laws.{HeadsAreRead, TheCutIsLawful, TheEndIsTheLeast};
ghost use Rattle.shop_http.specs.Requests.{IsNext, IsSettledAt};
ghost use Rattle.shop_http.specs.Words.{front_from, IsUnfinished};

use crate::region::{Begun, head_end, read_region};

/// Why the bytes can't begin with a request, however they go on.
#[derive(Clone, Copy)]
pub enum HeadFault {
    /// What stands there is no head of a request.
    BadHead,
    /// The body is sent in chunks.
    Chunked,
    /// The body is longer than a body may be.
    TooLarge,
}

/// A header field: missing, there once, or there more often.
#[derive(Clone, Copy)]
pub enum Given<'b> {
    Missing,
    Once(&'b [u8]),
    Twice,
}

/// The head of a request (RFC 9112, section 3), lent from the bytes that it was cut off.
#[derive(Clone, Copy)]
pub struct Head<'b> {
    pub method: &'b [u8],
    pub target: &'b [u8],
    /// Whether the request asks to close the connection.
    pub closing: bool,
    /// The field `x-language-id`.
    pub language: Given<'b>,
    /// The field `x-version-id`.
    pub version: Given<'b>,
    /// The field `x-inheritance`.
    pub inheritance: Given<'b>,
    /// The field `x-min-front`.
    pub min_front: Given<'b>,
}

/// What stands at the front of the bytes.
#[derive(Clone, Copy)]
pub enum Next<'b, F = HeadFault, R = ()> {
    /// A whole request, which is `used` bytes long.
    Whole {
        head: Head<'b>,
        body: &'b [u8],
        used: usize,
        /// What else was found of it.
        found: R,
    },
    /// No whole request yet, and more bytes may come. There is nothing new to see before there are `least` bytes.
    More {
        least: usize,
    },
    /// Nothing, and no more bytes come.
    Nothing,
    /// A piece of a request, and no more bytes come.
    Cut,
    /// No request, whatever bytes may come.
    Fatal(F),
}

/// No head of a request is longer than that, in bytes.
const LONGEST_HEAD: usize = 16_384;

/// The request at the front of the bytes, where `ended` says that no more come. Takes no memory.
///
/// `More` says the length of the whole request where the head stands there, so that a head is read twice at most: as soon as it
/// stands there, and once all of the body does. Before that it asks for one byte more.
///
/// A request is a head (RFC 9112, sections 2 to 5) and the body that its `Content-Length` tells. `More`, `Nothing` and `Cut` come
/// where there are fewer bytes than the head and the body take. `Fatal` comes with
/// - `BadHead` where the head is longer than 16,384 bytes or has more than 64 fields, where it isn't a head of HTTP/1.0 or HTTP/1.1,
///   and where it has a second `Content-Length` or one that isn't a number;
/// - `Chunked` where it has a `Transfer-Encoding`;
/// - `TooLarge` where the body is longer than 1,048,576 bytes.
pub fn next_request<'b>(bytes: &'b [u8], ended: bool) -> Next<'b>
    ensures next { IsNext head_cut bytes.now ended result }
    ensures read_twice { (least : ℕ) → result ≡ Next.More least → IsSome (head_end bytes.now) → IsSettledAt head_cut bytes.now least }
{
    match head_end(front(bytes)) {
        Some(end) => with_head(bytes, end, ended),
        None if bytes.len() < LONGEST_HEAD => unfinished(bytes, bytes.len() + 1, ended),
        None => Next::Fatal(HeadFault::BadHead),
    }
}

/// As much of the bytes as a head may take.
fn front(bytes: &[u8]) -> &[u8]
    ensures { result.now ≡ take 16384 bytes.now }
{
    &bytes[..bytes.len().min(LONGEST_HEAD)]
}

fn with_head<'b>(bytes: &'b [u8], end: usize, ended: bool) -> Next<'b>
    requires ends { head_end bytes.now ≡ Some end }
    requires within { end ≤ length bytes.now }
    requires fits { end ≤ 16384 }
    ensures next { IsNext head_cut bytes.now ended result }
    ensures settles { (least : ℕ) → result ≡ Next.More least → IsSettledAt head_cut bytes.now least }
{
    match read_region(&bytes[..end]) {
        Ok(begun) => with_body(bytes, end, begun, ended),
        Err(fault) => Next::Fatal(fault),
    }
}

fn with_body<'b>(bytes: &'b [u8], end: usize, begun: Begun<'b>, ended: bool) -> Next<'b>
    requires within { end ≤ length bytes.now }
    requires fits { end ≤ 16384 }
    requires size { begun.size ≤ 1048576 }
    ensures next { IsNext (λ b. front_from begun.entry end (drop end b)) bytes.now ended result }
    ensures settles { (least : ℕ) → result ≡ Next.More least → IsSettledAt (λ b. front_from begun.entry end (drop end b)) bytes.now least }
{
    let behind = &bytes[end..];
    if begun.size > behind.len() {
        return unfinished(bytes, end + begun.size, ended);
    }
    Next::Whole {
        head: begun.head,
        body: &behind[..begun.size],
        used: end + begun.size,
        found: (),
    }
}

fn unfinished<'b>(bytes: &'b [u8], least: usize, ended: bool) -> Next<'b>
    ensures { IsUnfinished bytes.now least ended result }
{
    if !ended {
        Next::More { least }
    } else if bytes.is_empty() {
        Next::Nothing
    } else {
        Next::Cut
    }
}

/// A request takes bytes and only bytes that are there; more bytes change neither a whole request nor a refused front; and what is
/// not yet settled is shorter than the longest head and body.
pub fn law_of_the_cut()
    ensures { TheCutIsLawful }
{}

/// What is read as a head is one of the grammar (RFC 9112, sections 2 to 5), and each head of the grammar is read.
pub fn law_of_the_heads()
    ensures { HeadsAreRead }
{}

/// A head ends at the first empty line behind a line end: no lesser place is such an end.
pub fn law_of_the_end()
    ensures { TheEndIsTheLeast }
{}
