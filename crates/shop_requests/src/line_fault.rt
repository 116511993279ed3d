//! What is wrong with a request before any rule of the shop is tried.
use shop_defs::Txt;

/// What is wrong with a request before any rule of the shop is tried.
#[derive(Drop)]
pub enum LineFault {
    /// It is one that this shop does not answer yet.
    NotBuilt,
    /// Its head is no head of HTTP/1.1 (RFC 9112, section 2.1), or is longer than a head may be.
    BadHead,
    /// Its body is sent in chunks (RFC 9112, section 7.1), which is not taken.
    Chunked,
    /// Its body is longer than a body may be.
    BodyTooLarge,
    /// No route has its path.
    NoRoute,
    /// The route that has its path takes another method.
    WrongMethod,
    /// A part of its path is malformed: the first such part is named.
    BadPath(Txt),
    /// A header is malformed, or is there twice: the first such header is named.
    BadHeader(Txt),
    /// Its body is no JSON text (RFC 8259).
    BadJson,
    /// Its body is JSON of another shape than the route takes: the pointer (RFC 6901, but for its
    /// escapes) to the first place that is wrong.
    BadShape(Txt),
}
