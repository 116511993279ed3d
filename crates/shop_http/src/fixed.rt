//! The responses that are always the same. They are made here and nowhere else, and take no memory.
ghost use Rattle.std.specs.Prelude.{◌≡◌};
ghost use Rattle.shop_http.specs.Responses as spec;

/// The body of the response 507 where memory ran out.
pub const NO_MEMORY_BODY: &[u8] = b"{\"error\":\"no_memory\"}";

/// The body of the response 503 where the keeper failed.
pub const STORE_FAILED_BODY: &[u8] = b"{\"error\":\"store_failed\"}";

const NO_MEMORY: &[u8] =
    b"HTTP/1.1 507 Insufficient Storage\r\ncontent-type: application/json\r\ncontent-length: 21\r\n\r\n{\"error\":\"no_memory\"}";

const NO_MEMORY_CLOSING: &[u8] =
    b"HTTP/1.1 507 Insufficient Storage\r\ncontent-type: application/json\r\ncontent-length: 21\r\nconnection: close\r\n\r\n{\"error\":\"no_memory\"}";

const NOT_BUILT: &[u8] =
    b"HTTP/1.1 501 Not Implemented\r\ncontent-type: application/json\r\ncontent-length: 21\r\nconnection: close\r\n\r\n{\"error\":\"not_built\"}";

const BAD_HEAD: &[u8] =
    b"HTTP/1.1 400 Bad Request\r\ncontent-type: application/json\r\ncontent-length: 20\r\nconnection: close\r\n\r\n{\"error\":\"bad_head\"}";

const CHUNKED: &[u8] =
    b"HTTP/1.1 501 Not Implemented\r\ncontent-type: application/json\r\ncontent-length: 19\r\nconnection: close\r\n\r\n{\"error\":\"chunked\"}";

const BODY_TOO_LARGE: &[u8] =
    b"HTTP/1.1 413 Payload Too Large\r\ncontent-type: application/json\r\ncontent-length: 26\r\nconnection: close\r\n\r\n{\"error\":\"body_too_large\"}";

/// The response 507 where memory ran out.
pub fn no_memory_response(closing: bool) -> &'static [u8]
    ensures { result.now ≡ spec.no_memory_text closing }
{
    if closing {
        NO_MEMORY_CLOSING
    } else {
        NO_MEMORY
    }
}

/// The response 501 to a request whose answer isn't there yet. The connection is closed after it.
pub fn not_built_response() -> &'static [u8]
    ensures { result.now ≡ spec.not_built_text }
{
    NOT_BUILT
}

/// The response 400 to what is no head of a request. The connection is closed after it.
pub fn bad_head_response() -> &'static [u8]
    ensures { result.now ≡ spec.bad_head_text }
{
    BAD_HEAD
}

/// The response 501 to a request whose body is sent in chunks. The connection is closed after it.
pub fn chunked_response() -> &'static [u8]
    ensures { result.now ≡ spec.chunked_text }
{
    CHUNKED
}

/// The response 413 to a request whose body is longer than one may be. The connection is closed after it.
pub fn body_too_large_response() -> &'static [u8]
    ensures { result.now ≡ spec.body_too_large_text }
{
    BODY_TOO_LARGE
}
