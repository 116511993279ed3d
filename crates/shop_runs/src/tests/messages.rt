//! Requests and their responses, byte by byte.

// Writes: category 10 or 11; two of which one has a place; two of which the second has none that there may be; one that goes.
pub(crate) const WRITE: &[u8] =
    b"POST /sync HTTP/1.1\r\nContent-Length: 89\r\n\r\n[{\"op\":\"upsert\",\"entity\":\"category\",\"id\":\"00000000000000000000000000000010\",\"fields\":{}}]";

pub(crate) const WRITE_OTHER: &[u8] =
    b"POST /sync HTTP/1.1\r\nContent-Length: 89\r\n\r\n[{\"op\":\"upsert\",\"entity\":\"category\",\"id\":\"00000000000000000000000000000011\",\"fields\":{}}]";

pub(crate) const WRITE_TWO: &[u8] =
    b"POST /sync HTTP/1.1\r\nContent-Length: 189\r\n\r\n[{\"op\":\"upsert\",\"entity\":\"category\",\"id\":\"00000000000000000000000000000012\",\"fields\":{\"position\":4}},{\"op\":\"upsert\",\"entity\":\"category\",\"id\":\"00000000000000000000000000000013\",\"fields\":{}}]";

pub(crate) const WRITE_BAD: &[u8] =
    b"POST /sync HTTP/1.1\r\nContent-Length: 190\r\n\r\n[{\"op\":\"upsert\",\"entity\":\"category\",\"id\":\"00000000000000000000000000000014\",\"fields\":{}},{\"op\":\"upsert\",\"entity\":\"category\",\"id\":\"00000000000000000000000000000015\",\"fields\":{\"position\":-1}}]";

pub(crate) const DELETE: &[u8] =
    b"POST /sync HTTP/1.1\r\nContent-Length: 77\r\n\r\n[{\"op\":\"delete\",\"entity\":\"category\",\"id\":\"00000000000000000000000000000011\"}]";

// Reads, one of them cut before its last byte.
pub(crate) const READ: &[u8] =
    b"GET /row/category/00000000000000000000000000000010 HTTP/1.1\r\n\r\n";

pub(crate) const READ_OTHER: &[u8] =
    b"GET /row/category/00000000000000000000000000000011 HTTP/1.1\r\n\r\n";

pub(crate) const READ_CUT: &[u8] =
    b"GET /row/category/00000000000000000000000000000010 HTTP/1.1\r\n\r";

// What isn't answered yet.
pub(crate) const LATER: &[u8] =
    b"POST /order/00000000000000000000000000000050/process HTTP/1.1\r\n\r\n";

// A write and a read as `curl` sends them.
pub(crate) const CURL_WRITE: &[u8] =
    b"POST /sync HTTP/1.1\r\nHost: 127.0.0.1:8080\r\nUser-Agent: curl/8.5.0\r\nAccept: */*\r\ncontent-length:89\r\nContent-Type: application/json\r\n\r\n[{\"op\":\"upsert\",\"entity\":\"category\",\"id\":\"00000000000000000000000000000010\",\"fields\":{}}]";

pub(crate) const CURL_READ: &[u8] =
    b"GET /row/category/00000000000000000000000000000010 HTTP/1.1\r\nHost: 127.0.0.1:8080\r\nUser-Agent: curl/8.5.0\r\nAccept: */*\r\n\r\n";

// A read behind an empty line, with lines that end with LF alone and a body, which is ignored.
pub(crate) const ODD_READ: &[u8] =
    b"\r\nGET /row/category/00000000000000000000000000000010 HTTP/1.1\nContent-Length: 3\n\nabc";

// Reads that ask to close.
pub(crate) const CLOSING_READ: &[u8] =
    b"GET /row/category/00000000000000000000000000000010 HTTP/1.1\r\nConnection: keep-alive, Close\r\n\r\n";

pub(crate) const OLD_READ: &[u8] =
    b"GET /row/category/00000000000000000000000000000010 HTTP/1.0\r\n\r\n";

// A path of a digit too many, and heads that are refused whatever follows.
pub(crate) const LONG_PATH: &[u8] =
    b"GET /row/category/000000000000000000000000000000100 HTTP/1.1\r\n\r\n";

pub(crate) const CHUNKED: &[u8] = b"POST /sync HTTP/1.1\r\nTransfer-Encoding: chunked\r\n\r\n";

pub(crate) const TOO_LARGE: &[u8] = b"POST /sync HTTP/1.1\r\nContent-Length: 1048577\r\n\r\n";

pub(crate) const NO_HEAD: &[u8] = b"hello\r\n\r\n";

// Responses to writes that are done.
pub(crate) const DONE_1: &[u8] =
    b"HTTP/1.1 200 OK\r\ncontent-type: application/json\r\ncontent-length: 21\r\n\r\n{\"front\":1,\"value\":1}";

pub(crate) const DONE_2: &[u8] =
    b"HTTP/1.1 200 OK\r\ncontent-type: application/json\r\ncontent-length: 21\r\n\r\n{\"front\":2,\"value\":1}";

pub(crate) const DONE_3: &[u8] =
    b"HTTP/1.1 200 OK\r\ncontent-type: application/json\r\ncontent-length: 21\r\n\r\n{\"front\":3,\"value\":1}";

pub(crate) const DONE_8: &[u8] =
    b"HTTP/1.1 200 OK\r\ncontent-type: application/json\r\ncontent-length: 21\r\n\r\n{\"front\":8,\"value\":1}";

pub(crate) const TWO_DONE_1: &[u8] =
    b"HTTP/1.1 200 OK\r\ncontent-type: application/json\r\ncontent-length: 21\r\n\r\n{\"front\":1,\"value\":2}";

pub(crate) const TWO_DONE_2: &[u8] =
    b"HTTP/1.1 200 OK\r\ncontent-type: application/json\r\ncontent-length: 21\r\n\r\n{\"front\":2,\"value\":2}";

pub(crate) const TWO_DONE_9: &[u8] =
    b"HTTP/1.1 200 OK\r\ncontent-type: application/json\r\ncontent-length: 21\r\n\r\n{\"front\":9,\"value\":2}";

pub(crate) const TWO_DONE_LAST: &[u8] =
    b"HTTP/1.1 200 OK\r\ncontent-type: application/json\r\ncontent-length: 39\r\n\r\n{\"front\":4611686018427387904,\"value\":2}";

// Responses to reads of rows that are there, and that aren't.
pub(crate) const SHOWN: &[u8] =
    b"HTTP/1.1 200 OK\r\ncontent-type: application/json\r\ncontent-length: 130\r\n\r\n{\"fields\":{\"active\":true,\"position\":0},\"key\":\"category/00000000000000000000000000000010\",\"shown\":{\"description\":null,\"name\":null}}";

pub(crate) const SHOWN_OTHER: &[u8] =
    b"HTTP/1.1 200 OK\r\ncontent-type: application/json\r\ncontent-length: 130\r\n\r\n{\"fields\":{\"active\":true,\"position\":0},\"key\":\"category/00000000000000000000000000000011\",\"shown\":{\"description\":null,\"name\":null}}";

pub(crate) const SHOWN_LAST: &[u8] =
    b"HTTP/1.1 200 OK\r\ncontent-type: application/json\r\ncontent-length: 130\r\nconnection: close\r\n\r\n{\"fields\":{\"active\":true,\"position\":0},\"key\":\"category/00000000000000000000000000000010\",\"shown\":{\"description\":null,\"name\":null}}";

pub(crate) const MISSING: &[u8] =
    b"HTTP/1.1 404 Not Found\r\ncontent-type: application/json\r\ncontent-length: 73\r\n\r\n{\"error\":\"no_such_row\",\"key\":\"category/00000000000000000000000000000010\"}";

pub(crate) const MISSING_OTHER: &[u8] =
    b"HTTP/1.1 404 Not Found\r\ncontent-type: application/json\r\ncontent-length: 73\r\n\r\n{\"error\":\"no_such_row\",\"key\":\"category/00000000000000000000000000000011\"}";

// Refusals.
pub(crate) const STORE_FAILED: &[u8] =
    b"HTTP/1.1 503 Service Unavailable\r\ncontent-type: application/json\r\ncontent-length: 24\r\n\r\n{\"error\":\"store_failed\"}";

pub(crate) const HISTORY_FULL: &[u8] =
    b"HTTP/1.1 409 Conflict\r\ncontent-type: application/json\r\ncontent-length: 24\r\n\r\n{\"error\":\"history_full\"}";

pub(crate) const OUT_OF_RANGE: &[u8] =
    b"HTTP/1.1 400 Bad Request\r\ncontent-type: application/json\r\ncontent-length: 63\r\n\r\n{\"error\":\"out_of_range\",\"field\":\"position\",\"op\":2,\"value\":\"-1\"}";

pub(crate) const NONE_TO_DELETE: &[u8] =
    b"HTTP/1.1 404 Not Found\r\ncontent-type: application/json\r\ncontent-length: 80\r\n\r\n{\"error\":\"no_such_row\",\"key\":\"category/00000000000000000000000000000011\",\"op\":1}";

pub(crate) const BAD_PATH: &[u8] =
    b"HTTP/1.1 400 Bad Request\r\ncontent-type: application/json\r\ncontent-length: 32\r\n\r\n{\"error\":\"bad_path\",\"part\":\"id\"}";

// Refusals behind which the connection is closed.
pub(crate) const NOT_BUILT: &[u8] =
    b"HTTP/1.1 501 Not Implemented\r\ncontent-type: application/json\r\ncontent-length: 21\r\nconnection: close\r\n\r\n{\"error\":\"not_built\"}";

pub(crate) const IS_CHUNKED: &[u8] =
    b"HTTP/1.1 501 Not Implemented\r\ncontent-type: application/json\r\ncontent-length: 19\r\nconnection: close\r\n\r\n{\"error\":\"chunked\"}";

pub(crate) const IS_TOO_LARGE: &[u8] =
    b"HTTP/1.1 413 Payload Too Large\r\ncontent-type: application/json\r\ncontent-length: 26\r\nconnection: close\r\n\r\n{\"error\":\"body_too_large\"}";

pub(crate) const IS_NO_HEAD: &[u8] =
    b"HTTP/1.1 400 Bad Request\r\ncontent-type: application/json\r\ncontent-length: 20\r\nconnection: close\r\n\r\n{\"error\":\"bad_head\"}";
