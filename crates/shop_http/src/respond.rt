//! Responses, as bytes.
ghost use Rattle.std.specs.Prelude.{◌≡◌, ◌↔◌, ◌++◌, ◌+◌, ◌≤◌, IsSome, OnErr, OnOk, length};
ghost use Rattle.std.specs.Vec.{vec_capacity, vec_len};
ghost use Rattle.shop_http.specs.Responses.{allow_line, close_line, content_lines, head_text, IsNamed, phrase_of, response_text, start_line};

use http::StatusCode;
use itoa::Buffer;
use shop_defs::NoMemory;

/// A method that a target can be asked with.
#[derive(Clone, Copy)]
pub enum Method2 {
    Get,
    Post,
}

/// No head of a response is longer than that, in bytes.
pub const LONGEST_HEAD: usize = 160;

/// Puts a whole response (RFC 9112, section 2.1) with a body of JSON behind what is there.
///
/// The status is one of 200, 400, 404, 405, 409, 413, 501, 503 and 507. `allow` is the method that the target can be asked with, and is
/// given exactly where the status is 405. `closing` says that the connection is closed after the response. An error comes only
/// where memory is wanting, and leaves what is there.
#[tactic(auto, unfolding(crate::specs::Responses::response_text))]
pub fn put_response(
    out: &mut Vec<u8>,
    status: u16,
    body: &[u8],
    allow: Option<Method2>,
    closing: bool,
) -> Result<(), NoMemory>
    requires named { IsNamed status }
    requires allowed { IsSome allow ↔ (status ≡ 405) }
    ensures ok { OnOk result (out.new.items ≡ out.old.items ++ response_text status body.now allow closing) }
    ensures err { OnErr result (out.new.items ≡ out.old.items) }
{
    out.reserve(LONGEST_HEAD + body.len())?;
    put_head(out, status, body.len(), allow, closing);
    put(out, body);
    Ok(())
}

/// Puts the head of a response to a body of so many bytes, where there is room for the longest one. It takes no memory.
pub fn put_head(out: &mut Vec<u8>, status: u16, size: usize, allow: Option<Method2>, closing: bool)
    requires named { IsNamed status }
    requires allowed { IsSome allow ↔ (status ≡ 405) }
    requires room { vec_len out.old + LONGEST_HEAD ≤ vec_capacity out.old }
    ensures items { out.new.items ≡ out.old.items ++ head_text status size allow closing }
    ensures len { vec_len out.new ≤ vec_len out.old + LONGEST_HEAD }
    ensures room { vec_capacity out.old ≤ vec_capacity out.new }
{
    put_start(out, status);
    put_content_fields(out, size);
    put(out, allow_line(allow));
    put(out, close_line(closing));
    put(out, b"\r\n");
}

/// Puts bytes for which there is room. It takes no memory.
pub fn put(out: &mut Vec<u8>, bytes: &[u8])
    requires room { vec_len out.old + length bytes.now ≤ vec_capacity out.old }
    ensures items { out.new.items ≡ out.old.items ++ bytes.now }
    ensures len { vec_len out.new ≡ vec_len out.old + length bytes.now }
    ensures room { vec_capacity out.old ≤ vec_capacity out.new }
{
    match out.extend_from_slice(bytes) {
        Ok(()) => {}
        Err(_) => unreachable!(),
    }
}

#[tactic(auto, unfolding(crate::specs::Responses::start_line))]
fn put_start(out: &mut Vec<u8>, status: u16)
    requires named { IsNamed status }
    requires room { vec_len out.old + 40 ≤ vec_capacity out.old }
    ensures items { out.new.items ≡ out.old.items ++ start_line status }
    ensures len { vec_len out.new ≤ vec_len out.old + 40 }
    ensures room { vec_capacity out.old ≤ vec_capacity out.new }
{
    let mut digits = Buffer::new();
    put(out, b"HTTP/1.1 ");
    put(out, digits.format(status).as_bytes());
    put(out, b" ");
    put(out, phrase(status).as_bytes());
    put(out, b"\r\n");
}

#[tactic(auto, unfolding(crate::specs::Responses::content_lines))]
fn put_content_fields(out: &mut Vec<u8>, size: usize)
    requires room { vec_len out.old + 72 ≤ vec_capacity out.old }
    ensures items { out.new.items ≡ out.old.items ++ content_lines size }
    ensures len { vec_len out.new ≤ vec_len out.old + 72 }
    ensures room { vec_capacity out.old ≤ vec_capacity out.new }
{
    let mut digits = Buffer::new();
    put(out, b"content-type: application/json\r\ncontent-length: ");
    put(out, digits.format(size).as_bytes());
    put(out, b"\r\n");
}

/// The reason phrase of a status (RFC 9110, section 15).
fn phrase(status: u16) -> &'static str
    requires { IsNamed status }
    ensures value { result.now ≡ phrase_of status }
    ensures short { length result.now ≤ 20 }
{
    match StatusCode::from_u16(status) {
        Ok(code) => code.canonical_reason().unwrap_or(""),
        Err(_) => "",
    }
}

fn allow_line(allow: Option<Method2>) -> &'static [u8]
    ensures value { result.now ≡ allow_line allow }
    ensures short { length result.now ≤ 20 }
{
    match allow {
        None => b"",
        Some(Method2::Get) => b"allow: GET\r\n",
        Some(Method2::Post) => b"allow: POST\r\n",
    }
}

fn close_line(closing: bool) -> &'static [u8]
    ensures value { result.now ≡ close_line closing }
    ensures short { length result.now ≤ 20 }
{
    if closing {
        b"connection: close\r\n"
    } else {
        b""
    }
}
