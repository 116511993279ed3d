//! The region of a head: where it ends, and what it asks for.
ghost use Rattle.std.specs.Prelude.{◌≡◌, ◌≤◌, None, IfSome, length, ◌==◌, ◌||◌};
ghost use Rattle.httparse.specs.Grammar.{RequestHead};
ghost use Rattle.httparse.specs.Spans.{span_bytes, IsWithin};
ghost use Rattle.shop_http.specs.HeadReader.{head_of};
ghost use Rattle.shop_http.specs.Heads.{empty_line, head_end, judged};
ghost use Rattle.shop_http.specs.Laws.{IsHeadOf};
ghost use Rattle.shop_http.specs.Requests.{field_of};
ghost use Rattle.shop_http.specs.Words.{IsFound, IsJudged};

use crate::fields::{Fields, body_size, look_up};
use crate::next::{Head, HeadFault};
use httparse::Status;
use httparse::spans::{EMPTY_HEADER_SPAN, HeaderSpan, RequestSpans, parse_request};
use memchr::memchr;

/// No head of a request has more fields.
const MOST_FIELDS: usize = 64;

/// A head, and how many bytes of a body follow it.
#[derive(Clone, Copy)]
pub struct Begun<'b> {
    pub head: Head<'b>,
    pub size: usize,
}

/// How many bytes there are up to and with the first empty line behind a line end (RFC 9112, section 2.1).
pub fn head_end(bytes: &[u8]) -> Option<usize>
    ensures { result ≡ head_end bytes.now }
{
    let mut at = 0;
    while let Some(line) = memchr(b'\n', &bytes[at..]) {
        at += line + 1;
        let empty = empty_line(&bytes[at..]);
        if empty > 0 {
            return Some(at + empty);
        }
    }
    None
}

#[tactic(auto, unfolding(crate::specs::Heads::empty_line))]
fn empty_line(bytes: &[u8]) -> usize
    ensures value { result ≡ empty_line bytes.now }
    ensures within { result ≤ length bytes.now }
{
    if bytes.starts_with(b"\r\n") {
        2
    } else if bytes.starts_with(b"\n") {
        1
    } else {
        0
    }
}

/// What a region asks for, where it is a head as a whole.
pub fn read_region<'b>(region: &'b [u8]) -> Result<Begun<'b>, HeadFault>
    ensures { IsJudged (judged (head_of region.now)) result }
{
    let mut spans = [EMPTY_HEADER_SPAN; MOST_FIELDS];
    let Some(found) = find_head(region, &mut spans) else {
        return Err(HeadFault::BadHead);
    };
    let fields = look_up(region, &spans[..found.headers]);
    let size = body_size(&fields)?;
    Ok(Begun {
        head: make_head(region, found, &fields),
        size,
    })
}

fn find_head(region: &[u8], spans: &mut [HeaderSpan]) -> Option<RequestSpans>
    requires { length spans.old ≡ 64 }
    ensures some { IfSome result (λ found. IsFound region.now spans.new found) }
    ensures none { result ≡ None → (h : RequestHead) → ¬ (IsHeadOf region.now h) }
{
    match parse_request(region, spans) {
        Ok(Status::Complete(found)) if found.len == region.len() => Some(found),
        _ => None,
    }
}

fn make_head<'b>(region: &'b [u8], found: RequestSpans, fields: &Fields<'b>) -> Head<'b>
    requires method_within { IsWithin (length region.now) found.method }
    requires path_within { IsWithin (length region.now) found.path }
    ensures method { result.method.now ≡ span_bytes region.now found.method }
    ensures target { result.target.now ≡ span_bytes region.now found.path }
    // HTTP/1.0 keeps no connection open (RFC 9112, section 9.3).
    ensures closing { result.closing ≡ (found.version == 0 || fields.now.closing) }
    ensures language { field_of result.language ≡ field_of fields.now.language }
    ensures version { field_of result.version ≡ field_of fields.now.version }
    ensures inheritance { field_of result.inheritance ≡ field_of fields.now.inheritance }
    ensures min_front { field_of result.min_front ≡ field_of fields.now.min_front }
{
    Head {
        method: found.method.of(region),
        target: found.path.of(region),
        closing: found.version == 0 || fields.closing,
        language: fields.language,
        version: fields.version,
        inheritance: fields.inheritance,
        min_front: fields.min_front,
    }
}
