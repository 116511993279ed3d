//! The fields of a head (RFC 9110, section 5), each by its place in the region.
ghost use Rattle.std.specs.Prelude.{◌≡◌, ◌==◌, ◌&&◌, All, length, map, min, nat_lt, if◌then◌else◌, reverse, IsTrue};
ghost use Rattle.std.specs.List.{list_all};
ghost use Rattle.std.specs.Char.{is_ascii_digit};
ghost use Rattle.std.specs.Str.{str_eq_ignore_ascii_case};
ghost use Rattle.std.specs.Str.Parse.{digits_value};
ghost use Rattle.httparse.specs.Grammar.{is_ows, skip_ows, trim_ows};
ghost use Rattle.httparse.specs.Spans.{header_bytes, IsHeaderWithin};
ghost use Rattle.shop_http.specs.Heads.{has_close, is_close, is_closing, is_number, length_of, size_of};
ghost use Rattle.shop_http.specs.Requests.{field_of};
ghost use Rattle.shop_http.specs.Words.{AreFields, HasOneMore, capped, once_more};

use crate::next::{Given, HeadFault};
use httparse::spans::HeaderSpan;

/// No body of a request is longer than that, in bytes.
const LONGEST_BODY: usize = 1_048_576;

/// The fields of a head that are looked at, by their values.
#[derive(Clone, Copy)]
pub struct Fields<'b> {
    /// The field `content-length`.
    pub length: Given<'b>,
    /// The field `transfer-encoding`.
    pub coding: Given<'b>,
    pub language: Given<'b>,
    pub version: Given<'b>,
    pub inheritance: Given<'b>,
    pub min_front: Given<'b>,
    /// Whether a field `connection` has the element `close`.
    pub closing: bool,
}

const NO_FIELDS: Fields<'static> = Fields {
    length: Given::Missing,
    coding: Given::Missing,
    language: Given::Missing,
    version: Given::Missing,
    inheritance: Given::Missing,
    min_front: Given::Missing,
    closing: false,
};

/// The fields that are looked at, in one pass over all of them.
pub fn look_up<'b>(region: &'b [u8], fields: &[HeaderSpan]) -> Fields<'b>
    requires { All (IsHeaderWithin (length region.now)) fields.now }
    ensures { AreFields result (map (header_bytes region.now) fields.now) }
{
    let mut found = NO_FIELDS;
    for field in fields {
        found = with_field(region, found, *field);
    }
    found
}

fn with_field<'b>(region: &'b [u8], so_far: Fields<'b>, field: HeaderSpan) -> Fields<'b>
    requires { IsHeaderWithin (length region.now) field }
    ensures { HasOneMore so_far.entry (header_bytes region.now field) result }
{
    let name = field.name.of(region);
    let value = field.value.of(region);
    Fields {
        length: with_value(so_far.length, name, "content-length", value),
        coding: with_value(so_far.coding, name, "transfer-encoding", value),
        language: with_value(so_far.language, name, "x-language-id", value),
        version: with_value(so_far.version, name, "x-version-id", value),
        inheritance: with_value(so_far.inheritance, name, "x-inheritance", value),
        min_front: with_value(so_far.min_front, name, "x-min-front", value),
        closing: so_far.closing || is_closing(name, value),
    }
}

/// What the fields of a name are given with one field more, in any case.
fn with_value<'b>(so_far: Given<'b>, name: &[u8], wanted: &str, value: &'b [u8]) -> Given<'b>
    ensures { field_of result ≡ (if str_eq_ignore_ascii_case name.now wanted.now
        then once_more (field_of so_far.entry) value.entry.now else field_of so_far.entry) }
{
    if is_named(name, wanted) {
        one_more(so_far, value)
    } else {
        so_far
    }
}

fn is_named(found: &[u8], name: &str) -> bool
    ensures { result ≡ str_eq_ignore_ascii_case found.now name.now }
{
    found.eq_ignore_ascii_case(name.as_bytes())
}

fn one_more<'b>(so_far: Given<'b>, value: &'b [u8]) -> Given<'b>
    ensures { field_of result ≡ once_more (field_of so_far.entry) value.entry.now }
{
    match so_far {
        Given::Missing => Given::Once(value),
        _ => Given::Twice,
    }
}

/// How many bytes of a body follow the head (RFC 9112, section 6.3), or why such a body isn't taken.
pub fn body_size(fields: &Fields<'_>) -> Result<usize, HeadFault>
    ensures { result ≡ size_of (length_of (field_of fields.now.length)) (field_of fields.now.coding) }
{
    let length = content_length(fields.length)?;
    match fields.coding {
        Given::Missing if length <= LONGEST_BODY => Ok(length),
        Given::Missing => Err(HeadFault::TooLarge),
        _ => Err(HeadFault::Chunked),
    }
}

/// The number that `Content-Length` says, or any that is too large for the one that is.
fn content_length(given: Given) -> Result<usize, HeadFault>
    ensures { result ≡ capped (length_of (field_of given.entry)) }
{
    match given {
        Given::Missing => Ok(0),
        Given::Once(text) if is_number(text) => Ok(capped_number(text)),
        _ => Err(HeadFault::BadHead),
    }
}

fn is_number(text: &[u8]) -> bool
    ensures { result ≡ is_number text.now }
{
    !text.is_empty() && text.iter().all(|byte| byte.is_ascii_digit())
}

/// The number that the digits spell, however many there are, where it isn't too large.
fn capped_number(digits: &[u8]) -> usize
    requires { IsTrue (list_all is_ascii_digit digits.now) }
    ensures { result ≡ min (digits_value 10 digits.now) 1048577 }
{
    let mut number = 0;
    for digit in digits {
        number = (number * 10 + (*digit - b'0') as usize).min(LONGEST_BODY + 1);
    }
    number
}

/// Whether a field is `Connection`, with an element `close` (RFC 9110, section 7.6.1).
fn is_closing(name: &[u8], value: &[u8]) -> bool
    ensures { result ≡ is_closing (name.now, value.now) }
{
    is_named(name, "connection") && has_close(value)
}

fn has_close(value: &[u8]) -> bool
    ensures { result ≡ has_close value.now }
{
    value
        .split(|byte| *byte == b',')
        .any(|element| is_close(element))
}

fn is_close(element: &[u8]) -> bool
    ensures { result ≡ is_close element.now }
{
    trim_ows(element).eq_ignore_ascii_case(b"close")
}

/// The text without the spaces and tabs at its ends.
#[tactic(auto, unfolding(httparse::specs::Grammar::trim_ows))]
fn trim_ows(text: &[u8]) -> &[u8]
    ensures { result.now ≡ trim_ows text.now }
{
    drop_ows(skip_ows(text))
}

/// The text without the spaces and tabs at its front.
fn skip_ows(text: &[u8]) -> &[u8]
    ensures { result.now ≡ skip_ows text.now }
{
    for (i, byte) in text.iter().enumerate() {
        if !is_ows(*byte) {
            return &text[i..];
        }
    }
    &[]
}

/// The text without the spaces and tabs at its back.
fn drop_ows(text: &[u8]) -> &[u8]
    ensures { result.now ≡ reverse (skip_ows (reverse text.now)) }
{
    let mut end = text.len();
    while end > 0 && is_ows(text[end - 1]) {
        end -= 1;
    }
    &text[..end]
}

fn is_ows(byte: u8) -> bool
    ensures { result ≡ is_ows byte }
{
    matches!(byte, b' ' | b'\t')
}
