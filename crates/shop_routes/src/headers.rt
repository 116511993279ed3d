//! The four header fields that say how a request is answered.
ghost use Rattle.std.specs.Prelude.{◌≡◌, ℕ, List, IfOk, IfErr, false};
ghost use Rattle.shop_requests.specs.Ids.{id_of};
ghost use Rattle.shop_http.specs.Requests.{field_of, request_of};
ghost use Rattle.shop_routes.specs.DigitTexts.{front_of};
ghost use Rattle.shop_routes.specs.Settings.{bad_header, flag_of, headers_of, said};

use crate::numerals::read_front;
use shop_http::{Given, Head};
use shop_requests::read_id;

/// What the headers say.
#[derive(Clone, Copy)]
pub struct Headers {
    /// The language that texts are shown in first.
    pub language: u128,
    /// The version that is looked at or changed: 0 is the live one.
    pub version: u128,
    /// Whether an empty field shows what the row's parent has.
    pub inherit: bool,
    /// How many accepted changes an answer has to have seen at least.
    pub min_front: u64,
}

/// The language where no header names one.
const FIRST_LANGUAGE: u128 = 1;

/// What the headers say, or the name of the first that is malformed or there twice.
#[tactic(auto, unfolding(crate::specs::Settings::bad_header, crate::specs::Settings::headers_of))]
pub fn read_headers(head: &Head<'_>) -> Result<Headers, &'static str>
    ensures ok { IfOk result (λ headers. (body : List ℕ) → (bad_header (request_of head.now body) ≡ None)
        × (headers ≡ headers_of (request_of head.now body))) }
    ensures bad { IfErr result (λ name. (body : List ℕ) → bad_header (request_of head.now body) ≡ Some name.now) }
{
    Ok(Headers {
        language: read_id_field(head.language, FIRST_LANGUAGE).ok_or("x-language-id")?,
        version: read_id_field(head.version, 0).ok_or("x-version-id")?,
        inherit: read_flag(head.inheritance).ok_or("x-inheritance")?,
        min_front: read_front_field(head.min_front).ok_or("x-min-front")?,
    })
}

/// The id that a field gives, `preset` where it is missing.
fn read_id_field(given: Given<'_>, preset: u128) -> Option<u128>
    ensures { result ≡ said preset id_of (field_of given.entry) }
{
    match given {
        Given::Missing => Some(preset),
        Given::Once(text) => read_id(text),
        Given::Twice => None,
    }
}

/// Whether a field says `1` and not `0`, which it says where it is missing.
fn read_flag(given: Given<'_>) -> Option<bool>
    ensures { result ≡ said false flag_of (field_of given.entry) }
{
    match given {
        Given::Missing => Some(false),
        Given::Once(text) => flag_in(text),
        Given::Twice => None,
    }
}

fn flag_in(text: &[u8]) -> Option<bool>
    ensures { result ≡ flag_of text.now }
{
    if text == b"0".as_slice() {
        Some(false)
    } else if text == b"1".as_slice() {
        Some(true)
    } else {
        None
    }
}

/// The front that a field gives, 0 where it is missing.
fn read_front_field(given: Given<'_>) -> Option<u64>
    ensures { result ≡ said 0 front_of (field_of given.entry) }
{
    match given {
        Given::Missing => Some(0),
        Given::Once(text) => read_front(text),
        Given::Twice => None,
    }
}
