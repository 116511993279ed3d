//! What a request's line and headers ask for.
ghost use Rattle.std.specs.Prelude.{◌≡◌, List, ℕ, MatchOption, false, true};
ghost use Rattle.std.specs.List.{list_all};
ghost use Rattle.matchit.specs.Params.{AllText};
ghost use Rattle.shop_http.specs.Requests.{request_of};
ghost use Rattle.shop_http.specs.Responses.{method_text};
ghost use Rattle.shop_routes.specs.PathParts.{bad_part, numbers_in};
ghost use Rattle.shop_routes.specs.Routing.{allows_nil, judged_headers, judged_parts, meant, routed};
ghost use Rattle.shop_routes.specs.Seen.{parts_seen, seen};
ghost use Rattle.shop_routes.specs.Settings.{bad_header};
ghost use Rattle.shop_routes.specs.WellFormed.{IsLookedUpWell};
ghost use Rattle.shop_routes.specs.Filling.{table};
ghost use Rattle.shop_routes.specs.Laws.{TheFirstIsNamed, WhatIsAskedIsFormed};
ghost use Rattle.shop_routes.specs.Paths.{found, is_plain, is_plain_byte, line_of};

use crate::endpoint::{Asked, Endpoint};
use crate::headers::read_headers;
use crate::looked::{Asks, Looked};
use crate::parts::{Numbers, read_numbers, text_part};
use crate::table::full_router;
use matchit::{Match, Params, Router};
use shop_defs::NoMemory;
use shop_http::{Head, Method2};
use std::alloc::Global;
use std::str::from_utf8;

/// The paths of the interface, ready to be looked up.
#[derive(Drop)]
pub struct Routes {
    router: Router<Asked>,
    ghost full: { router ≡ table },
}

/// A line of the table, and the parts of the target that its names stand for.
#[derive(Drop)]
pub(crate) struct Found<'r, 'p> {
    pub(crate) asked: Asked,
    pub(crate) params: Params<'r, 'p>,
}

impl Routes {
    /// The paths of the interface. They are made once, and serve any number of requests. An error comes only where memory is wanting.
    pub fn new(alloc: Global) -> Result<Routes, NoMemory> {
        let router = full_router(alloc)?;
        Ok(Routes { router })
    }

    /// What a request asks for, or the first rule that it breaks. Its body isn't looked at. It takes no memory.
    ///
    /// The rules are, in this order:
    /// - `NoRoute`: no path of the table is its target. A target that holds `?`, `#` or `%`, that doesn't begin with `/`, or that
    ///   isn't UTF-8 has none, and a part that a name stands for isn't empty;
    /// - `WrongMethod`: the method, in upper case, is that of the path;
    /// - `BadPath`: `version`, `id` and `second` are ids, and `page` is 1 to 999,999,999 in digits without leading zeros. Under
    ///   `/list`, `id` and `second` may be 32 digits `0`. The first malformed part is named;
    /// - `BadHeader`: of the headers, in this order, none is there twice; `x-language-id` and `x-version-id` are ids,
    ///   `x-inheritance` is `0` or `1`, and `x-min-front` is 1 to 19 digits that spell at most 2^63 - 1. They are tried on every
    ///   path. Where one is missing it is 1, 0, `0` and 0.
    ///
    /// So no id that it names is 0, a page is counted from 1, and the second part of a row's key is there exactly where the path has it.
    pub fn look<'b>(&self, head: &Head<'b>) -> Looked<'b>
        ensures meant { (body : List ℕ) → meant result ≡ routed (request_of head.now body) }
        ensures formed { IsLookedUpWell head.now.target.now result }
    {
        self.look_up(head)
    }

    fn look_up<'b>(&self, head: &Head<'b>) -> Looked<'b>
        ensures { (body : List ℕ) → meant result ≡ routed (request_of head.now body) }
    {
        match self.find(head.target) {
            None => Looked::NoRoute,
            Some(found) if head.method != method_text(found.asked.method) => Looked::WrongMethod {
                allow: found.asked.method,
            },
            Some(found) => look_at(head, &found),
        }
    }

    /// The line of the table that a target has.
    pub(crate) fn find<'r, 'p>(&'r self, target: &'p [u8]) -> Option<Found<'r, 'p>>
        ensures { MatchOption result (found target.now ≡ None) (λ f.
            (found target.now ≡ Some (seen f)) × AllText (parts_seen f.params)) }
    {
        match plain_text(target) {
            Some(path) => self.find_path(path),
            None => None,
        }
    }

    /// The line of the table that a path has.
    fn find_path<'r, 'p>(&'r self, path: &'p str) -> Option<Found<'r, 'p>>
        ensures { MatchOption result (line_of path.now ≡ None) (λ f. (line_of path.now ≡ Some (seen f)) × AllText (parts_seen f.params)) }
    {
        match self.router.at(path) {
            Ok(Match { value, params }) => Some(Found {
                asked: *value,
                params,
            }),
            Err(_) => None,
        }
    }
}

/// The target as a text, where it has no query, fragment or escape.
fn plain_text(target: &[u8]) -> Option<&str>
    ensures { MatchOption result (is_plain target.now ≡ false) (λ text. (text.now ≡ target.now) × (is_plain target.now ≡ true)) }
{
    if !has_plain_bytes(target) {
        return None;
    }
    match from_utf8(target) {
        Ok(text) => Some(text),
        Err(_) => None,
    }
}

fn has_plain_bytes(target: &[u8]) -> bool
    ensures { result ≡ list_all is_plain_byte target.now }
{
    target
        .iter()
        .all(|byte| !matches!(byte, b'?' | b'#' | b'%'))
}

/// The method as it stands in a head.
pub(crate) fn method_text(method: Method2) -> &'static [u8]
    ensures { result.now ≡ method_text method }
{
    match method {
        Method2::Get => b"GET",
        Method2::Post => b"POST",
    }
}

/// Whether 32 digits `0` may stand for an id.
pub(crate) fn allows_nil(endpoint: Endpoint) -> bool
    ensures { result ≡ allows_nil endpoint }
{
    matches!(endpoint, Endpoint::RowList)
}

/// What a request asks for that has this line of the table and its method.
fn look_at<'b>(head: &Head<'b>, found: &Found<'_, 'b>) -> Looked<'b>
    requires { AllText (parts_seen found.now.params) }
    ensures { (body : List ℕ) → meant result ≡ judged_parts (seen found.now) (request_of head.now body)
        (bad_part (allows_nil found.now.asked.endpoint) (parts_seen found.now.params)) }
{
    match read_numbers(&found.params, allows_nil(found.asked.endpoint)) {
        Ok(numbers) => look_with(head, found, &numbers),
        Err(part) => Looked::BadPath { part },
    }
}

/// What a request asks for whose path has these numbers.
fn look_with<'b>(head: &Head<'b>, found: &Found<'_, 'b>, numbers: &Numbers) -> Looked<'b>
    requires text { AllText (parts_seen found.now.params) }
    requires read { numbers.now ≡ numbers_in (allows_nil found.now.asked.endpoint) (parts_seen found.now.params) }
    ensures { (body : List ℕ) → meant result ≡ judged_headers (seen found.now) (request_of head.now body)
        (bad_header (request_of head.now body)) }
{
    match read_headers(head) {
        Ok(headers) => Looked::Asks(Asks {
            endpoint: found.asked.endpoint,
            entity: text_part(&found.params, "entity"),
            numbers: *numbers,
            headers,
        }),
        Err(name) => Looked::BadHeader { name },
    }
}

/// The malformed part that is named is the first that stands in the target.
pub fn law_of_the_first_part()
    ensures { TheFirstIsNamed }
{}

/// What a request asks for that breaks no rule is well formed, and the second part of a row's key is there exactly where the path
/// has it.
pub fn law_of_the_form()
    ensures { WhatIsAskedIsFormed }
{}
