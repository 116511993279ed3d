//! The table of the interface: which paths there are, as a router finds them.
ghost use Rattle.std.specs.Prelude.{◌≡◌, [], IfOk, OnOk, map, true};
ghost use Rattle.matchit.specs.Route.{parse_route};
ghost use Rattle.shop_routes.specs.Filling.{router_of, is_free, scan_is_free, table, with_line};

use crate::endpoint::{Asked, Endpoint};
use matchit::{InsertError, Router};
use shop_defs::NoMemory;
use shop_http::Method2;
use shop_requests::Action;
use std::alloc::Global;

/// The method, the path, and what is asked for.
static LINES: [(Method2, &str, Endpoint); 19] = [
    (Method2::Post, "/sync", Endpoint::Sync),
    (Method2::Post, "/draft/{version}", Endpoint::Draft),
    (Method2::Post, "/draft/{version}/merge", Endpoint::Merge),
    (Method2::Post, "/draft/{version}/drop", Endpoint::DropDraft),
    (Method2::Post, "/stock/{id}", Endpoint::Stock),
    (Method2::Post, "/cart/{id}/order", Endpoint::PlaceCart),
    (
        Method2::Post,
        "/order/{id}/process",
        Endpoint::Transit(Action::Process),
    ),
    (
        Method2::Post,
        "/order/{id}/complete",
        Endpoint::Transit(Action::Complete),
    ),
    (
        Method2::Post,
        "/order/{id}/cancel",
        Endpoint::Transit(Action::Cancel),
    ),
    (
        Method2::Post,
        "/order/{id}/reopen",
        Endpoint::Transit(Action::Reopen),
    ),
    (Method2::Get, "/row/{entity}/{id}", Endpoint::Row),
    (Method2::Get, "/row/{entity}/{id}/{second}", Endpoint::Row),
    (
        Method2::Get,
        "/list/{entity}/{id}/{second}",
        Endpoint::RowList,
    ),
    (Method2::Get, "/category/{id}/tree", Endpoint::CategoryTree),
    (
        Method2::Get,
        "/category/{id}/listing/{page}",
        Endpoint::Listing,
    ),
    (
        Method2::Get,
        "/stream/{id}/members",
        Endpoint::StreamMembers,
    ),
    (Method2::Get, "/product/{id}/price", Endpoint::ListingPrice),
    (Method2::Get, "/cart/{id}", Endpoint::Cart),
    (Method2::Get, "/front", Endpoint::Front),
];

/// One line more in a router, whose lines it doesn't clash with.
fn put_line(router: &mut Router<Asked>, line: &(Method2, &str, Endpoint)) -> Result<(), NoMemory>
    requires { scan_is_free (parse_route line.now.1.now) router.old ≡ true }
    ensures { OnOk result (router.new ≡ with_line router.old (line.now.0, line.now.1.now, line.now.2)) }
{
    let (method, path, endpoint) = *line;
    match router.insert(path, Asked { method, endpoint }) {
        Ok(()) => Ok(()),
        Err(InsertError::OutOfMemory) => Err(NoMemory),
        Err(_) => unreachable!(),
    }
}

/// A router of these lines, of which no two clash.
fn filled(alloc: Global, lines: &[(Method2, &str, Endpoint)]) -> Result<Router<Asked>, NoMemory>
    requires { is_free [] (map (λ l. (l.0, l.1.now, l.2)) lines.now) ≡ true }
    ensures { IfOk result (λ router. router ≡ router_of [] (map (λ l. (l.0, l.1.now, l.2)) lines.now)) }
{
    let mut router = Router::new(alloc);
    let mut rest = lines;
    while let [line, more @ ..] = rest {
        put_line(&mut router, line)?;
        rest = more;
    }
    Ok(router)
}

/// A router of the whole table. Want of memory is the only error.
#[tactic(auto, unfolding(crate::specs::Filling::table))]
pub fn full_router(alloc: Global) -> Result<Router<Asked>, NoMemory>
    ensures { IfOk result (λ router. router ≡ table) }
{
    filled(alloc, &LINES)
}
