//! What was looked up of a request.
ghost use Rattle.std.specs.Prelude.{◌≡◌, ◌⊎◌, ℕ, List, IfOk, OnErr};
ghost use Rattle.shop_requests.specs.declared.query.Query.{Query};
ghost use Rattle.shop_requests.specs.declared.route.Route.{Route};
ghost use Rattle.shop_routes.specs.Later.{asks_later, is_later};
ghost use Rattle.shop_routes.specs.Routing.{meant, route_of, route_to, row_read};
ghost use Rattle.shop_routes.specs.WellFormed.{IsWellFormed};
ghost use Rattle.shop_routes.specs.declared.parts.Numbers.{Numbers};

use crate::endpoint::Endpoint;
use crate::headers::Headers;
use crate::parts::Numbers;
use shop_defs::{NoMemory, Txt};
use shop_http::Method2;
use shop_requests::{Query, Route, RowRead};
use std::alloc::Global;

/// What a request's line and headers ask for, lent from them.
#[derive(Clone, Copy)]
pub enum Looked<'b> {
    /// They ask for this.
    Asks(Asks<'b>),
    /// No route has its path.
    NoRoute,
    /// The route that has its path is asked with another method.
    WrongMethod {
        /// The method of the route.
        allow: Method2,
    },
    /// A part of its path is malformed.
    BadPath {
        /// The name of the first such part: `version`, `id`, `second` or `page`.
        part: &'static str,
    },
    /// A header is malformed, or is there twice.
    BadHeader {
        /// The name of the first such header, in lower case.
        name: &'static str,
    },
}

/// What a request asks for whose path and headers are well-formed.
#[derive(Clone, Copy)]
pub struct Asks<'b> {
    pub(crate) endpoint: Endpoint,
    /// The name of an entity, empty where the path has none.
    pub(crate) entity: &'b str,
    pub(crate) numbers: Numbers,
    pub(crate) headers: Headers,
}

impl<'b> Looked<'b> {
    /// Whether it is something that isn't answered yet: anything but a batch for the live version, a
    /// row, a list of rows, a question about all rows, a cart, or how many entries there are.
    pub fn asks_later(&self) -> bool
        ensures { result ≡ asks_later (meant self.now) }
    {
        match self {
            Looked::Asks(asks) => is_later(asks.endpoint, &asks.headers),
            _ => false,
        }
    }
}

/// Whether what a path asks for isn't answered yet, where the headers say that.
fn is_later(endpoint: Endpoint, headers: &Headers) -> bool
    ensures { (entity : List ℕ) (numbers : Numbers) → result ≡ is_later (route_to endpoint entity numbers headers.now) }
{
    match endpoint {
        Endpoint::Sync => headers.version != 0,
        Endpoint::Row
        | Endpoint::RowList
        | Endpoint::CategoryTree
        | Endpoint::Listing
        | Endpoint::StreamMembers
        | Endpoint::ListingPrice
        | Endpoint::Cart
        | Endpoint::Front => false,
        _ => true,
    }
}

impl<'b> Asks<'b> {
    /// The route, with a copy of the name of an entity, where it has one. An error comes only where memory is wanting for that.
    pub fn route(&self, alloc: Global) -> Result<Route, NoMemory>
        ensures route { IfOk result (λ route. route ≡ route_of self.now) }
        // What is well formed, as `look` says, gives a route that is.
        ensures formed { IsWellFormed (route_of self.now) → IfOk result IsWellFormed }
        // Memory is wanted only for the name of an entity.
        ensures wanted { OnErr result ((self.now.endpoint ≡ Endpoint.Row) ⊎ (self.now.endpoint ≡ Endpoint.RowList)) }
    {
        let Numbers { version, id, .. } = self.numbers;
        let min_front = self.headers.min_front;
        match self.endpoint {
            Endpoint::Sync => Ok(Route::Sync {
                version: self.headers.version,
            }),
            Endpoint::Draft => Ok(Route::Draft { version }),
            Endpoint::Merge => Ok(Route::Merge { version }),
            Endpoint::DropDraft => Ok(Route::Drop { version }),
            Endpoint::Stock => Ok(Route::Stock { product: id }),
            Endpoint::PlaceCart => Ok(Route::PlaceCart { cart: id }),
            Endpoint::Transit(action) => Ok(Route::Transit { order: id, action }),
            Endpoint::Row => row_route(alloc, self),
            Endpoint::RowList => list_route(alloc, self),
            Endpoint::CategoryTree => Ok(ask(Query::CategoryTree { category: id }, min_front)),
            Endpoint::Listing => Ok(ask(listing(&self.numbers), min_front)),
            Endpoint::StreamMembers => Ok(ask(Query::StreamMembers { stream: id }, min_front)),
            Endpoint::ListingPrice => Ok(ask(Query::ListingPrice { product: id }, min_front)),
            Endpoint::Cart => Ok(Route::Cart { cart: id }),
            Endpoint::Front => Ok(Route::Front),
        }
    }
}

fn ask(query: Query, min_front: u64) -> Route
    ensures { result ≡ Route.Asked query min_front }
{
    Route::Asked { query, min_front }
}

fn listing(numbers: &Numbers) -> Query
    ensures { result ≡ Query.Listing numbers.now.id numbers.now.page }
{
    Query::Listing {
        category: numbers.id,
        page: numbers.page,
    }
}

fn row_route(alloc: Global, asks: &Asks<'_>) -> Result<Route, NoMemory>
    ensures { IfOk result (λ route. route ≡ Route.Row (row_read asks.now.entity.now asks.now.numbers asks.now.headers)) }
{
    Ok(Route::Row {
        read: RowRead {
            entity: Txt::from_str(alloc, asks.entity)?,
            id: asks.numbers.id,
            second: asks.numbers.second,
            version: asks.headers.version,
            language: asks.headers.language,
            inherit: asks.headers.inherit,
        },
    })
}

fn list_route(alloc: Global, asks: &Asks<'_>) -> Result<Route, NoMemory>
    ensures { IfOk result (λ route. route ≡ Route.RowList asks.now.entity.now asks.now.numbers.id asks.now.numbers.second) }
{
    Ok(Route::RowList {
        entity: Txt::from_str(alloc, asks.entity)?,
        id: asks.numbers.id,
        second: asks.numbers.second,
    })
}
