//! The request that a route and a body make.
ghost use Rattle.std.specs.Prelude.{IfOk};
ghost use Rattle.shop_core.specs.Requests.{IsBuiltRequest};
ghost use Rattle.shop_json.specs.Asking as spec;
ghost use Rattle.shop_requests.specs.declared.route.Route.TheVariants as routes;

use body_json::{BodyFault, read_amount, read_batch, read_draft, read_order};
use shop_core::Request;
use shop_requests::{Command, Route};
use std::alloc::Global;

/// The request of a route with that body. What the route holds is moved into it.
///
/// The body of a batch is JSON of 1 to 1,000 operations, that of a new draft `{"entity":T,"id":I}`, that
/// of a change of stock `{"amount":N}`, that of an order of a cart `{"order":I}`; all others are
/// ignored. `BadJson` comes exactly where the body has no reading (see `BodyFault`), and `BadShape`
/// where it reads as something else, with a pointer (RFC 6901, but for its escapes) to the first place
/// that is wrong. The other error is want of memory.
pub fn read_body(alloc: Global, route: Route, body: &[u8]) -> Result<Request, BodyFault>
    ensures answer { spec.Reads (spec.request_in route body.now) result }
    // What a route asks for whose answer is there can be asked of a shop.
    ensures built { spec.IsServedRoute route → IfOk result IsBuiltRequest }
    // No operation of a batch gives a field twice.
    ensures names { IfOk result spec.NamesFieldsOnce }
{
    match route {
        Route::Sync { version } => sync_in(alloc, version, body),
        Route::Draft { version } => draft_in(alloc, version, body),
        Route::Merge { version } => Ok(Request::Write(Command::Merge { version })),
        Route::Drop { version } => Ok(Request::Write(Command::DropDraft { version })),
        Route::Stock { product } => stock_in(alloc, product, body),
        Route::PlaceCart { cart } => order_in(alloc, cart, body),
        Route::Transit { order, action } => {
            Ok(Request::Write(Command::Transition { order, action }))
        }
        Route::Row { read } => Ok(Request::Row(read)),
        Route::RowList { entity, id, second } => Ok(Request::RowList { entity, id, second }),
        Route::Asked { query, min_front } => Ok(Request::Indexed { query, min_front }),
        Route::Cart { cart } => Ok(Request::Cart { cart }),
        Route::Front => Ok(Request::Front),
    }
}

/// The batch of operations that the body has.
fn sync_in(alloc: Global, version: u128, body: &[u8]) -> Result<Request, BodyFault>
    ensures answer { spec.Reads (spec.request_in (routes.Sync version) body.now) result }
    ensures built { spec.IsServedRoute (routes.Sync version) → IfOk result IsBuiltRequest }
    ensures names { IfOk result spec.NamesFieldsOnce }
{
    let ops = read_batch(alloc, body)?;
    Ok(Request::Write(Command::Sync { version, ops }))
}

/// The new draft, of what the body names.
fn draft_in(alloc: Global, version: u128, body: &[u8]) -> Result<Request, BodyFault>
    ensures answer { spec.Reads (spec.request_in (routes.Draft version) body.now) result }
    ensures names { IfOk result spec.NamesFieldsOnce }
{
    let named = read_draft(alloc, body)?;
    Ok(Request::Write(Command::MakeDraft {
        version,
        entity: named.entity,
        root: named.root,
    }))
}

/// The change of a stock, by as many as the body says.
fn stock_in(alloc: Global, product: u128, body: &[u8]) -> Result<Request, BodyFault>
    ensures answer { spec.Reads (spec.request_in (routes.Stock product) body.now) result }
    ensures names { IfOk result spec.NamesFieldsOnce }
{
    let amount = read_amount(alloc, body)?;
    Ok(Request::Write(Command::AdjustStock { product, amount }))
}

/// The order of a cart, with the id that the body gives.
fn order_in(alloc: Global, cart: u128, body: &[u8]) -> Result<Request, BodyFault>
    ensures answer { spec.Reads (spec.request_in (routes.PlaceCart cart) body.now) result }
    ensures names { IfOk result spec.NamesFieldsOnce }
{
    let order = read_order(alloc, body)?;
    Ok(Request::Write(Command::Place { cart, order }))
}
