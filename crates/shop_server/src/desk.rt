//! A shop that answers the requests of a connection.
ghost use Rattle.std.specs.Prelude.{◌≡◌, ◌++◌, ℕ, ℤ, List, IfOk, OnOk, OnErr, None, Err, false};
ghost use Rattle.shop_outside.specs.Clocks.{IsMoment};
ghost use Rattle.shop_core.specs.declared.answers.Reply.TheVariants as replies;
ghost use Rattle.shop_core.specs.declared.answers.Request.TheVariants as requests;
ghost use Rattle.shop_core.specs.Indexed.{direct_reply, indexed_answer};
ghost use Rattle.shop_core.specs.Publishing.{OnlyPublishes};
ghost use Rattle.shop_core.specs.Requests.{IsBuiltRequest, answered, cart_answer, listing, reading, with_bare};
ghost use Rattle.shop_core.specs.Shops.{IsShop};
ghost use Rattle.shop_core.specs.Steps.{IsBuilt};
ghost use Rattle.shop_json.specs.Asking as json;
ghost use Rattle.shop_routes.specs.Later.{asks_later, is_later};
ghost use Rattle.shop_routes.specs.Routing.{meant, route_of};
ghost use Rattle.shop_server.specs.Answering.{Allows, FewAreAccepted, Gives, IsForm, RepliesAreAFold, ServesBy, Way, asks, by_request, by_route, reply_text, shown};
ghost use Rattle.shop_server.specs.Cutting.{IsServed};

use crate::answerer::Answerer;
use crate::turned::TurnedAway;
use cart_loop::CartRefused;
use shop_core::{AskFault, CommitFault, Reply, Request, ShopState, refused_at};
use shop_defs::{Broken, NoMemory, Refused};
use shop_http::{Head, Method2, put_response};
use shop_json::{
    answer_text, cart_text, put_done, put_store_failed, read_body, reply_text, reserve_done,
    seen_list_text, seen_row_text,
};
use shop_outside::{Keeper, Moment};
use shop_requests::{Command, LineFault, Query, RowRead};
use shop_routes::{Asks, Looked};
use std::alloc::Global;
use std::marker::Model;

/// A shop that answers requests. Contracts see the shop.
#[derive(Drop)]
pub(crate) struct Desk<P: Keeper + Drop> {
    shop: ShopState<P>,
    /// Where the body of a read is printed: a read takes no memory for it once there is enough.
    room: Vec<u8>,
}

impl<P: Keeper + Drop> Model for Desk<P> {
    ghost use Rattle.shop_core.specs.Shops.{ShopView, IsShop};

    ghost Value = { ShopView };

    ghost view = { λ d. d.shop };
}

impl<P: Keeper + Drop> Desk<P> {
    /// A desk over a shop.
    pub(crate) fn new(alloc: Global, shop: ShopState<P>) -> Desk<P>
        ensures { result ≡ shop }
    {
        Desk {
            shop,
            room: Vec::new(alloc),
        }
    }

    /// The keeper of the shop.
    pub(crate) fn close(self) -> P
        ensures content { P.content result ≡ self.content }
        ensures faults { P.keep_faults result ≡ self.faults }
        ensures shop { IsShop self }
    {
        let Desk { shop, room: _ } = self;
        shop.close()
    }
}

/// What a request asks of a shop of which this was looked up.
fn request_in(alloc: Global, looked: &Looked<'_>, body: &[u8]) -> Result<Request, TurnedAway>
    requires served { asks_later (meant looked.now) ≡ false }
    ensures form { IsForm (by_route body.now (meant looked.now)) result }
    ensures built { IfOk result IsBuiltRequest }
{
    match looked {
        Looked::Asks(asks) => asked_in(alloc, asks, body),
        Looked::NoRoute => Err(TurnedAway::line(LineFault::NoRoute)),
        Looked::WrongMethod { allow } => Err(TurnedAway::Line {
            fault: LineFault::WrongMethod,
            allow: Some(*allow),
        }),
        Looked::BadPath { part } => Err(TurnedAway::bad_path(alloc, part)),
        Looked::BadHeader { name } => Err(TurnedAway::bad_header(alloc, name)),
    }
}

/// The same where nothing but the body may be wrong.
fn asked_in(alloc: Global, asks: &Asks<'_>, body: &[u8]) -> Result<Request, TurnedAway>
    requires served { is_later (route_of asks.now) ≡ false }
    ensures form { IsForm (by_request (json.request_in (route_of asks.now) body.now)) result }
    ensures built { IfOk result IsBuiltRequest }
{
    match asks.route(alloc) {
        Ok(route) => Ok(read_body(alloc, route, body)?),
        Err(_) => Err(TurnedAway::NoMemory),
    }
}

/// Puts the response with a reply behind what is in `out`.
fn respond(
    alloc: Global,
    reply: Reply,
    allow: Option<Method2>,
    last: bool,
    out: &mut Vec<u8>,
) -> Result<(), NoMemory>
    requires { Allows reply allow }
    ensures ok { OnOk result (out.new.items ≡ out.old.items ++ reply_text reply allow last) }
    ensures err { OnErr result (out.new.items ≡ out.old.items) }
{
    let (status, body) = reply_text(alloc, &reply)?;
    put_response(out, status, body.as_slice(), allow, last)
}

/// Carries out a command. The room for the response to an accepted one is taken before, so that where memory runs out nothing but
/// what is published is changed.
fn write<P: Keeper + Drop>(
    alloc: Global,
    shop: &mut ShopState<P>,
    command: &Command,
    moment: Moment,
    last: bool,
    out: &mut Vec<u8>,
) -> Result<(), NoMemory>
    requires built { IsBuilt command.now }
    requires moment { IsMoment moment }
    ensures ok { OnOk result ((way : Way) × (response : List ℕ) × ServesBy way shop.old (asks (requests.Write command.now)) moment last response shop.new
        × (out.new.items ≡ out.old.items ++ response)) }
    ensures err { OnErr result (OnlyPublishes shop.old shop.new × (out.new.items ≡ out.old.items)) }
{
    reserve_done(out)?;
    match shop.commit(alloc, command, moment) {
        Ok(done) => {
            put_done(out, done.front, done.value, last);
            Ok(())
        }
        Err(CommitFault::Refused(refused)) => {
            respond(alloc, Reply::Refused(refused), None, last, out)
        }
        Err(CommitFault::StoreFailed) => {
            put_store_failed(out, last);
            Ok(())
        }
        Err(CommitFault::NoMemory) => Err(NoMemory),
    }
}

/// Carries out a command, and then publishes what it changed. A write stands also where no memory is left for that.
fn write_and_publish<P: Keeper + Drop>(
    alloc: Global,
    shop: &mut ShopState<P>,
    command: &Command,
    moment: Moment,
    last: bool,
    out: &mut Vec<u8>,
) -> Result<(), NoMemory>
    requires built { IsBuilt command.now }
    requires moment { IsMoment moment }
    ensures ok { OnOk result ((way : Way) × (response : List ℕ) × ServesBy way shop.old (asks (requests.Write command.now)) moment last response shop.new
        × (out.new.items ≡ out.old.items ++ response)) }
    ensures err { OnErr result (OnlyPublishes shop.old shop.new × (out.new.items ≡ out.old.items)) }
{
    let put = write(alloc, shop, command, moment, last, out);
    let _ = shop.catch_up(alloc);
    put
}

/// Puts the response to a read that breaks a rule.
fn refuse(alloc: Global, broken: Broken, last: bool, out: &mut Vec<u8>) -> Result<(), NoMemory>
    ensures ok { OnOk result (out.new.items ≡ out.old.items ++ reply_text (shown (Err broken)) None last) }
    ensures err { OnErr result (out.new.items ≡ out.old.items) }
{
    let refused = Refused { op: 0, broken };
    respond(alloc, Reply::Refused(refused), None, last, out)
}

/// Shows a row, printed where it stands.
fn show<P: Keeper + Drop>(
    alloc: Global,
    shop: &ShopState<P>,
    room: &mut Vec<u8>,
    read: &RowRead,
    last: bool,
    out: &mut Vec<u8>,
) -> Result<(), NoMemory>
    ensures ok { OnOk result (out.new.items ≡ out.old.items ++ reply_text (shown (answered replies.Row (reading shop.now.rows read.now))) None last) }
    ensures err { OnErr result (out.new.items ≡ out.old.items) }
{
    match shop.see_row(alloc, read) {
        Ok(seen) => {
            seen_row_text(alloc, room, &seen)?;
            put_response(out, 200, room.as_slice(), None, last)
        }
        Err(AskFault::Refused(broken)) => refuse(alloc, broken, last, out),
        Err(AskFault::NoMemory) => Err(NoMemory),
    }
}

/// Lists rows, printed where they stand.
fn list<P: Keeper + Drop>(
    alloc: Global,
    shop: &ShopState<P>,
    room: &mut Vec<u8>,
    entity: &[u8],
    id: u128,
    second: u128,
    last: bool,
    out: &mut Vec<u8>,
) -> Result<(), NoMemory>
    ensures ok { OnOk result (out.new.items ≡ out.old.items ++ reply_text (shown (answered replies.RowList (with_bare (listing shop.now.rows entity.now id second)))) None last) }
    ensures err { OnErr result (out.new.items ≡ out.old.items) }
{
    match shop.see_list(alloc, entity, id, second) {
        Ok(rows) => {
            seen_list_text(alloc, room, rows.as_slice())?;
            put_response(out, 200, room.as_slice(), None, last)
        }
        Err(AskFault::Refused(broken)) => refuse(alloc, broken, last, out),
        Err(AskFault::NoMemory) => Err(NoMemory),
    }
}

/// Shows what a cart is settled at.
fn price<P: Keeper + Drop>(
    alloc: Global,
    shop: &ShopState<P>,
    room: &mut Vec<u8>,
    cart: u128,
    moment: Moment,
    last: bool,
    out: &mut Vec<u8>,
) -> Result<(), NoMemory>
    requires moment { IsMoment moment }
    ensures ok { OnOk result (out.new.items ≡ out.old.items ++ reply_text (shown (cart_answer shop.now.rows shop.now.number cart moment)) None last) }
    ensures err { OnErr result (out.new.items ≡ out.old.items) }
{
    match shop.read_cart(alloc, cart, moment) {
        Ok((front, settled)) => {
            cart_text(alloc, room, front, &settled)?;
            put_response(out, 200, room.as_slice(), None, last)
        }
        Err(CartRefused::NoSuchCart) => refuse(alloc, Broken::NoSuchCart { id: cart }, last, out),
        Err(CartRefused::Unstable) => refuse(alloc, Broken::Unstable { id: cart }, last, out),
        Err(CartRefused::NoMemory) => Err(NoMemory),
    }
}

/// Catches up, and shows what a cart is settled at.
fn price_all<P: Keeper + Drop>(
    alloc: Global,
    shop: &mut ShopState<P>,
    room: &mut Vec<u8>,
    cart: u128,
    moment: Moment,
    last: bool,
    out: &mut Vec<u8>,
) -> Result<(), NoMemory>
    requires moment { IsMoment moment }
    ensures ok { OnOk result (out.new.items ≡ out.old.items ++ reply_text (shown (cart_answer shop.old.rows shop.old.number cart moment)) None last) }
    ensures err { OnErr result (out.new.items ≡ out.old.items) }
    ensures only { OnlyPublishes shop.old shop.new }
{
    let _ = shop.catch_up(alloc)?;
    price(alloc, shop, room, cart, moment, last, out)
}

/// Shows what is known of a question about all rows, by the published copy.
fn show_known<P: Keeper + Drop>(
    alloc: Global,
    shop: &ShopState<P>,
    room: &mut Vec<u8>,
    query: &Query,
    last: bool,
    out: &mut Vec<u8>,
) -> Result<(), NoMemory>
    ensures ok { OnOk result (out.new.items ≡ out.old.items ++ reply_text (direct_reply shop.now.copy.rows shop.now.copy.front query.now) None last) }
    ensures err { OnErr result (out.new.items ≡ out.old.items) }
{
    match shop.ask(alloc, query) {
        Ok(answer) => {
            answer_text(alloc, room, shop.front(), &answer)?;
            put_response(out, 200, room.as_slice(), None, last)
        }
        Err(AskFault::Refused(broken)) => {
            let reply = refused_at(shop.front(), broken);
            respond(alloc, reply, None, last, out)
        }
        Err(AskFault::NoMemory) => Err(NoMemory),
    }
}

/// Answers a question about all rows, over all entries that are accepted.
fn tell<P: Keeper + Drop>(
    alloc: Global,
    shop: &mut ShopState<P>,
    room: &mut Vec<u8>,
    query: &Query,
    min_front: u64,
    last: bool,
    out: &mut Vec<u8>,
) -> Result<(), NoMemory>
    ensures ok { OnOk result (out.new.items ≡ out.old.items ++ reply_text (indexed_answer shop.old.rows shop.old.number query.now min_front) None last) }
    ensures err { OnErr result (out.new.items ≡ out.old.items) }
    ensures only { OnlyPublishes shop.old shop.new }
{
    let have = shop.accepted();
    if min_front > have {
        let asked = min_front;
        return respond(alloc, Reply::FrontUnknown { asked, have }, None, last, out);
    }
    let _published = shop.catch_up(alloc)?;
    show_known(alloc, shop, room, query, last, out)
}

/// Says how many entries are accepted, and how many of them are published.
fn show_fronts<P: Keeper + Drop>(
    alloc: Global,
    shop: &ShopState<P>,
    last: bool,
    out: &mut Vec<u8>,
) -> Result<(), NoMemory>
    ensures ok { OnOk result (out.new.items ≡ out.old.items ++ reply_text (replies.Front shop.now.number shop.now.copy.front) None last) }
    ensures err { OnErr result (out.new.items ≡ out.old.items) }
{
    let reply = Reply::Front {
        accepted: shop.accepted(),
        published: shop.front(),
    };
    respond(alloc, reply, None, last, out)
}

/// Answers what is asked of a shop.
fn answer_request<P: Keeper + Drop>(
    alloc: Global,
    shop: &mut ShopState<P>,
    room: &mut Vec<u8>,
    request: Request,
    moment: Moment,
    last: bool,
    out: &mut Vec<u8>,
) -> Result<(), NoMemory>
    requires built { IsBuiltRequest request }
    requires moment { IsMoment moment }
    ensures ok { OnOk result ((way : Way) × (response : List ℕ) × ServesBy way shop.old (asks request) moment last response shop.new
        × (out.new.items ≡ out.old.items ++ response)) }
    ensures err { OnErr result (OnlyPublishes shop.old shop.new × (out.new.items ≡ out.old.items)) }
{
    match request {
        Request::Write(command) => write_and_publish(alloc, shop, &command, moment, last, out),
        Request::Row(read) => show(alloc, shop, room, &read, last, out),
        Request::RowList { entity, id, second } => {
            list(alloc, shop, room, entity.as_bytes(), id, second, last, out)
        }
        Request::Cart { cart } => price_all(alloc, shop, room, cart, moment, last, out),
        Request::Indexed { query, min_front } => {
            tell(alloc, shop, room, &query, min_front, last, out)
        }
        Request::Front => show_fronts(alloc, shop, last, out),
    }
}

impl<P: Keeper + Drop> Answerer for Desk<P> {
    ghost serves = { IsServed };

    ghost gives = { Gives };

    fn answer(
        &mut self,
        alloc: Global,
        _head: &Head<'_>,
        body: &[u8],
        looked: &Looked<'_>,
        moment: Moment,
        last: bool,
        out: &mut Vec<u8>,
    ) -> Result<(), NoMemory> {
        // What always holds of a shop is known once it is read.
        let _front = self.shop.front();
        match request_in(alloc, looked, body) {
            Ok(request) => answer_request(
                alloc,
                &mut self.shop,
                &mut self.room,
                request,
                moment,
                last,
                out,
            ),
            Err(TurnedAway::Line { fault, allow }) => {
                respond(alloc, Reply::Line(fault), allow, last, out)
            }
            Err(TurnedAway::NoMemory) => Err(NoMemory),
        }
    }
}

/// The answers of a connection are the fold of the replies over the rows.
pub fn law_of_the_replies()
    ensures { RepliesAreAFold }
{}

/// A connection accepts at most as many writes as it has requests.
pub fn law_of_the_count()
    ensures { FewAreAccepted }
{}
