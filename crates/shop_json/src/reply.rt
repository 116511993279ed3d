//! Replies as JSON.
ghost use Rattle.std.specs.Prelude.{◌≡◌, map, IfOk, Ok, OnOk};
ghost use Rattle.std.specs.Option.{option_map};
ghost use Rattle.shop_core.specs.declared.answers.Reply.TheVariants as replies;
ghost use Rattle.shop_core.specs.declared.answers.Told.TheVariants as answers;
ghost use Rattle.shop_chain.specs.Showing.{lent};
ghost use Rattle.idx_copy.specs.Answers.{said};
ghost use Rattle.shop_core.specs.Indexed.{said_reply};
ghost use Rattle.shop_core.specs.Requests.{bare};
ghost use Rattle.shop_core.specs.Seeing.{reply_of};
ghost use Rattle.shop_json.specs.Replying as spec;

use cart_json::settled_text;
use cart_price::Settled;
use product_meanings::{ListingPage, ListingPrice};
use reply_json::{
    done_text, fault_status, fault_text, front_text, front_unknown_text, members_text,
    missing_text, page_text, price_text, refusal_status, refusal_text, row_text, rows_text,
    seen_text, tree_text,
};
use shop_chain::{Shown, ShownValue};
use shop_core::{Answer, Reply, RowReply, RowSeen, Told};
use shop_defs::{List, NoMemory, Row, Txt, Value};
use shop_http::{NO_MEMORY_BODY, STORE_FAILED_BODY};
use shop_meanings::Standing;
use std::alloc::Global;

/// The status (RFC 9110, section 15) and the body of the response to a request that was answered so.
///
/// The body is compact JSON, whose objects have their members in the order of the bytes of their names;
/// what is shown beside a row stands in the order in which the reply has it, which is that order too in
/// each reply of a shop. Want of memory is the only error.
#[tactic(auto, unfolding(crate::specs::Replying::reply_body))]
pub fn reply_text(alloc: Global, reply: &Reply) -> Result<(u16, List<u8>), NoMemory>
    ensures { IfOk result (λ text. (text.0 ≡ spec.reply_status reply.now) × (text.1 ≡ spec.reply_body reply.now)) }
{
    match reply {
        Reply::Done(done) => Ok((200, done_text(alloc, done.front, done.value)?)),
        Reply::Row(reply) => Ok((200, row_text(alloc, &reply.row, if_any(&reply.shown))?)),
        Reply::RowList(replies) => Ok((200, replied_text(alloc, replies.as_slice())?)),
        Reply::Cart { front, settled } => Ok((200, settled_body(alloc, *front, settled)?)),
        Reply::Told { front, told } => Ok((200, told_body(alloc, *front, told)?)),
        Reply::Missing { front, key } => Ok((404, missing_text(alloc, *front, key)?)),
        Reply::Front {
            accepted,
            published,
        } => Ok((200, front_text(alloc, *accepted, *published)?)),
        Reply::FrontUnknown { asked, have } => Ok((409, front_unknown_text(alloc, *asked, *have)?)),
        Reply::Refused(refused) => Ok((
            refusal_status(&refused.broken),
            refusal_text(alloc, refused)?,
        )),
        Reply::Line(fault) => Ok((fault_status(fault), fault_text(alloc, fault)?)),
        Reply::StoreFailed => Ok((503, copy_body(alloc, STORE_FAILED_BODY)?)),
        Reply::NoMemory => Ok((507, copy_body(alloc, NO_MEMORY_BODY)?)),
    }
}

/// What is shown beside a row, unless it is nothing.
fn if_any(shown: &List<(Txt, Option<Value>)>) -> Option<&[(Txt, Option<Value>)]>
    ensures { option_map (λ given. given.now) result ≡ spec.if_any shown.now }
{
    match shown.as_slice() {
        [] => None,
        shown => Some(shown),
    }
}

/// The body that lists the rows of these replies.
#[tactic(auto, unfolding(crate::specs::Replying::reply_body))]
fn replied_text(alloc: Global, rows: &[RowReply]) -> Result<List<u8>, NoMemory>
    ensures { IfOk result (λ body. body ≡ spec.reply_body (replies.RowList rows.now)) }
{
    let mut listed = Vec::with_capacity(alloc, rows.len())?;
    for reply in rows {
        listed.push(&reply.row)?;
    }
    let mut room = Vec::new(alloc);
    rows_text(alloc, &mut room, listed.as_slice())?;
    Ok(List::from_vec(room))
}

/// Prints the body of the reply that shows this row where it stands, which is that of `reply_text`, into
/// memory that the caller keeps for this. What was there is let go, and no memory is taken where there is
/// enough. Want of memory is the only error.
#[tactic(auto, unfolding(crate::specs::Replying::reply_body))]
pub fn seen_row_text(alloc: Global, room: &mut Vec<u8>, seen: &RowSeen<'_>) -> Result<(), NoMemory>
    ensures { OnOk result (room.new.items ≡ spec.reply_body (replies.Row (reply_of seen.now))) }
{
    seen_text(alloc, room, seen.row, if_any_seen(&seen.shown))
}

/// What is lent to be shown beside a row, unless it is nothing.
fn if_any_seen<'s, 'a>(shown: &'s Shown<'a>) -> Option<&'s [ShownValue<'a>]>
    ensures { option_map (λ given. lent given.now) result ≡ spec.if_any shown.entry.now }
{
    match shown.as_slice() {
        [] => None,
        shown => Some(shown),
    }
}

/// Prints the body of the reply that lists these rows where they stand, as `seen_row_text` does.
#[tactic(auto, unfolding(crate::specs::Replying::reply_body))]
pub fn seen_list_text(alloc: Global, room: &mut Vec<u8>, rows: &[&Row]) -> Result<(), NoMemory>
    ensures { OnOk result (room.new.items ≡ spec.reply_body (replies.RowList (map (λ row. bare row.now) rows.now))) }
{
    rows_text(alloc, room, rows)
}

/// The body that shows a settled cart.
fn settled_body(alloc: Global, front: u64, settled: &Settled) -> Result<List<u8>, NoMemory>
    ensures { IfOk result (λ body. body ≡ spec.reply_body (replies.Cart front settled.now)) }
{
    let mut room = Vec::new(alloc);
    cart_text(alloc, &mut room, front, settled)?;
    Ok(List::from_vec(room))
}

/// Prints the body of the reply that shows a settled cart, as `seen_row_text` does.
#[tactic(auto, unfolding(crate::specs::Replying::reply_body))]
pub fn cart_text(
    alloc: Global,
    room: &mut Vec<u8>,
    front: u64,
    settled: &Settled,
) -> Result<(), NoMemory>
    ensures { OnOk result (room.new.items ≡ spec.reply_body (replies.Cart front settled.now)) }
{
    settled_text(alloc, room, front, settled)
}

/// The body that says what a question about all rows is answered.
fn told_body(alloc: Global, front: u64, told: &Told) -> Result<List<u8>, NoMemory>
    ensures { IfOk result (λ body. body ≡ spec.reply_body (replies.Told front told.now)) }
{
    match told {
        Told::Tree(standing) => standing_body(alloc, front, standing),
        Told::Members(members) => members_body(alloc, front, members.as_slice()),
        Told::Price(price) => price_body(alloc, front, price),
        Told::Page(page) => page_body(alloc, front, page),
    }
}

/// The body that says where a category stands.
#[tactic(auto, unfolding(crate::specs::Replying::reply_body))]
fn standing_body(alloc: Global, front: u64, standing: &Standing) -> Result<List<u8>, NoMemory>
    ensures { IfOk result (λ body. body ≡ spec.reply_body (replies.Told front (answers.Tree standing.now))) }
{
    let mut room = Vec::new(alloc);
    let path = standing.path.as_slice();
    tree_text(
        alloc,
        &mut room,
        front,
        path,
        standing.level,
        standing.children,
    )?;
    Ok(List::from_vec(room))
}

/// The body that says which products are members of a stream.
#[tactic(auto, unfolding(crate::specs::Replying::reply_body))]
fn members_body(alloc: Global, front: u64, members: &[u128]) -> Result<List<u8>, NoMemory>
    ensures { IfOk result (λ body. body ≡ spec.reply_body (replies.Told front (answers.Members members.now))) }
{
    let mut room = Vec::new(alloc);
    members_text(alloc, &mut room, front, members)?;
    Ok(List::from_vec(room))
}

/// The body that says at which price a product is listed.
#[tactic(auto, unfolding(crate::specs::Replying::reply_body))]
fn price_body(alloc: Global, front: u64, price: &ListingPrice) -> Result<List<u8>, NoMemory>
    ensures { IfOk result (λ body. body ≡ spec.reply_body (replies.Told front (answers.Price price.now))) }
{
    let mut room = Vec::new(alloc);
    price_text(alloc, &mut room, front, price)?;
    Ok(List::from_vec(room))
}

/// The body of a page of what a category lists.
#[tactic(auto, unfolding(crate::specs::Replying::reply_body))]
fn page_body(alloc: Global, front: u64, page: &ListingPage) -> Result<List<u8>, NoMemory>
    ensures { IfOk result (λ body. body ≡ spec.reply_body (replies.Told front (answers.Page page.now))) }
{
    let mut room = Vec::new(alloc);
    page_text(alloc, &mut room, front, page)?;
    Ok(List::from_vec(room))
}

/// Prints the body of the reply that says what is lent of a question about all rows, by the rows after so
/// many entries, as `seen_row_text` does.
#[tactic(auto, unfolding(crate::specs::Replying::reply_body))]
pub fn answer_text(
    alloc: Global,
    room: &mut Vec<u8>,
    front: u64,
    answer: &Answer<'_>,
) -> Result<(), NoMemory>
    ensures { OnOk result (room.new.items ≡ spec.reply_body (said_reply front (Ok (said answer.now)))) }
{
    match answer {
        Answer::CategoryTree {
            path,
            level,
            children,
        } => tree_text(alloc, room, front, path, *level, *children),
        Answer::StreamMembers { members } => members_text(alloc, room, front, members),
        Answer::ListingPrice(price) => price_text(alloc, room, front, price),
        Answer::Listing(page) => page_text(alloc, room, front, page),
    }
}

fn copy_body(alloc: Global, body: &[u8]) -> Result<List<u8>, NoMemory>
    ensures { IfOk result (λ copy. copy ≡ body.now) }
{
    Ok(List::from_vec(Vec::from_slice(alloc, body)?))
}
