//! The bodies that are objects.
ghost use Rattle.std.specs.Prelude.{◌≡◌, option_map, IfOk, IfSome};
ghost use Rattle.std.specs.Int.{w64};
ghost use Rattle.std.specs.Int.RustNames.{FitsSigned};
ghost use Rattle.std.specs.List.{list_any};
ghost use Rattle.std.specs.Str.{bytes_eq};
ghost use Rattle.serde_json.specs.Find.{as_object};
ghost use Rattle.serde_json.specs.View.{view, members_view};
ghost use Rattle.body_json.specs.Bodies.{IsReadAs};
ghost use Rattle.body_json.specs.Objects as spec;
ghost use Rattle.body_json.specs.Pointers.{Answers};
ghost use Rattle.body_json.specs.Shapes.{raw, unknown};

use crate::fault::{BodyFault, wrong_body, wrong_name};
use crate::members::{as_id, is_text, member, read_row_id, take_text};
use crate::parsed::parse;
use serde_json::{Map, Value};
use shop_defs::Txt;
use std::alloc::Global;

/// What the body of a new draft names: the row that it is of.
#[derive(Drop)]
pub struct DraftBody {
    /// The name that is given for the kind of the row.
    pub entity: Txt,
    /// The id of the row.
    pub root: u128,
}

/// The bodies that are objects.
#[derive(Drop, Clone, Copy)]
pub enum Form {
    /// The body of a new draft.
    Draft,
    /// The body of a change of stock.
    Amount,
    /// The body of an order of a cart.
    Order,
}

/// Whether a body of that form has a member with that name.
fn is_named(form: Form, name: &str) -> bool
    ensures { result ≡ list_any (bytes_eq name.now) (spec.names_of form) }
{
    match form {
        Form::Draft => matches!(name, "entity" | "id"),
        Form::Amount => name == "amount",
        Form::Order => name == "order",
    }
}

/// The name of the first member that a body of that form doesn't have.
fn other_member(form: Form, members: &Map<String, Value>) -> Option<&str>
    ensures { option_map (λ name. name.now) result ≡ unknown (spec.names_of form) (members_view members.now.entries) }
{
    for (name, _) in members.iter() {
        if !is_named(form, name.as_str()) {
            return Some(name.as_str());
        }
    }
    None
}

fn into_object(value: Value) -> Option<Map<String, Value>>
    ensures { option_map (λ members. members_view members.entries) result ≡ as_object (view value) }
{
    match value {
        Value::Object(members) => Some(members),
        _ => None,
    }
}

/// The whole number that a value is, where an `i64` holds it.
fn as_whole(value: &Value) -> Option<i64>
    ensures value { result ≡ spec.whole (raw (view value.now)) }
    ensures fits { IfSome result (FitsSigned w64) }
{
    value.as_i64()
}

/// The number that is the member `amount`.
fn amount_in(members: &Map<String, Value>) -> Option<i64>
    ensures value { result ≡ spec.amount_in (members_view members.now.entries) }
    ensures fits { IfSome result (FitsSigned w64) }
{
    as_whole(member(members, "amount")?)
}

/// The id that is the member `order`.
fn order_in(members: &Map<String, Value>) -> Option<u128>
    ensures { result ≡ spec.order_in (members_view members.now.entries) }
{
    as_id(member(members, "order")?)
}

/// What the members of the body of a new draft say.
fn draft_members(alloc: Global, mut members: Map<String, Value>) -> Result<DraftBody, BodyFault>
    ensures { Answers (spec.draft_members (members_view members.entries)) result }
{
    if !is_text(&members, "entity") {
        return Err(wrong_name(alloc, "entity"));
    }
    let Some(root) = read_row_id(&members) else {
        return Err(wrong_name(alloc, "id"));
    };
    if let Some(name) = other_member(Form::Draft, &members) {
        return Err(wrong_name(alloc, name));
    }
    match take_text(&mut members, "entity") {
        Some(entity) => Ok(DraftBody {
            entity: Txt::from_string(entity),
            root,
        }),
        None => Err(wrong_name(alloc, "entity")),
    }
}

fn amount_members(alloc: Global, members: &Map<String, Value>) -> Result<i64, BodyFault>
    ensures answer { Answers (spec.amount_members (members_view members.now.entries)) result }
    ensures fits { IfOk result (FitsSigned w64) }
{
    let Some(amount) = amount_in(members) else {
        return Err(wrong_name(alloc, "amount"));
    };
    match other_member(Form::Amount, members) {
        Some(name) => Err(wrong_name(alloc, name)),
        None => Ok(amount),
    }
}

fn order_members(alloc: Global, members: &Map<String, Value>) -> Result<u128, BodyFault>
    ensures { Answers (spec.order_members (members_view members.now.entries)) result }
{
    let Some(order) = order_in(members) else {
        return Err(wrong_name(alloc, "order"));
    };
    match other_member(Form::Order, members) {
        Some(name) => Err(wrong_name(alloc, name)),
        None => Ok(order),
    }
}

/// What the body of a new draft says: `{"entity":T,"id":I}`, with a text and the text of an id. Where a
/// member stands twice, the last counts.
///
/// `BadJson` comes exactly where the body is no JSON, and `BadShape` exactly where it is JSON of another
/// shape. It names the first wrong place: the whole body where it is no object, then `entity` and `id`,
/// where one is missing or malformed, then the unknown member with the least name.
pub fn read_draft(alloc: Global, body: &[u8]) -> Result<DraftBody, BodyFault>
    ensures { IsReadAs spec.draft body.now result }
{
    match into_object(parse(alloc, body)?) {
        Some(members) => draft_members(alloc, members),
        None => Err(wrong_body(alloc)),
    }
}

/// How many pieces the body of a change of stock adds: `{"amount":N}`, with a whole number that an
/// `i64` holds, written without a point and an exponent, and no `-0`.
///
/// The errors are those of `read_draft`, with `amount` in place of `entity` and `id`.
pub fn read_amount(alloc: Global, body: &[u8]) -> Result<i64, BodyFault>
    ensures answer { IsReadAs spec.amount body.now result }
    ensures fits { IfOk result (FitsSigned w64) }
{
    match into_object(parse(alloc, body)?) {
        Some(members) => amount_members(alloc, &members),
        None => Err(wrong_body(alloc)),
    }
}

/// The id that the body of an order of a cart gives to the order: `{"order":I}`.
///
/// The errors are those of `read_draft`, with `order` in place of `entity` and `id`.
pub fn read_order(alloc: Global, body: &[u8]) -> Result<u128, BodyFault>
    ensures { IsReadAs spec.order body.now result }
{
    match into_object(parse(alloc, body)?) {
        Some(members) => order_members(alloc, &members),
        None => Err(wrong_body(alloc)),
    }
}
