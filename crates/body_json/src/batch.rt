//! The body of a batch.
ghost use Rattle.std.specs.Prelude.{◌≡◌, ◌↔◌, length, vec_len, option_map, IsTrue, IfOk};
ghost use Rattle.std.specs.List.{AllByRecursion};
ghost use Rattle.serde_json.specs.Find.{as_array};
ghost use Rattle.serde_json.specs.View.{view, items_view};
ghost use Rattle.body_json.specs.Shapes.{elements, batch, is_count as is_count_of_batch};
ghost use Rattle.body_json.specs.Pointers.{Answers};
ghost use Rattle.body_json.specs.Bodies.{IsRead};
ghost use Rattle.body_json.specs.WellFormed.{IsCount, IsWellFormed, HaveIds, HaveAscendingNames};

use crate::element::read_element;
use crate::fault::{BodyFault, wrong_body};
use crate::parsed::parse;
use crate::room::with_room;
use serde_json::Value;
use shop_defs::List;
use shop_requests::RawOp;
use std::alloc::Global;

/// How many operations a batch has at most.
pub const MOST_OPERATIONS: usize = 1000;

/// The operations that the elements are, or the first wrong place in them.
fn read_elements(alloc: Global, values: Vec<Value>) -> Result<List<RawOp>, BodyFault>
    ensures answer { Answers (elements 0 (items_view values.items)) result }
    ensures count { IfOk result (λ ops. length ops ≡ vec_len values) }
    ensures well_formed { IfOk result (AllByRecursion IsWellFormed) }
{
    let mut ops = with_room(alloc, values.len())?;
    for value in values {
        let op = read_element(alloc, ops.len(), value)?;
        ops.push(op)?;
    }
    Ok(ops)
}

/// Whether a batch may have so many operations.
fn is_count(count: usize) -> bool
    ensures value { result ≡ is_count_of_batch count }
    ensures within { IsTrue result ↔ IsCount count }
{
    1 <= count && count <= MOST_OPERATIONS
}

fn into_array(value: Value) -> Option<Vec<Value>>
    ensures { option_map (λ values. items_view values.items) result ≡ as_array (view value) }
{
    match value {
        Value::Array(values) => Some(values),
        _ => None,
    }
}

/// The operations that a value is.
fn read_value(alloc: Global, value: Value) -> Result<List<RawOp>, BodyFault>
    ensures answer { Answers (batch (view value)) result }
    ensures count { IfOk result (λ ops. IsCount (length ops)) }
    ensures well_formed { IfOk result (AllByRecursion IsWellFormed) }
{
    match into_array(value) {
        Some(values) if is_count(values.len()) => read_elements(alloc, values),
        _ => Err(wrong_body(alloc)),
    }
}

/// The operations that the body of a batch says.
///
/// A batch is a JSON list of 1 to 1,000 operations:
/// `{"op":"upsert","entity":T,"id":I,"second":I,"fields":{..}}`, where `second` and `fields` may be
/// left out, or `{"op":"delete","entity":T,"id":I,"second":I}`, where `second` may be. T is a text,
/// and I the text of an id, as `read_id` of `shop_defs` reads it. Where a member stands twice, the
/// last counts. Without `second` the operation's second part is 0. Entities and fields are names
/// here: whether there are any such is for the reader of operations.
///
/// `BadJson` comes exactly where the body is no JSON, and `BadShape` exactly where it is JSON but no
/// batch. It names the first wrong place: the whole body where it isn't a list of 1 to 1,000; else in
/// the first element that is no operation the element itself where it isn't an object, then `op`,
/// `entity`, `id`, `second`, `fields`, where one is missing or malformed, then the unknown member
/// with the least name. On a delete `fields` is unknown.
pub fn read_batch(alloc: Global, body: &[u8]) -> Result<List<RawOp>, BodyFault>
    ensures answer { IsRead body.now result }
    // A batch that is read is well-formed.
    ensures count { IfOk result (λ ops. IsCount (length ops)) }
    ensures ids { IfOk result HaveIds }
    ensures names { IfOk result HaveAscendingNames }
{
    let value = parse(alloc, body)?;
    read_value(alloc, value)
}
