//! One element of a batch.
ghost use Rattle.std.specs.Prelude.{◌≡◌, IfOk};
ghost use Rattle.serde_json.specs.View.{view, members_view};
ghost use Rattle.body_json.specs.Shapes.{operation, element};
ghost use Rattle.body_json.specs.Pointers.{Answers};
ghost use Rattle.body_json.specs.WellFormed.{IsWellFormed};

use crate::fault::{BodyFault, wrong_element, wrong_member};
use crate::fields::take_fields;
use crate::members::{read_kind, read_row_id, read_second, take_text, unknown_member};
use serde_json::{Map, Value};
use shop_defs::Txt;
use shop_requests::RawOp;
use std::alloc::Global;

/// The operation that the members of the element with that number make.
fn read_operation(
    alloc: Global,
    at: usize,
    mut members: Map<String, Value>,
) -> Result<RawOp, BodyFault>
    ensures answer { Answers (operation at (members_view members.entries)) result }
    ensures well_formed { IfOk result IsWellFormed }
{
    let Some(kind) = read_kind(&members) else {
        return Err(wrong_member(alloc, at, "op"));
    };
    let Some(entity) = take_text(&mut members, "entity") else {
        return Err(wrong_member(alloc, at, "entity"));
    };
    let Some(id) = read_row_id(&members) else {
        return Err(wrong_member(alloc, at, "id"));
    };
    let Some(second) = read_second(&members) else {
        return Err(wrong_member(alloc, at, "second"));
    };
    let Some(fields) = take_fields(alloc, kind, &mut members)? else {
        return Err(wrong_member(alloc, at, "fields"));
    };
    if let Some(name) = unknown_member(kind, &members) {
        return Err(wrong_member(alloc, at, name));
    }
    Ok(RawOp {
        kind,
        entity: Txt::from_string(entity),
        id,
        second,
        fields,
    })
}

/// The operation that the element with that number is, counted from 0.
pub fn read_element(alloc: Global, at: usize, value: Value) -> Result<RawOp, BodyFault>
    ensures answer { Answers (element at (view value)) result }
    ensures well_formed { IfOk result IsWellFormed }
{
    match value {
        Value::Object(members) => read_operation(alloc, at, members),
        _ => Err(wrong_element(alloc, at)),
    }
}
