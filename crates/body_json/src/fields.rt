//! What an upsert gives for the fields of its row.
ghost use Rattle.std.specs.Prelude.{◌≡◌, IfOk, IfSome, map, string_bytes};
ghost use Rattle.serde_json.specs.View.{view, number_view, members_view};
ghost use Rattle.body_json.specs.Shapes.{raw, raw_number, given, fields_in};
ghost use Rattle.body_json.specs.LeftMembers.{without_fields};
ghost use Rattle.body_json.specs.WellFormed.{NamesAscend};

use crate::members::take;
use crate::room::with_room;
use serde_json::{Map, Number, Value};
use shop_defs::{List, NoMemory, OpKind, Txt};
use shop_requests::Raw;
use std::alloc::Global;

/// A number as it is given: whole only where it is written without a point and an exponent, and no
/// `-0`. What is beyond 64 bits is no whole number either.
fn read_number(number: &Number) -> Raw
    ensures { result ≡ raw_number (number_view number.now) }
{
    if let Some(number) = number.as_i64() {
        return Raw::Int(number);
    }
    match number.as_u64() {
        Some(number) => Raw::Big(number),
        None => Raw::Other,
    }
}

/// What a value gives for a field. A text is moved.
fn read_raw(value: Value) -> Raw
    ensures { result ≡ raw (view value) }
{
    match value {
        Value::Null => Raw::Null,
        Value::Bool(flag) => Raw::Flag(flag),
        Value::Number(number) => read_number(&number),
        Value::String(text) => Raw::Text(Txt::from_string(text)),
        Value::Array(_) | Value::Object(_) => Raw::Other,
    }
}

/// The members of an object, each as what it gives for the field of that name.
fn read_fields(alloc: Global, members: Map<String, Value>) -> Result<List<(Txt, Raw)>, NoMemory>
    ensures given { IfOk result (λ fields. fields ≡ given (members_view members.entries)) }
    ensures names { IfOk result NamesAscend }
{
    let mut fields = with_room(alloc, members.len())?;
    for (name, value) in members {
        fields.push((Txt::from_string(name), read_raw(value)))?;
    }
    Ok(fields)
}

/// Takes the fields out that an operation gives: `None` where what is given is no object, and no
/// fields where none are given or the operation is a delete, which leaves the members as they are.
pub fn take_fields(
    alloc: Global,
    kind: OpKind,
    members: &mut Map<String, Value>,
) -> Result<Option<List<(Txt, Raw)>>, NoMemory>
    ensures value { IfOk result
        (λ fields. fields ≡ fields_in kind (members_view members.old.entries)) }
    ensures names { IfOk result (λ fields. IfSome fields NamesAscend) }
    ensures rest { members_view members.new.entries
        ≡ without_fields kind (members_view members.old.entries) }
{
    if kind == OpKind::Delete {
        return Ok(Some(List::new(alloc)));
    }
    match take(members, "fields") {
        None => Ok(Some(List::new(alloc))),
        Some(Value::Object(given)) => Ok(Some(read_fields(alloc, given)?)),
        Some(_) => Ok(None),
    }
}
