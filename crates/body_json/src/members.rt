//! The members of an operation, looked up by name.
ghost use Rattle.std.specs.Prelude.{◌≡◌, option_map, option_and_then, is_some, string_bytes};
ghost use Rattle.std.specs.List.{list_any};
ghost use Rattle.std.specs.Str.{bytes_eq};
ghost use Rattle.serde_json.specs.Find.{as_str, get_member};
ghost use Rattle.serde_json.specs.View.{view, members_view};
ghost use Rattle.body_json.specs.Shapes.{names, kind_in, id_in, second_in, id_of_data, unknown};
ghost use Rattle.body_json.specs.LeftMembers.{without};

use serde_json::{Map, Value};
use shop_defs::OpKind;
use shop_requests::read_id;

/// The member with that name.
pub fn member<'v>(members: &'v Map<String, Value>, name: &str) -> Option<&'v Value>
    ensures { option_map (λ value. view value.now) result
        ≡ get_member name.now (members_view members.now.entries) }
{
    members.get(name)
}

/// Whether the member with that name is a text.
pub fn is_text(members: &Map<String, Value>, name: &str) -> bool
    ensures { result ≡ is_some (option_and_then as_str (get_member name.now (members_view members.now.entries))) }
{
    member(members, name).and_then(Value::as_str).is_some()
}

/// What the operation does.
pub fn read_kind(members: &Map<String, Value>) -> Option<OpKind>
    ensures { result ≡ kind_in (members_view members.now.entries) }
{
    match member(members, "op").and_then(Value::as_str) {
        Some("upsert") => Some(OpKind::Upsert),
        Some("delete") => Some(OpKind::Delete),
        _ => None,
    }
}

/// The id that a value is.
pub fn as_id(value: &Value) -> Option<u128>
    ensures { result ≡ id_of_data (view value.now) }
{
    read_id(value.as_str()?.as_bytes())
}

/// The id of the row.
pub fn read_row_id(members: &Map<String, Value>) -> Option<u128>
    ensures { result ≡ id_in (members_view members.now.entries) }
{
    as_id(member(members, "id")?)
}

/// The second part of the row's key: 0 where none is given.
pub fn read_second(members: &Map<String, Value>) -> Option<u128>
    ensures { result ≡ second_in (members_view members.now.entries) }
{
    match member(members, "second") {
        None => Some(0),
        Some(value) => as_id(value),
    }
}

/// Takes the member with that name out.
pub fn take(members: &mut Map<String, Value>, name: &str) -> Option<Value>
    ensures value { option_map view result
        ≡ get_member name.now (members_view members.old.entries) }
    ensures rest { members_view members.new.entries
        ≡ without name.now (members_view members.old.entries) }
{
    members.remove(name)
}

fn into_text(value: Value) -> Option<String>
    ensures { option_map string_bytes result ≡ as_str (view value) }
{
    match value {
        Value::String(text) => Some(text),
        _ => None,
    }
}

/// Takes the text out that is the member with that name. It is taken out, too, where it is no text.
pub fn take_text(members: &mut Map<String, Value>, name: &str) -> Option<String>
    ensures value { option_map string_bytes result
        ≡ option_and_then as_str (get_member name.now (members_view members.old.entries)) }
    ensures rest { members_view members.new.entries
        ≡ without name.now (members_view members.old.entries) }
{
    into_text(take(members, name)?)
}

/// Whether an operation of that kind may have a member with that name.
fn is_known(kind: OpKind, name: &str) -> bool
    ensures { result ≡ list_any (bytes_eq name.now) (names kind) }
{
    match name {
        "op" | "entity" | "id" | "second" => true,
        "fields" => kind == OpKind::Upsert,
        _ => false,
    }
}

/// The name of the first member that an operation of that kind doesn't have.
pub fn unknown_member(kind: OpKind, members: &Map<String, Value>) -> Option<&str>
    ensures { option_map (λ name. name.now) result
        ≡ unknown (names kind) (members_view members.now.entries) }
{
    for (name, _) in members.iter() {
        if !is_known(kind, name.as_str()) {
            return Some(name.as_str());
        }
    }
    None
}
