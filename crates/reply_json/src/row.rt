//! What replies say of rows.
ghost use Rattle.std.specs.Prelude.{◌≡◌, ◌++◌, ◌∷◌, [], map, IfOk, OnOk};
ghost use Rattle.std.specs.Option.{option_copied, option_map};
ghost use Rattle.serde_json.specs.Data.{array};
ghost use Rattle.serde_json.specs.View.{items_of};
ghost use Rattle.serde_json.specs.Written.{compact_text};
ghost use Rattle.shop_chain.specs.Showing.{lent};
ghost use Rattle.shop_defs.specs.Rows.{field_of};
ghost use Rattle.reply_json.specs.FieldOrder.{fields_at, fields_by_name};
ghost use Rattle.reply_json.specs.RowReplies as spec;
ghost use Rattle.reply_json.specs.Tokens.{rest_of_array, rest_of_object, value_tokens};

use crate::body::Body;
use crate::day::day_text;
use crate::order::places_by_name;
use shop_chain::ShownValue;
use shop_defs::{FieldInfo, FieldKind, List, NoMemory, Row, Txt, Value, fields_of, is_day_number};
use sqlite_items::at;
use std::alloc::Global;
use std::mem;

/// The body that shows a row: `{"fields":{..},"key":K}` with the fields that aren't null, and behind
/// them, where it is given, `"shown":{..}` with each name that is given and its value, or null.
///
/// The names that are shown have to ascend by their bytes, if the body is to have its members in
/// order. Want of memory is the only error.
pub fn row_text(
    alloc: Global,
    row: &Row,
    shown: Option<&[(Txt, Option<Value>)]>,
) -> Result<List<u8>, NoMemory>
    ensures { IfOk result (λ body. body ≡ compact_text (spec.row_data row.now (option_map (λ given. given.now) shown.entry))) }
{
    let mut out = Body::new(alloc)?;
    put_row(&mut out, row, shown)?;
    Ok(out.finish())
}

/// Prints the body that shows a row with what is lent to be shown beside it: that of `row_text`,
/// without a copy, into memory that the caller keeps for this. What was there is let go, and no memory
/// is taken where there is enough. Want of memory is the only error.
pub fn seen_text(
    alloc: Global,
    room: &mut Vec<u8>,
    row: &Row,
    shown: Option<&[ShownValue<'_>]>,
) -> Result<(), NoMemory>
    ensures { OnOk result (room.new.items ≡ compact_text (spec.row_data row.now (option_map (λ given. lent given.now) shown.entry))) }
{
    let mut out = Body::over(mem::replace(room, Vec::new(alloc)));
    put_seen(&mut out, row, shown)?;
    *room = out.into_room();
    Ok(())
}

/// Prints the body that shows rows into the room, as `seen_text` does: `{"rows":[..]}`, each as
/// `row_text` shows it with nothing beside it. Want of memory is the only error.
pub fn rows_text(alloc: Global, room: &mut Vec<u8>, rows: &[&Row]) -> Result<(), NoMemory>
    ensures { OnOk result (room.new.items ≡ compact_text (spec.rows_data (map (λ row. row.now) rows.now))) }
{
    let mut out = Body::over(mem::replace(room, Vec::new(alloc)));
    put_rows(&mut out, rows)?;
    *room = out.into_room();
    Ok(())
}

fn put_rows(out: &mut Body, rows: &[&Row]) -> Result<(), NoMemory>
    ensures { OnOk result (out.new ≡ out.old ++ value_tokens (spec.rows_data (map (λ row. row.now) rows.now))) }
{
    out.begin_object()?;
    out.name("rows")?;
    out.begin_array()?;
    put_each(out, rows)?;
    out.end_object()
}

/// Puts rows, and the end of their array.
fn put_each(out: &mut Body, rows: &[&Row]) -> Result<(), NoMemory>
    ensures { OnOk result (out.new ≡ out.old ++ rest_of_array (spec.row_items (map (λ row. row.now) rows.now))) }
{
    for row in rows {
        put_row(out, row, None)?;
    }
    out.end_array()
}

fn put_row(
    out: &mut Body,
    row: &Row,
    shown: Option<&[(Txt, Option<Value>)]>,
) -> Result<(), NoMemory>
    ensures { OnOk result (out.new ≡ out.old ++ value_tokens (spec.row_data row.now (option_map (λ given. given.now) shown.entry))) }
{
    out.begin_object()?;
    out.name("fields")?;
    put_fields(out, row)?;
    out.key_member("key", &row.key)?;
    put_shown_part(out, shown)?;
    out.end_object()
}

/// Puts a row with what is lent to be shown beside it.
fn put_seen(out: &mut Body, row: &Row, shown: Option<&[ShownValue<'_>]>) -> Result<(), NoMemory>
    ensures { OnOk result (out.new ≡ out.old ++ value_tokens (spec.row_data row.now (option_map (λ given. lent given.now) shown.entry))) }
{
    out.begin_object()?;
    out.name("fields")?;
    put_fields(out, row)?;
    out.key_member("key", &row.key)?;
    put_lent_part(out, shown)?;
    out.end_object()
}

/// Puts the fields of the row that aren't null.
fn put_fields(out: &mut Body, row: &Row) -> Result<(), NoMemory>
    ensures { OnOk result (out.new ≡ out.old ++ value_tokens (spec.fields_data row.now)) }
{
    let entity = row.key.entity;
    out.begin_object()?;
    put_fields_at(out, row, fields_of(entity), places_by_name(entity))
}

/// Puts the fields of the row that aren't null, by their places in the table, and the end of their
/// object.
fn put_fields_at(
    out: &mut Body,
    row: &Row,
    table: &[FieldInfo],
    places: &[usize],
) -> Result<(), NoMemory>
    ensures { OnOk result (out.new ≡ out.old ++ rest_of_object (spec.field_members row.now (fields_at table.now places.now))) }
{
    for place in places {
        put_field(out, row, at(table, *place))?;
    }
    out.end_object()
}

fn put_field(out: &mut Body, row: &Row, field: Option<&FieldInfo>) -> Result<(), NoMemory>
    ensures { OnOk result (out.new ≡ out.old ++ spec.field_tokens row.now (option_copied field.entry)) }
{
    let Some(field) = field else {
        return Ok(());
    };
    match row.field(field.number) {
        Some(value) => {
            out.name(field.name.text())?;
            put_field_value(out, &field.kind, value)
        }
        None => Ok(()),
    }
}

fn put_field_value(out: &mut Body, kind: &FieldKind, value: &Value) -> Result<(), NoMemory>
    ensures { OnOk result (out.new ≡ out.old ++ value_tokens (spec.field_data kind.now value.now)) }
{
    match (kind, value) {
        (FieldKind::Day, Value::Int(days)) => put_day(out, days),
        _ => put_value(out, value),
    }
}

fn put_value(out: &mut Body, value: &Value) -> Result<(), NoMemory>
    ensures { OnOk result (out.new ≡ out.old ++ value_tokens (spec.value_data value.now)) }
{
    match value {
        Value::Flag(flag) => out.flag(*flag),
        Value::Int(amount) => out.number(*amount),
        Value::Text(text) => out.text(text.as_str()),
        Value::Ident(id) => out.id(*id),
    }
}

/// Puts what is shown beside a row, where it is given.
fn put_shown_part(out: &mut Body, shown: Option<&[(Txt, Option<Value>)]>) -> Result<(), NoMemory>
    ensures { OnOk result (out.new ≡ out.old ++ spec.shown_tokens (option_map (λ given. given.now) shown.entry)) }
{
    let Some(shown) = shown else {
        return Ok(());
    };
    out.name("shown")?;
    out.begin_object()?;
    put_shown(out, shown)
}

/// Puts names with the values that are shown for them, and the end of their object.
fn put_shown(out: &mut Body, shown: &[(Txt, Option<Value>)]) -> Result<(), NoMemory>
    ensures { OnOk result (out.new ≡ out.old ++ rest_of_object (spec.shown_members shown.now)) }
{
    for (name, value) in shown {
        out.name(name.as_str())?;
        put_value_or_null(out, value.as_ref())?;
    }
    out.end_object()
}

/// Puts what is lent to be shown beside a row, where it is given.
fn put_lent_part(out: &mut Body, shown: Option<&[ShownValue<'_>]>) -> Result<(), NoMemory>
    ensures { OnOk result (out.new ≡ out.old ++ spec.shown_tokens (option_map (λ given. lent given.now) shown.entry)) }
{
    let Some(shown) = shown else {
        return Ok(());
    };
    out.name("shown")?;
    out.begin_object()?;
    put_lent(out, shown)
}

/// Puts names with the values that are lent for them, and the end of their object.
fn put_lent(out: &mut Body, shown: &[ShownValue<'_>]) -> Result<(), NoMemory>
    ensures { OnOk result (out.new ≡ out.old ++ rest_of_object (spec.shown_members (lent shown.now))) }
{
    for value in shown {
        out.name(value.name.text())?;
        put_value_or_null(out, value.value)?;
    }
    out.end_object()
}

fn put_value_or_null(out: &mut Body, value: Option<&Value>) -> Result<(), NoMemory>
    ensures { OnOk result (out.new ≡ out.old ++ value_tokens (spec.value_or_null (option_copied value.entry))) }
{
    match value {
        Some(value) => put_value(out, value),
        None => out.null(),
    }
}

fn put_day(out: &mut Body, days: &i64) -> Result<(), NoMemory>
    ensures { OnOk result (out.new ≡ out.old ++ value_tokens (spec.day_data days.now)) }
{
    if is_day_number(*days) {
        out.text(day_text(*days).as_str())
    } else {
        out.number(*days)
    }
}
