//! The row that an upsert leaves.
ghost use Rattle.std.specs.Prelude.{◌≡◌, ◌==◌, ◌<◌, length, position, IfOk, OnOk, IfSome, is_some, nat_le};
ghost use Rattle.std.specs.List.{fold};
ghost use Rattle.std.specs.Ordering.{nat_cmp};
ghost use Rattle.keyed.specs.Keyed.{put, without};
ghost use Rattle.shop_defs.specs.Rows.{field_in};
ghost use Rattle.shop_operations.specs.Upserts as spec;

use shop_defs::{Copied, FieldInfo, Key, List, NoMemory, Op, Row, Value, fields_of, preset_value};
use std::alloc::Global;

/// A row without fields at the key. It takes no memory.
pub fn bare_row(alloc: Global, key: Key) -> Row
    ensures { result ≡ spec.bare_row key }
{
    Row {
        key,
        fields: List::new(alloc),
        ops: List::new(alloc),
    }
}

/// The row with what the operation gives, where null takes a field out, and then with the presets
/// of the fields that would be null. Want of memory is the only error.
pub fn given_to(alloc: Global, row: Row, op: &Op) -> Result<Row, NoMemory>
    ensures { IfOk result (λ left. left ≡ spec.given_to row op.now) }
{
    let Row { key, fields, ops } = row;
    let mut fields = fields.into_vec();
    give_all(alloc, &mut fields, op.fields.as_slice())?;
    fill_all(alloc, &mut fields, fields_of(key.entity))?;
    Ok(Row {
        key,
        fields: List::from_vec(fields),
        ops,
    })
}

fn give_all(
    alloc: Global,
    fields: &mut Vec<(u8, Value)>,
    given: &[(u8, Option<Value>)],
) -> Result<(), NoMemory>
    ensures { OnOk result (fields.new.items ≡ fold spec.give fields.old.items given.now) }
{
    for (number, value) in given {
        give(fields, *number, value.copy(alloc)?)?;
    }
    Ok(())
}

fn fill_all(
    alloc: Global,
    fields: &mut Vec<(u8, Value)>,
    table: &[FieldInfo],
) -> Result<(), NoMemory>
    ensures { OnOk result (fields.new.items ≡ fold spec.fill fields.old.items table.now) }
{
    for field in table {
        fill(alloc, fields, field)?;
    }
    Ok(())
}

/// Gives the field its preset where it holds nothing.
fn fill(alloc: Global, fields: &mut Vec<(u8, Value)>, field: &FieldInfo) -> Result<(), NoMemory>
    ensures { OnOk result (fields.new.items ≡ spec.fill fields.old.items field.now) }
{
    if holds(fields.as_slice(), field.number) {
        return Ok(());
    }
    let preset = preset_value(alloc, field)?;
    give(fields, field.number, preset)
}

/// Whether the field of that number holds a value.
fn holds(fields: &[(u8, Value)], number: u8) -> bool
    ensures { result ≡ is_some (field_in fields.now number) }
{
    let mut rest = fields;
    while let [(at, _), more @ ..] = rest {
        if *at == number {
            return true;
        }
        rest = more;
    }
    false
}

/// Puts the value in the field of that number, or empties it.
fn give(fields: &mut Vec<(u8, Value)>, number: u8, value: Option<Value>) -> Result<(), NoMemory>
    ensures { OnOk result (fields.new.items ≡ spec.give fields.old.items (number, value)) }
{
    match value {
        Some(value) => put_field(fields, number, value),
        None => {
            take_out(fields, number);
            Ok(())
        }
    }
}

fn put_field(fields: &mut Vec<(u8, Value)>, number: u8, value: Value) -> Result<(), NoMemory>
    ensures { OnOk result (fields.new.items ≡ put nat_cmp spec.field_number fields.old.items (number, value)) }
{
    match first_from(fields.as_slice(), number) {
        Some(at) if fields[at].0 == number => {
            fields[at] = (number, value);
            Ok(())
        }
        Some(at) => Ok(fields.insert(at, (number, value))?),
        None => Ok(fields.push((number, value))?),
    }
}

/// The place of the first field whose number isn't below that one.
fn first_from(fields: &[(u8, Value)], number: u8) -> Option<usize>
    ensures place { result ≡ position (λ field. nat_le number field.0) fields.now }
    ensures within { IfSome result (λ at. at < length fields.now) }
{
    fields.iter().position(|field| number <= field.0)
}

fn take_out(fields: &mut Vec<(u8, Value)>, number: u8)
    ensures { fields.new.items ≡ without nat_cmp spec.field_number fields.old.items number }
{
    if let Some(at) = place_of(fields.as_slice(), number) {
        let _ = fields.remove(at);
    }
}

/// The place of the first field with that number.
fn place_of(fields: &[(u8, Value)], number: u8) -> Option<usize>
    ensures place { result ≡ position (λ field. field.0 == number) fields.now }
    ensures within { IfSome result (λ at. at < length fields.now) }
{
    fields.iter().position(|field| field.0 == number)
}
