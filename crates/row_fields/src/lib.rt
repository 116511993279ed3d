//! What the fields of rows hold, as numbers, texts, ids and flags, with their bounds from the table.
//!
//! # What is promised
//!
//! - `int_at`, `text_at`, `id_at`, `is_set` and `is_text_at` give what the row's own field of that
//!   number holds, and nothing where it holds another kind of value (`value`).
//! - What `int_at` gives of a row that was checked lies in the bounds that the table has for the
//!   field, and the length of what `text_at` gives does (`bounds`).
//! - `lies` says whether a number lies between two bounds, of which none is no bound.
//!
//! Nothing here takes memory, and what is lent lives as long as the row.
#![tactic(auto)]

ghost use Rattle.std.specs.Prelude.{◌≡◌, ℕ, ℤ, IfSome, option_and_then};
ghost use Rattle.std.specs.Option.{option_copied};
ghost use Rattle.shop_defs.specs.declared.entity.Entity.{Entity as TheEntity};
ghost use Rattle.row_fields.specs.Checked.{IsRowOf, HoldsNumbers, HoldsTexts, Lies, HasLength};
ghost use Rattle.row_fields.specs.Fields as spec;

use shop_defs::{Row, Value};

/// The number that the row's field of that number holds: `None` where it holds none.
pub fn int_at(row: &Row, field: u8) -> Option<i64>
    ensures value { result ≡ spec.int_at row.now field }
    ensures bounds { (entity : TheEntity) (low high : ℤ) → IsRowOf entity row.now → HoldsNumbers entity field low high → IfSome result (Lies low high) }
{
    int_in(row.field(field))
}

fn int_in(value: Option<&Value>) -> Option<i64>
    ensures { result ≡ option_and_then spec.int_in (option_copied value.entry) }
{
    match value {
        Some(Value::Int(number)) => Some(*number),
        _ => None,
    }
}

/// The bytes of the text that the field holds.
pub fn text_at(row: &Row, field: u8) -> Option<&[u8]>
    ensures value { option_copied result ≡ spec.text_at row.now field }
    ensures bounds { (entity : TheEntity) (low high : ℕ) → IsRowOf entity row.now → HoldsTexts entity field low high → IfSome (option_copied result) (HasLength low high) }
{
    text_in(row.field(field))
}

fn text_in(value: Option<&Value>) -> Option<&[u8]>
    ensures { option_copied result ≡ option_and_then spec.text_in (option_copied value.entry) }
{
    match value {
        Some(Value::Text(text)) => Some(text.as_bytes()),
        _ => None,
    }
}

/// The id that the field holds.
pub fn id_at(row: &Row, field: u8) -> Option<u128>
    ensures { result ≡ spec.id_at row.now field }
{
    match row.field(field) {
        Some(Value::Ident(id)) => Some(*id),
        _ => None,
    }
}

/// Whether the field holds the flag true.
pub fn is_set(row: &Row, field: u8) -> bool
    ensures { result ≡ spec.is_set row.now field }
{
    match row.field(field) {
        Some(Value::Flag(flag)) => *flag,
        _ => false,
    }
}

/// Whether the field holds that text.
pub fn is_text_at(row: &Row, field: u8, text: &[u8]) -> bool
    ensures { result ≡ spec.is_text_at row.now field text.now }
{
    match text_at(row, field) {
        Some(held) => held == text,
        None => false,
    }
}

/// Whether a number lies between two bounds, of which none is no bound.
pub fn lies(low: Option<i64>, high: Option<i64>, number: i64) -> bool
    ensures { result ≡ spec.lies low high number }
{
    is_from(low, number) && is_to(high, number)
}

fn is_from(low: Option<i64>, number: i64) -> bool
    ensures { result ≡ spec.is_from low number }
{
    match low {
        Some(bound) => bound <= number,
        None => true,
    }
}

fn is_to(high: Option<i64>, number: i64) -> bool
    ensures { result ≡ spec.is_to high number }
{
    match high {
        Some(bound) => number <= bound,
        None => true,
    }
}
