//! A fingerprint of what is unique about a row, by which rows with the same unique fields are found.
ghost use Rattle.std.specs.Prelude.{◌≡◌, ◌++◌, ◌∷◌, ℕ, List, take};
ghost use Rattle.std.specs.List.{flat_map, list_all};
ghost use Rattle.std.specs.Option.{option_copied};
ghost use Rattle.sha2.specs.Hashers.{Holds256};
ghost use Rattle.sha2.specs.Sha256.{sha256};
ghost use Rattle.shop_rows.specs.Prints as spec;

use sha2::{Digest, Sha256};
use shop_defs::{FieldInfo, Row, Value, fields_of};
use shop_operations::has_unique;

/// The fingerprint of the row's entity, the version and the row's unique fields: `None` where one of
/// them is null, and where the entity has no unique fields. Rows that are equal in all this have
/// equal fingerprints. It takes no memory.
///
/// It is the first half of a digest by SHA-256 (FIPS 180-4). The values are the caller's to choose,
/// and each row with the fingerprint of another is one more to compare with: so it is a hash for
/// which nobody can make equal ones. In 128 bits the shortest known way to two that are equal takes
/// some 2^64 tries, and the whole digest would take twice the room beside each row. No answer rests
/// on it: rows that are found by it are then compared, field by field.
#[tactic(auto, unfolding(crate::specs::Prints::print_in))]
pub(crate) fn print_in(version: u128, row: &Row) -> Option<u128>
    ensures { result ≡ spec.print_in version row.now }
{
    if has_print(row) {
        return Some(half_digest(version, row));
    }
    None
}

/// Whether the row's entity has unique fields, and the row has each of them.
fn has_print(row: &Row) -> bool
    ensures { result ≡ spec.has_print row.now }
{
    has_unique(row.key.entity) && has_each(fields_of(row.key.entity), row)
}

fn has_each(fields: &[FieldInfo], row: &Row) -> bool
    ensures { result ≡ list_all (spec.has_where_unique row.now) fields.now }
{
    fields.iter().all(|field| has_where_unique(row, field))
}

fn has_where_unique(row: &Row, field: &FieldInfo) -> bool
    ensures { result ≡ spec.has_where_unique row.now field.now }
{
    !field.marks.unique || row.field(field.number).is_some()
}

/// The first half of the digest, as a number.
fn half_digest(version: u128, row: &Row) -> u128
    ensures { result ≡ spec.half_digest (spec.message version row.now) }
{
    let mut hasher = Sha256::new();
    hasher.update([row.key.entity.number()]);
    hasher.update(version.to_be_bytes());
    let hasher = with_fields(hasher, fields_of(row.key.entity), row);
    first_half(&hasher.finalize())
}

fn first_half(digest: &[u8; 32]) -> u128
    ensures { result ≡ spec.first_half digest.now }
{
    match digest.first_chunk() {
        Some(half) => u128::from_be_bytes(*half),
        None => 0,
    }
}

fn with_fields(hasher: Sha256, fields: &[FieldInfo], row: &Row) -> Sha256
    ensures { (message : List ℕ) → Holds256 hasher message → Holds256 result (message ++ flat_map (spec.field_bytes row.now) fields.now) }
{
    let mut hasher = hasher;
    for field in fields {
        hasher = with_field(hasher, field, row);
    }
    hasher
}

fn with_field(hasher: Sha256, field: &FieldInfo, row: &Row) -> Sha256
    ensures { (message : List ℕ) → Holds256 hasher message → Holds256 result (message ++ spec.field_bytes row.now field.now) }
{
    if field.marks.unique {
        return with_given(hasher, row.field(field.number));
    }
    hasher
}

fn with_given(hasher: Sha256, value: Option<&Value>) -> Sha256
    ensures { (message : List ℕ) → Holds256 hasher message → Holds256 result (message ++ spec.given_bytes (option_copied value.entry)) }
{
    match value {
        Some(value) => with_value(hasher, value),
        None => hasher,
    }
}

fn with_value(hasher: Sha256, value: &Value) -> Sha256
    ensures { (message : List ℕ) → Holds256 hasher message → Holds256 result (message ++ spec.value_bytes value.now) }
{
    match value {
        Value::Flag(flag) => with_bytes(hasher, 0, &[u8::from(*flag)]),
        Value::Int(number) => with_bytes(hasher, 1, &number.to_be_bytes()),
        Value::Text(text) => with_text(hasher, text.as_bytes()),
        Value::Ident(id) => with_bytes(hasher, 3, &id.to_be_bytes()),
    }
}

fn with_text(hasher: Sha256, text: &[u8]) -> Sha256
    ensures { (message : List ℕ) → Holds256 hasher message → Holds256 result (message ++ spec.text_bytes text.now) }
{
    let mut hasher = with_bytes(hasher, 2, &text.len().to_be_bytes());
    hasher.update(text);
    hasher
}

fn with_bytes(hasher: Sha256, kind: u8, bytes: &[u8]) -> Sha256
    ensures { (message : List ℕ) → Holds256 hasher message → Holds256 result (message ++ (kind ∷ bytes.now)) }
{
    let mut hasher = hasher;
    hasher.update([kind]);
    hasher.update(bytes);
    hasher
}
