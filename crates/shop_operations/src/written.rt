//! The rules on a written row that need no other row, and what its operation gives.
ghost use Rattle.std.specs.Prelude.{◌≡◌, ◌&&◌, IfOk, OnErr, IsSome, not, is_none, option_and_then, unwrap_or};
ghost use Rattle.std.specs.Option.{option_copied};
ghost use Rattle.std.specs.Ordering.{nat_cmp, is_lt};
ghost use Rattle.std.specs.Cmp.Lexicographic.{slice_cmp};
ghost use Rattle.shop_defs.specs.declared.broken.Broken.TheVariants as B;
ghost use Rattle.shop_defs.specs.Rows.{field_of};
ghost use Rattle.shop_operations.specs.Parents as parents;
ghost use Rattle.shop_operations.specs.References as references;
ghost use Rattle.shop_operations.specs.Upserts as spec;

use crate::references::named;
use crate::twins::agree_in;
use shop_defs::{
    Broken, Entity, FieldInfo, NoMemory, Op, Part, REFERENCES, Reference, Row, Txt, fields_of,
};
use std::alloc::Global;
use std::cmp::Ordering;

/// The refusal of a fixed field that the row held before and that has another value in it now: the
/// field with the least name. Want of memory is the only error, and comes only of a refusal.
pub fn fixed_field(
    alloc: Global,
    before: Option<&Row>,
    row: &Row,
) -> Result<Option<Broken>, NoMemory>
    ensures broken { IfOk result (λ broken. broken ≡ spec.fixed_field (option_copied before.entry) row.now) }
    ensures wanted { OnErr result (IsSome (spec.fixed_field (option_copied before.entry) row.now)) }
{
    match first_fixed(before, row) {
        Some(field) => Ok(Some(Broken::FixedField {
            field: Txt::from_str(alloc, field.name.text())?,
        })),
        None => Ok(None),
    }
}

/// The refusal of a required field that is null in the row: the field with the least name. Want of
/// memory is the only error, and comes only of a refusal.
pub fn missing_required(alloc: Global, row: &Row) -> Result<Option<Broken>, NoMemory>
    ensures broken { IfOk result (λ broken. broken ≡ spec.missing_required row.now) }
    ensures wanted { OnErr result (IsSome (spec.missing_required row.now)) }
{
    match first_missing(row) {
        Some(field) => Ok(Some(Broken::MissingRequired {
            field: Txt::from_str(alloc, field.name.text())?,
        })),
        None => Ok(None),
    }
}

/// The fixed field with the least name that has another value in the row than before: none where
/// the row wasn't there before. It takes no memory.
pub fn first_fixed(before: Option<&Row>, row: &Row) -> Option<FieldInfo>
    ensures { result ≡ option_and_then (λ before. spec.least_field row.now.key.entity (λ field. field.marks.fixed && not (spec.agree_in field.number before row.now))) (option_copied before.entry) }
{
    match before {
        Some(before) => first_changed(before, row),
        None => None,
    }
}

fn first_changed(before: &Row, row: &Row) -> Option<FieldInfo>
    ensures { result ≡ spec.least_field row.now.key.entity (λ field. field.marks.fixed && not (spec.agree_in field.number before.now row.now)) }
{
    let mut best = None;
    for field in fields_of(row.key.entity) {
        if field.marks.fixed && !agree_in(field.number, before, row) {
            best = lesser(best, field);
        }
    }
    best
}

/// The required field with the least name that is null in the row. It takes no memory.
pub fn first_missing(row: &Row) -> Option<FieldInfo>
    ensures { result ≡ spec.least_field row.now.key.entity (λ field. field.marks.required && is_none (field_of row.now field.number)) }
{
    let mut best = None;
    for field in fields_of(row.key.entity) {
        if field.marks.required && row.field(field.number).is_none() {
            best = lesser(best, field);
        }
    }
    best
}

/// The one with the lesser name, by its bytes.
fn lesser(best: Option<FieldInfo>, field: &FieldInfo) -> Option<FieldInfo>
    ensures { result ≡ spec.lesser spec.field_name best field.now }
{
    match best {
        Some(other) if !is_below(field.name.text(), other.name.text()) => Some(other),
        _ => Some(*field),
    }
}

/// Whether the first name is below the second by its bytes.
fn is_below(name: &str, other: &str) -> bool
    ensures { result ≡ is_lt (slice_cmp nat_cmp name.now other.now) }
{
    match name.as_bytes().cmp(other.as_bytes()) {
        Ordering::Less => true,
        Ordering::Equal | Ordering::Greater => false,
    }
}

/// Whether the operation gives the field of that number, be it null.
pub fn gives(op: &Op, number: u8) -> bool
    ensures { result ≡ spec.gives op.now number }
{
    op.fields.iter().any(|entry| entry.0 == number)
}

/// Whether the operation gives what stands in that part of its row: it always gives both parts of
/// the key.
pub fn gives_part(op: &Op, part: Part) -> bool
    ensures { result ≡ spec.gives_part op.now part }
{
    match part {
        Part::Field(number) => gives(op, number),
        Part::Id | Part::Second => true,
    }
}

/// Whether the operation gives the parent of its row, be it null.
pub fn gives_parent(op: &Op) -> bool
    ensures { result ≡ spec.gives_parent op.now }
{
    REFERENCES.iter().any(|reference| is_parental(op.entity, reference)
        && gives_part(op, reference.part))
}

/// Whether rows of the entity have their parents by the reference.
fn is_parental(entity: Entity, reference: &Reference) -> bool
    ensures { result ≡ parents.is_parental entity reference.now }
{
    reference.entity == entity && reference.of == entity
}

/// The id of the row's parent: `None` where it has none. It takes no memory.
pub fn parent_id(row: &Row) -> Option<u128>
    ensures { result ≡ parents.parent_id REFERENCES row.now }
{
    parent_in(&REFERENCES, row)
}

#[tactic(auto, unfolding(crate::specs::Parents::parent_id))]
fn parent_in(table: &[Reference], row: &Row) -> Option<u128>
    ensures { result ≡ parents.parent_id table.now row.now }
{
    let mut rest = table;
    while let [reference, more @ ..] = rest {
        if is_parental(row.key.entity, reference) {
            return named(reference, row);
        }
        rest = more;
    }
    None
}

/// The refusal of what the row names by the reference. Want of memory is the only error.
pub fn refuse_reference(alloc: Global, reference: &Reference, row: &Row) -> Result<Broken, NoMemory>
    ensures { IfOk result (λ broken. broken ≡ B.MissingReference (spec.reference_name reference.now) (unwrap_or (references.named reference.now row.now) 0)) }
{
    Ok(Broken::MissingReference {
        field: Txt::from_str(alloc, reference_name(reference))?,
        id: named(reference, row).unwrap_or(0),
    })
}

/// The name of the part in which the reference stands.
pub fn reference_name(reference: &Reference) -> &'static str
    ensures { result.now ≡ spec.reference_name reference.now }
{
    match reference.part.name(reference.entity) {
        Some(name) => name,
        None => "",
    }
}
