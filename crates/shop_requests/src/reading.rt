//! Operations, read by the tables of entities and fields.
ghost use Rattle.std.specs.Prelude.{◌≡◌, ◌≢◌, Some, None, IsTrue, IsSome, IsErrOf, OnOk, IfOk, IfErr, Ok};
ghost use Rattle.std.specs.List.{list_all};
ghost use Rattle.std.specs.Option.{option_copied, option_map};
ghost use Rattle.std.specs.Ordering.{nat_cmp, is_lt};
ghost use Rattle.std.specs.Cmp.Lexicographic.{slice_cmp};
ghost use Rattle.keyed.specs.Keyed.{Ascends};
ghost use Rattle.shop_defs.specs.declared.refused.PlanFault.TheVariants as F;
ghost use Rattle.shop_defs.specs.Tables as Tables;
ghost use Rattle.shop_defs.specs.Fitting as Fitting;
ghost use Rattle.shop_requests.specs.Operations as spec;
ghost use Rattle.shop_requests.specs.Places as Places;

use crate::check::{ValueFault, copy_kept, value_fault};
use crate::raw::{Raw, RawOp};
use shop_defs::{
    Broken, Entity, EntityInfo, FieldInfo, KeyForm, List, NoMemory, Op, PlanFault, Refused, Txt,
    Value, field_with_name, fields_of, info_named,
};
use std::alloc::Global;
use std::cmp::Ordering;

/// The operation with its entity and its fields by number, the fields in the order of their numbers.
///
/// Of a field that is given twice the last counts, yet each that is given has to keep the rules. The rules are tried in this order, each over all
/// fields before the next, and of several places the one with the least name by its bytes is named:
///
/// - `UnknownEntity`: no entity has the name, or operations may not write it.
/// - `UnknownField`: the entity has no field of that name.
/// - `WrongKind`: a value isn't of its field's kind, or (as field `second`) a second part is given
///   for a key of one part or missing for a key of two.
/// - `OutOfRange`: a value of the right kind is outside its field's range or choices.
///
/// A refusal's number of the operation is 0. The other error is want of memory.
#[tactic(auto, unfolding(crate::specs::Operations::reading))]
pub fn read_op(alloc: Global, op: &RawOp) -> Result<Op, PlanFault>
    ensures ok { IfOk result (λ read. spec.reading op.now ≡ Ok read) }
    ensures ascends { IfOk result (λ read. Ascends nat_cmp (λ field. field.0) read.fields) }
    ensures writable { IfOk result (λ read. IsTrue (Fitting.is_writable read.entity)) }
    ensures fits { IfOk result (λ read. IsTrue (list_all (Fitting.given_fits read.entity) read.fields)) }
    // The key of an operation with an id is of its entity's form.
    ensures key { IfOk result (λ read. op.now.id ≢ 0 → IsTrue (Fitting.parts_fit read.entity read.id read.second)) }
    ensures fault { IfErr result (spec.IsFaultOf op.now) }
    // In words: the refusal is by the first broken rule, the named place breaks it, and none with a
    // lesser name does.
    ensures first { IfErr result (Places.NamesFirst op.now) }
    ensures kept { OnOk result (Places.KeepsRules op.now) }
    // A name that operations may not write is answered without memory.
    ensures wanted { IsErrOf result PlanFault.NoMemory → IsSome (spec.if_writable (Tables.info_named op.now.entity)) }
{
    let Some(info) = writable_named(op.entity.as_bytes()) else {
        return Err(refused(Broken::UnknownEntity));
    };
    match refusal(alloc, info, op) {
        Ok(Some(broken)) => Err(refused(broken)),
        Ok(None) => match read(alloc, info, op) {
            Ok(read) => Ok(read),
            Err(NoMemory) => Err(PlanFault::NoMemory),
        },
        Err(NoMemory) => Err(PlanFault::NoMemory),
    }
}

fn refused(broken: Broken) -> PlanFault
    ensures { result ≡ F.Refused (record { op = 0; broken = broken }) }
{
    PlanFault::Refused(Refused { op: 0, broken })
}

/// What the table says of the entity with that name, if operations may write it.
fn writable_named(name: &[u8]) -> Option<EntityInfo>
    ensures { result ≡ spec.if_writable (Tables.info_named name.now) }
{
    match info_named(name) {
        Some(info) if info.is_writable => Some(info),
        _ => None,
    }
}

/// The first rule that the operation breaks, if it breaks one.
#[tactic(auto, unfolding(crate::specs::Operations::refusal))]
fn refusal(alloc: Global, info: EntityInfo, op: &RawOp) -> Result<Option<Broken>, NoMemory>
    ensures { IfOk result (λ broken. broken ≡ spec.refusal info op.now) }
{
    let fields = op.fields.as_slice();
    if let Some(broken) = unknown_field(alloc, info.entity, fields)? {
        return Ok(Some(broken));
    }
    if let Some(broken) = wrong_kind(alloc, info, op.second, fields)? {
        return Ok(Some(broken));
    }
    out_of_range(alloc, info.entity, fields)
}

fn unknown_field(
    alloc: Global,
    entity: Entity,
    fields: &[(Txt, Raw)],
) -> Result<Option<Broken>, NoMemory>
    ensures { IfOk result (λ broken. broken ≡ spec.unknown_field entity fields.now) }
{
    match least_unknown(entity, fields) {
        Some(name) => Ok(Some(Broken::UnknownField {
            field: Txt::from_str(alloc, name)?,
        })),
        None => Ok(None),
    }
}

fn wrong_kind(
    alloc: Global,
    info: EntityInfo,
    second: u128,
    fields: &[(Txt, Raw)],
) -> Result<Option<Broken>, NoMemory>
    ensures { IfOk result (λ broken. broken ≡ spec.wrong_kind info second fields.now) }
{
    match least_wrong(info.entity, wrong_second(info.key, second), fields) {
        Some(name) => Ok(Some(Broken::WrongKind {
            field: Txt::from_str(alloc, name)?,
        })),
        None => Ok(None),
    }
}

fn out_of_range(
    alloc: Global,
    entity: Entity,
    fields: &[(Txt, Raw)],
) -> Result<Option<Broken>, NoMemory>
    ensures { IfOk result (λ broken. broken ≡ spec.out_of_range entity fields.now) }
{
    match least_beyond(entity, fields) {
        Some(place) => Ok(Some(Broken::OutOfRange {
            field: Txt::from_str(alloc, place.name)?,
            value: place.value,
        })),
        None => Ok(None),
    }
}

/// Whether the first name is below the second by its bytes.
fn is_below(name: &str, other: &str) -> bool
    ensures { result ≡ is_lt (slice_cmp nat_cmp name.now other.now) }
{
    match name.as_bytes().cmp(other.as_bytes()) {
        Ordering::Less => true,
        Ordering::Equal | Ordering::Greater => false,
    }
}

fn lesser<'a>(best: Option<&'a str>, name: &'a str) -> Option<&'a str>
    ensures { option_copied result ≡ spec.lesser (option_copied best.entry) name.entry.now }
{
    match best {
        None => Some(name),
        Some(other) if is_below(name, other) => Some(name),
        Some(other) => Some(other),
    }
}

/// The least name that no field of the entity has.
fn least_unknown(entity: Entity, fields: &[(Txt, Raw)]) -> Option<&str>
    ensures { option_copied result ≡ spec.least_name (spec.is_unknown entity) None fields.now }
{
    let mut best = None;
    for (name, _) in fields {
        if field_with_name(entity, name.as_bytes()).is_none() {
            best = lesser(best, name.as_str());
        }
    }
    best
}

/// The place of the second part, if it is given for a key of one part or missing for one of two.
fn wrong_second(key: KeyForm, second: u128) -> Option<&'static str>
    ensures { option_copied result ≡ spec.wrong_second key second }
{
    match (key, second) {
        (KeyForm::OnePart, 0) => None,
        (KeyForm::OnePart, _) => Some("second"),
        (KeyForm::TwoParts, 0) => Some("second"),
        (KeyForm::TwoParts, _) => None,
    }
}

/// Why the entity's field with that name can't hold a value. An unknown field has no fault.
fn fault_at(entity: Entity, name: &Txt, value: &Raw) -> Option<ValueFault>
    ensures { result ≡ spec.fault_at entity (name.now, value.now) }
{
    match field_with_name(entity, name.as_bytes()) {
        Some(info) => value_fault(info.kind, value),
        None => None,
    }
}

fn is_of_wrong_kind(entity: Entity, name: &Txt, value: &Raw) -> bool
    ensures { result ≡ spec.is_wrong entity (name.now, value.now) }
{
    match fault_at(entity, name, value) {
        Some(ValueFault::WrongKind) => true,
        _ => false,
    }
}

/// The least of a first name, if there is one, and of the names of fields with a value of the wrong
/// kind.
fn least_wrong<'a>(
    entity: Entity,
    first: Option<&'a str>,
    fields: &'a [(Txt, Raw)],
) -> Option<&'a str>
    ensures { option_copied result ≡ spec.least_name (spec.is_wrong entity) (option_copied first.entry) fields.entry.now }
{
    let mut best = first;
    for (name, value) in fields {
        if is_of_wrong_kind(entity, name, value) {
            best = lesser(best, name.as_str());
        }
    }
    best
}

/// A field with a value out of range.
#[derive(Drop, Clone, Copy)]
struct Place<'a> {
    name: &'a str,
    /// The number, or the length of the text in bytes.
    value: i128,
}

fn value_beyond(entity: Entity, name: &Txt, value: &Raw) -> Option<i128>
    ensures { result ≡ spec.value_beyond (spec.fault_at entity (name.now, value.now)) }
{
    match fault_at(entity, name, value) {
        Some(ValueFault::OutOfRange { value }) => Some(value),
        _ => None,
    }
}

fn lesser_place<'a>(best: Option<Place<'a>>, place: Place<'a>) -> Option<Place<'a>>
    ensures { option_map (λ place. (place.name.now, place.value)) result ≡ spec.lesser_beyond (option_map (λ place. (place.name.now, place.value)) best.entry) place.entry.name.now (Some place.entry.value) }
{
    match best {
        None => Some(place),
        Some(other) if is_below(place.name, other.name) => Some(place),
        Some(other) => Some(other),
    }
}

/// The field with the least name of those with a value out of range.
fn least_beyond(entity: Entity, fields: &[(Txt, Raw)]) -> Option<Place<'_>>
    ensures { option_map (λ place. (place.name.now, place.value)) result ≡ spec.least_beyond entity fields.now }
{
    let mut best = None;
    for (name, value) in fields {
        if let Some(value) = value_beyond(entity, name, value) {
            let name = name.as_str();
            best = lesser_place(best, Place { name, value });
        }
    }
    best
}

/// The operation, of which each field is one of the entity's and holds a value of its kind.
#[tactic(auto, unfolding(crate::specs::Operations::read))]
fn read(alloc: Global, info: EntityInfo, op: &RawOp) -> Result<Op, NoMemory>
    ensures { IfOk result (λ read. read ≡ spec.read info op.now) }
{
    Ok(Op {
        kind: op.kind,
        entity: info.entity,
        id: op.id,
        second: op.second,
        fields: read_in(alloc, fields_of(info.entity), op.fields.as_slice())?,
    })
}

/// The fields of the table that are given, in its order.
fn read_in(
    alloc: Global,
    table: &[FieldInfo],
    fields: &[(Txt, Raw)],
) -> Result<List<(u8, Option<Value>)>, NoMemory>
    ensures { IfOk result (λ read. read ≡ spec.read_in table.now fields.now) }
{
    let mut read = List::from_vec(Vec::with_capacity(alloc, fields.len())?);
    for info in table {
        if let Some(field) = read_field(alloc, *info, fields)? {
            read.push(field)?;
        }
    }
    Ok(read)
}

/// A field as the operation gives it: `None` where it doesn't give it.
fn read_field(
    alloc: Global,
    info: FieldInfo,
    fields: &[(Txt, Raw)],
) -> Result<Option<(u8, Option<Value>)>, NoMemory>
    ensures { IfOk result (λ read. read ≡ spec.read_field fields.now info) }
{
    match given(fields, info.name.text()) {
        Some(value) => {
            let kept = copy_kept(alloc, info.kind, value)?;
            Ok(Some((info.number, kept)))
        }
        None => Ok(None),
    }
}

/// What is given for the field with that name: the last, if it is given twice.
fn given<'a>(fields: &'a [(Txt, Raw)], name: &str) -> Option<&'a Raw>
    ensures { option_copied result ≡ spec.given fields.entry.now name.now }
{
    let mut found = None;
    for (other, value) in fields {
        if other.as_bytes() == name.as_bytes() {
            found = Some(value);
        }
    }
    found
}
