//! What no clause says and the built program can't show: the tables as text, known ids and days, values of entities that no operation
//! writes, and that calls which the program doesn't make succeed where memory is ample.
use crate::tests::printed::{ENTITIES_AND_FIELDS, REFERENCES_AND_LIMITS};
use crate::tests::values::{DAYS, FIRST, IDS, NO_DAYS, NO_IDS, NUMBERS, SECOND, TEXTS};
use shop_defs::{
    Broken, Copied, Delta, ENTITIES, Entity, EntityInfo, FieldInfo, FieldKind, LEVEL_LIMITS, List,
    MOST_ROWS, NoMemory, OWNER_LIMITS, Op, OpKind, Part, REFERENCES, Reference, Refused, Row, Txt,
    Value, entity_name, field_named, fields_of, is_day_number, join_deltas, preset_value,
};
use shop_requests::{
    Command, Query, Raw, RawOp, ValueFault, check_value, print_day, print_id, read_day, read_id,
};
use sqlite_items::Boxed;
use std::alloc::{AllocError, Global};

mod printed;
mod values;

fn mark(is_set: bool, text: &'static str) -> &'static str {
    if is_set { text } else { "" }
}

fn print_entity(out: &mut String, info: &EntityInfo) -> Result<(), AllocError> {
    let number = info.entity.number();
    let name = entity_name(info.entity);
    let key = ["one part", "two parts"][info.key as usize];
    let versions = mark(info.has_versions, ", versions");
    let written = mark(info.is_writable, ", written by operations");
    writeln!(out, "{number} {name}: key of {key}{versions}{written}")
}

fn print_kind(out: &mut String, kind: FieldKind) -> Result<(), AllocError> {
    match kind {
        FieldKind::Flag => write!(out, "flag"),
        FieldKind::Int { low, high } => write!(out, "int {low}..{high}"),
        FieldKind::Interval => write!(out, "interval"),
        FieldKind::Text { low, high } => write!(out, "text {low}..{high}"),
        FieldKind::Choice(choice) => {
            write!(out, "choice")?;
            for word in choice.texts() {
                write!(out, " {word}")?;
            }
            Ok(())
        }
        FieldKind::Id(of) => write!(out, "id {}", entity_name(of)),
        FieldKind::Loose => write!(out, "loose"),
        FieldKind::Day => write!(out, "day"),
    }
}

fn print_preset(out: &mut String, preset: Option<Value>) -> Result<(), AllocError> {
    match preset {
        Some(Value::Flag(flag)) => write!(out, " default {flag}"),
        Some(Value::Int(number)) => write!(out, " default {number}"),
        Some(Value::Text(text)) => write!(out, " default {}", text.as_str()),
        Some(Value::Ident(id)) => write!(out, " default {id}"),
        None => Ok(()),
    }
}

fn print_field(
    alloc: Global,
    out: &mut String,
    entity: Entity,
    field: &FieldInfo,
) -> Result<(), NoMemory> {
    let owner = entity_name(entity);
    write!(out, "  {} {owner}.{} ", field.number, field.name.text())?;
    print_kind(out, field.kind)?;
    let required = mark(field.marks.required, " required");
    let fixed = mark(field.marks.fixed, " fixed");
    let inherited = mark(field.marks.inherited, " inherited");
    let unique = mark(field.marks.unique, " unique");
    write!(out, "{required}{fixed}{inherited}{unique}")?;
    print_preset(out, preset_value(alloc, field)?)?;
    writeln!(out)?;
    Ok(())
}

fn print_part(out: &mut String, entity: Entity, part: Part) -> Result<(), AllocError> {
    write!(out, "{}", part.name(entity).unwrap_or("no such part"))
}

fn print_reference(out: &mut String, reference: &Reference) -> Result<(), AllocError> {
    let words = ["cascade", "restrict", "set null", "never deleted"];
    let on_delete = words[reference.on_delete as usize];
    let of = entity_name(reference.of);
    write!(out, "{}.", entity_name(reference.entity))?;
    print_part(out, reference.entity, reference.part)?;
    write!(out, " to {of}: {on_delete}")?;
    if let Some(number) = reference.within {
        write!(out, ", within the same ")?;
        print_part(out, reference.entity, Part::Field(number))?;
    }
    writeln!(out)
}

fn entities_and_fields(alloc: Global) -> Result<String, NoMemory> {
    let mut out = String::new(alloc);
    for info in &ENTITIES {
        print_entity(&mut out, info)?;
        for field in fields_of(info.entity) {
            print_field(alloc, &mut out, info.entity, field)?;
        }
    }
    Ok(out)
}

fn references_and_limits(alloc: Global) -> Result<String, NoMemory> {
    let mut out = String::new(alloc);
    for reference in &REFERENCES {
        print_reference(&mut out, reference)?;
    }
    for level in &LEVEL_LIMITS {
        let entity = entity_name(level.entity);
        writeln!(&mut out, "{entity}: {} levels", level.most)?;
    }
    for limit in &OWNER_LIMITS {
        let entity = entity_name(limit.entity);
        write!(&mut out, "{entity}: {} of one ", limit.most)?;
        print_part(&mut out, limit.entity, limit.owner)?;
        writeln!(&mut out)?;
    }
    writeln!(&mut out, "{MOST_ROWS} rows of one entity")?;
    Ok(out)
}

fn is_printed(printed: Result<String, NoMemory>, want: &str) -> bool {
    matches!(printed, Ok(text) if text.as_str() == want)
}

#[test]
fn tables_as_text(rt: HostRuntime) {
    assert!(rt; is_printed(entities_and_fields(rt.alloc()), ENTITIES_AND_FIELDS));
    assert!(rt; is_printed(references_and_limits(rt.alloc()), REFERENCES_AND_LIMITS));
}

/// Whether the text is that of the id.
fn is_id(text: &str, id: u128) -> bool {
    let digits = print_id(id);
    matches!(read_id(text.as_bytes()), Some(read) if read == id)
        && digits.as_slice() == text.as_bytes()
}

/// Whether the text is that of the day.
fn is_day(text: &str, day: i64) -> bool {
    if !is_day_number(day) {
        return false;
    }
    let digits = print_day(day);
    matches!(read_day(text.as_bytes()), Some(read) if read == day)
        && digits.as_slice() == text.as_bytes()
}

#[test]
fn ids_and_days(rt: HostRuntime) {
    for (text, id) in IDS {
        assert!(rt; is_id(text, id), "{text}");
    }
    for text in NO_IDS {
        assert!(rt; read_id(text.as_bytes()).is_none(), "{text}");
    }
    for (text, day) in DAYS {
        assert!(rt; is_day(text, day), "{text}");
    }
    for text in NO_DAYS {
        assert!(rt; read_day(text.as_bytes()).is_none(), "{text}");
    }
}

/// What the entity's field with that name makes of the value; of a field that there isn't, nothing.
fn checked(entity: Entity, name: &str, value: Raw) -> Result<Option<Value>, ValueFault> {
    match field_named(entity, name.as_bytes()) {
        Some(number) => check_value(entity, number, value),
        None => Ok(None),
    }
}

fn is_kept(entity: Entity, name: &str, value: Raw, kept: &Value) -> bool {
    matches!(checked(entity, name, value), Ok(Some(found)) if found.is_same(kept))
}

fn is_beyond(entity: Entity, name: &str, value: Raw, beyond: i128) -> bool {
    matches!(checked(entity, name, value), Err(ValueFault::OutOfRange { value }) if value == beyond)
}

/// Whether the field keeps these numbers, but neither the one below nor the one above.
fn has_ends(entity: Entity, name: &str, low: i64, high: i64) -> bool {
    let below = i64::wrapping_sub(low, 1);
    let above = i64::wrapping_add(high, 1);
    is_kept(entity, name, Raw::Int(low), &Value::Int(low))
        && is_kept(entity, name, Raw::Int(high), &Value::Int(high))
        && is_beyond(entity, name, Raw::Int(below), i128::from(below))
        && is_beyond(entity, name, Raw::Int(above), i128::from(above))
}

/// Whether the field keeps the text, or refuses it by this length.
fn is_taken(
    alloc: Global,
    entity: Entity,
    name: &str,
    text: &str,
    beyond: Option<i128>,
) -> Result<bool, NoMemory> {
    let given = Txt::from_str(alloc, text)?;
    let kept = Value::Text(Txt::from_str(alloc, text)?);
    match beyond {
        None => Ok(is_kept(entity, name, Raw::Text(given), &kept)),
        Some(length) => Ok(is_beyond(entity, name, Raw::Text(given), length)),
    }
}

fn batch(alloc: Global) -> Result<Command, NoMemory> {
    let mut fields = List::new(alloc);
    fields.push((Txt::from_str(alloc, "position")?, Raw::Big(u64::MAX)))?;
    let mut ops = List::new(alloc);
    ops.push(RawOp {
        kind: OpKind::Upsert,
        entity: Txt::from_str(alloc, "category")?,
        id: 4,
        second: 0,
        fields,
    })?;
    Ok(Command::Sync { version: 0, ops })
}

fn is_batch_copied(alloc: Global) -> Result<bool, NoMemory> {
    let batch = batch(alloc)?;
    match batch.copy(alloc)? {
        Command::Sync { ops, .. } => Ok(ops.len() == 1),
        _ => Ok(false),
    }
}

/// Whether a refusal inside a refusal is copied.
fn is_refusal_copied(alloc: Global) -> Result<bool, NoMemory> {
    let field = Txt::from_str(alloc, "position")?;
    let inner = Boxed::new(alloc, Broken::UnknownField { field })?;
    let (commit, op) = (1, 2);
    let broken = Broken::MergeBroken { commit, op, inner };
    let refused = Refused { op: 0, broken };
    let copy = refused.copy(alloc)?;
    let Broken::MergeBroken { inner, .. } = copy.broken else {
        return Ok(false);
    };
    Ok(matches!(inner.get(), Broken::UnknownField { .. }))
}

/// Whether of two changes of a row the last one stands, with the operation that the row has.
fn are_deltas_joined(alloc: Global) -> Result<bool, NoMemory> {
    let mut ops = List::new(alloc);
    ops.push(Op {
        kind: OpKind::Delete,
        entity: Entity::Category,
        id: 4,
        second: 0,
        fields: List::new(alloc),
    })?;
    let (key, fields) = (FIRST, List::new(alloc));
    let mut first = List::new(alloc);
    first.push((FIRST, None))?;
    first.push((SECOND, None))?;
    let mut later = List::new(alloc);
    later.push((FIRST, Some(Row { key, fields, ops })))?;
    let deltas = [Delta { changes: first }, Delta { changes: later }];
    let joined = join_deltas(alloc, &deltas)?.copy(alloc)?;
    Ok(matches!(joined.changes.as_slice(), [(_, Some(row)), (_, None)] if row.ops.len() == 1))
}

#[test]
fn values_and_copies(rt: HostRuntime) {
    let alloc = rt.alloc();
    for (entity, name, low, high) in NUMBERS {
        assert!(rt; has_ends(entity, name, low, high), "{name} from {low}");
    }
    for (entity, name, text, beyond) in TEXTS {
        let holds = matches!(is_taken(alloc, entity, name, text, beyond), Ok(true));
        assert!(rt; holds, "{name} {text}");
    }
    for (what, holds) in [
        ("a batch", is_batch_copied(alloc)),
        ("a refusal", is_refusal_copied(alloc)),
        ("deltas", are_deltas_joined(alloc)),
    ] {
        assert!(rt; matches!(holds, Ok(true)), "{what}");
    }
    let query = Query::ListingPrice { product: 3 };
    assert!(rt; matches!(query.copy(alloc), Ok(Query::ListingPrice { product: 3 })));
}
