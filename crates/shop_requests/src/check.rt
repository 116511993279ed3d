//! What a request gives for a field, as the field keeps it.
ghost use Rattle.std.specs.Prelude.{◌≡◌, IsTrue, IfOk, IsSome, is_some};
ghost use Rattle.std.specs.Option.{option_map};
ghost use Rattle.shop_defs.specs.declared.value.Value.TheVariants as V;
ghost use Rattle.shop_requests.specs.declared.raw.Raw.TheVariants as R;
ghost use Rattle.shop_requests.specs.declared.check.ValueFault.TheVariants.{WrongKind, OutOfRange};
ghost use Rattle.shop_defs.specs.Tables.{field_at as field_of_number};
ghost use Rattle.shop_requests.specs.Ids as Ids;
ghost use Rattle.shop_requests.specs.Days as Days;
ghost use Rattle.shop_defs.specs.Checks.{null_or_fits};
ghost use Rattle.shop_requests.specs.Checks as spec;
ghost use Rattle.shop_defs.specs.Fitting.{given_fits};

use crate::day::read_day;
use crate::ids::read_id;
use crate::raw::Raw;
use shop_defs::{Copied, Entity, FieldKind, NoMemory, Txt, Value, field_at, is_interval, is_word};
use std::alloc::Global;

/// Why a field can't hold a value.
#[derive(Drop, Clone, Copy)]
pub enum ValueFault {
    /// The value isn't of the field's kind.
    WrongKind,
    /// The value is of the field's kind, but outside its range or choices.
    OutOfRange {
        /// The number itself; of a text, a choice or a day its length in bytes.
        value: i128,
    },
}

/// The value as the entity's field with that number keeps it: `None` for null, which any field may
/// be given. It takes no memory.
///
/// `WrongKind` comes exactly where the value isn't of the field's kind: also for a text that isn't
/// 32 digits of an id other than 0 where an id is wanted, and for `Raw::Other`. `OutOfRange` comes
/// exactly where a value of the right kind is outside the field's range, words or days.
pub fn check_value(entity: Entity, field: u8, value: Raw) -> Result<Option<Value>, ValueFault>
    requires known { IsSome (field_of_number entity field) }
    ensures value { result ≡ spec.checked_value entity field value }
    // What is kept is null or fits the field.
    ensures fits { IfOk result (λ kept. IsTrue (given_fits entity (field, kept))) }
{
    match field_at(entity, field) {
        Some(info) => check_kind(info.kind, value),
        None => unreachable!(),
    }
}

/// The value as a field of that kind keeps it: `None` for null. It takes no memory.
pub fn check_kind(kind: FieldKind, value: Raw) -> Result<Option<Value>, ValueFault>
    ensures value { result ≡ spec.checked kind value }
    ensures fits { IfOk result (λ kept. IsTrue (null_or_fits kind kept)) }
{
    match value_fault(kind, &value) {
        Some(fault) => Err(fault),
        None => Ok(keep(kind, value)),
    }
}

/// Why a field of that kind can't hold a value: `None` where it can. It takes no memory.
pub fn value_fault(kind: FieldKind, value: &Raw) -> Option<ValueFault>
    ensures { result ≡ spec.fault_in kind value.now }
{
    match (kind, value) {
        (_, Raw::Null) => None,
        (FieldKind::Flag, Raw::Flag(_)) => None,
        (FieldKind::Int { low, high }, Raw::Int(number)) => {
            number_fault(low <= *number && *number <= high, *number)
        }
        (FieldKind::Interval, Raw::Int(number)) => number_fault(is_interval(*number), *number),
        (FieldKind::Int { .. }, Raw::Big(number)) => Some(beyond(i128::from(*number))),
        (FieldKind::Interval, Raw::Big(number)) => Some(beyond(i128::from(*number))),
        (FieldKind::Text { low, high }, Raw::Text(text)) => {
            length_fault(low <= text.len() && text.len() <= high, text)
        }
        (FieldKind::Choice(choice), Raw::Text(text)) => {
            length_fault(is_word(choice, text.as_bytes()), text)
        }
        (FieldKind::Id(_), Raw::Text(text)) => id_fault(text),
        (FieldKind::Loose, Raw::Text(text)) => id_fault(text),
        (FieldKind::Day, Raw::Text(text)) => length_fault(is_day(text), text),
        _ => Some(ValueFault::WrongKind),
    }
}

/// What a field of that kind keeps of a value that it can hold: `None` for null. It takes no memory.
fn keep(kind: FieldKind, value: Raw) -> Option<Value>
    ensures { result ≡ spec.kept kind value }
{
    match value {
        Raw::Text(text) => keep_text(kind, text),
        Raw::Int(number) => Some(Value::Int(number)),
        Raw::Flag(flag) => Some(Value::Flag(flag)),
        _ => None,
    }
}

fn keep_text(kind: FieldKind, text: Txt) -> Option<Value>
    ensures { result ≡ spec.kept kind (R.Text text) }
{
    match kind {
        FieldKind::Id(_) => ident_of(&text),
        FieldKind::Loose => ident_of(&text),
        FieldKind::Day => day_of(&text),
        _ => Some(Value::Text(text)),
    }
}

/// A copy of what a field of that kind keeps of a value that it can hold: `None` for null.
pub(crate) fn copy_kept(
    alloc: Global,
    kind: FieldKind,
    value: &Raw,
) -> Result<Option<Value>, NoMemory>
    ensures { IfOk result (λ copy. copy ≡ spec.kept kind value.now) }
{
    match (kind, value) {
        (FieldKind::Id(_), Raw::Text(text)) => Ok(ident_of(text)),
        (FieldKind::Loose, Raw::Text(text)) => Ok(ident_of(text)),
        (FieldKind::Day, Raw::Text(text)) => Ok(day_of(text)),
        (_, Raw::Text(text)) => Ok(Some(Value::Text(text.copy(alloc)?))),
        (_, Raw::Int(number)) => Ok(Some(Value::Int(*number))),
        (_, Raw::Flag(flag)) => Ok(Some(Value::Flag(*flag))),
        _ => Ok(None),
    }
}

fn beyond(value: i128) -> ValueFault
    ensures { result ≡ OutOfRange value }
{
    ValueFault::OutOfRange { value }
}

fn number_fault(holds: bool, number: i64) -> Option<ValueFault>
    ensures { result ≡ spec.unless holds (OutOfRange number) }
{
    if holds {
        None
    } else {
        Some(beyond(i128::from(number)))
    }
}

fn length_fault(holds: bool, text: &Txt) -> Option<ValueFault>
    ensures { result ≡ spec.unless holds (spec.length_beyond text.now) }
{
    if holds {
        None
    } else {
        Some(beyond(text.len() as i128))
    }
}

fn id_fault(text: &Txt) -> Option<ValueFault>
    ensures { result ≡ spec.unless (is_some (Ids.id_of text.now)) WrongKind }
{
    match read_id(text.as_bytes()) {
        Some(_) => None,
        None => Some(ValueFault::WrongKind),
    }
}

fn is_day(text: &Txt) -> bool
    ensures { result ≡ is_some (Days.day_of text.now) }
{
    read_day(text.as_bytes()).is_some()
}

fn ident_of(text: &Txt) -> Option<Value>
    ensures { result ≡ option_map V.Ident (Ids.id_of text.now) }
{
    match read_id(text.as_bytes()) {
        Some(id) => Some(Value::Ident(id)),
        None => None,
    }
}

fn day_of(text: &Txt) -> Option<Value>
    ensures { result ≡ option_map V.Int (Days.day_of text.now) }
{
    match read_day(text.as_bytes()) {
        Some(day) => Some(Value::Int(day)),
        None => None,
    }
}
