//! What a field holds where it would be null.
ghost use Rattle.std.specs.Prelude.{◌≡◌, slice_get, IfOk, OnErr};
ghost use Rattle.std.specs.Option.{option_map};
ghost use Rattle.shop_defs.specs.declared.table.Preset.TheVariants as P;
ghost use Rattle.shop_defs.specs.declared.value.Value.TheVariants as V;
ghost use Rattle.shop_defs.specs.Texts.{choice_texts};
ghost use Rattle.shop_defs.specs.Presets as spec;

use crate::copied::NoMemory;
use crate::table::{FieldInfo, FieldKind, Preset};
use crate::txt::Txt;
use crate::value::Value;
use crate::words::Choice;
use std::alloc::Global;

/// Whether a row always has a value in the field: it is required, or has a preset.
pub fn is_needed(field: &FieldInfo) -> bool
    ensures { result ≡ spec.is_needed field.now }
{
    field.marks.required || is_there(field.preset)
}

fn is_there(preset: Preset) -> bool
    ensures { result ≡ spec.is_there preset }
{
    match preset {
        Preset::Absent => false,
        _ => true,
    }
}

/// What the field holds where it would be null: `None` where it has no preset. Want of memory is the
/// only error, and may come only of a field that holds one of some words.
pub fn preset_value(alloc: Global, field: &FieldInfo) -> Result<Option<Value>, NoMemory>
    ensures value { IfOk result (λ value. value ≡ spec.preset_of field.now) }
    ensures wanted { OnErr result (field.now.preset ≡ P.FirstWord) }
{
    match (field.kind, field.preset) {
        (_, Preset::Absent) => Ok(None),
        (_, Preset::Flag(flag)) => Ok(Some(Value::Flag(flag))),
        (_, Preset::Int(number)) => Ok(Some(Value::Int(number))),
        (FieldKind::Choice(choice), Preset::FirstWord) => first_word(alloc, choice),
        (_, Preset::FirstWord) => Ok(None),
    }
}

fn first_word(alloc: Global, choice: Choice) -> Result<Option<Value>, NoMemory>
    ensures { IfOk result (λ value. value ≡ option_map V.Text (slice_get (choice_texts choice) 0)) }
{
    match choice.texts() {
        [word, ..] => Ok(Some(Value::Text(Txt::from_str(alloc, word)?))),
        [] => Ok(None),
    }
}
