//! The base types of a shop: what a row is filed under and holds, operations whose entity and
//! fields are known, changes, the tables of entities and fields with the checks of rows against
//! them, refusals, texts, lists, and copies that may want memory.
//!
//! # What is promised
//!
//! - Keys are ordered by entity number, version, id and second part (`Key::order`). `Txt` and
//!   `List` are seen as a text and a list. Each `copy` gives the same value; `Value::is_same` says
//!   whether two values are equal, and `Row::field` gives what the row's own field holds.
//! - The tables of the 25 entities, their 103 fields, references and limits are data that code and
//!   definitions read. `entity_named` and `field_named` find exactly what has the name, and
//!   `entity_info` and `field_at` are the lines of the tables. `TableLaws` says that names differ,
//!   numbers run from 1, presets fit their fields, references fit their fields and have names.
//! - What a kept value, key, field, operation and row may be is said once and computed exactly,
//!   without memory: `value_fits`, `key_fits`, `row_key_fits`, `fields_fit`, `op_fits`, and
//!   `has_needed` for the fields that a row can't lack. `preset_value` is what a field holds where
//!   it would be null.
//! - `join_deltas` makes several deltas one (`value`): its keys ascend (`ascends`), and at each key
//!   it has the last change that any of them makes there, or none where none does (`last`).
#![tactic(auto)]

mod broken;
mod check;
mod copied;
mod day;
mod delta;
mod entity;
mod fitting;
mod join;
mod key;
mod list;
mod look;
mod lookup;
mod op;
mod preset;
mod refused;
mod row;
mod table;
mod txt;
mod value;
mod words;

pub use broken::Broken;
pub use check::{is_interval, is_word, value_fits};
pub use copied::{Copied, NoMemory};
pub use day::{LAST_DAY, is_day_number};
pub use delta::Delta;
pub use entity::Entity;
pub use fitting::{
    field_fits, fields_fit, given_fits, has_needed, is_writable, key_fits, op_fits, parts_fit,
    row_key_fits,
};
pub use join::join_deltas;
pub use key::Key;
pub use list::List;
pub use look::Look;
pub use lookup::{entity_info, entity_named, field_at, field_named, field_with_name, info_named};
pub use op::{Op, OpKind};
pub use preset::{is_needed, preset_value};
pub use refused::{PlanFault, Refused};
pub use row::Row;
pub use table::{
    ENTITIES, EntityInfo, FieldInfo, FieldKind, KeyForm, LEVEL_LIMITS, LevelLimit, MOMENT, MONEY,
    MOST_ROWS, Marks, OWNER_LIMITS, OnDelete, OwnerLimit, Part, Preset, REFERENCES, Reference,
    fields_of,
};
pub use txt::Txt;
pub use value::Value;
pub use words::{Choice, FieldName, entity_name};
