//! What a field holds.
ghost use Rattle.std.specs.Prelude.{◌≡◌, ◌↔◌, IsTrue};

use crate::copied::{Copied, NoMemory};
use crate::txt::Txt;
use std::alloc::Global;

/// What a field of a row holds. A field that is empty holds no value.
#[derive(Drop)]
pub enum Value {
    /// A flag: true or false.
    Flag(bool),
    /// A whole number: an amount in minor units, a count, a day (days since 1970-01-01) or a moment
    /// (seconds since 1970-01-01T00:00:00 UTC).
    Int(i64),
    /// A text, or one of the words of a choice.
    Text(Txt),
    /// The id of a row, a 128-bit number other than 0.
    Ident(u128),
}

impl Value {
    /// Whether two values are the same: of one variant, with the same content.
    pub fn is_same(&self, other: &Value) -> bool
        ensures { IsTrue result ↔ (self.now ≡ other.now) }
    {
        match (self, other) {
            (Value::Flag(a), Value::Flag(b)) => *a == *b,
            (Value::Int(a), Value::Int(b)) => *a == *b,
            (Value::Text(a), Value::Text(b)) => a.as_bytes() == b.as_bytes(),
            (Value::Ident(a), Value::Ident(b)) => *a == *b,
            _ => false,
        }
    }
}

impl Copied for Value {
    fn copy(&self, alloc: Global) -> Result<Value, NoMemory> {
        match self {
            Value::Flag(flag) => Ok(Value::Flag(*flag)),
            Value::Int(number) => Ok(Value::Int(*number)),
            Value::Text(text) => Ok(Value::Text(text.copy(alloc)?)),
            Value::Ident(id) => Ok(Value::Ident(*id)),
        }
    }
}
