//! Rows.
ghost use Rattle.std.specs.Prelude.{◌≡◌};
ghost use Rattle.std.specs.Option.{option_copied};
ghost use Rattle.shop_defs.specs.Rows.{field_of};

use crate::copied::{Copied, NoMemory};
use crate::key::Key;
use crate::list::List;
use crate::op::Op;
use crate::value::Value;
use ordered::Entry;
use std::alloc::Global;

/// A row: its key, and what its fields hold.
#[derive(Drop)]
pub struct Row {
    /// What the row is filed under.
    pub key: Key,
    /// The numbers of the fields that are not empty, from 1 on and ascending, each with its value.
    pub fields: List<(u8, Value)>,
    /// The operations that a change of a draft is made of. Empty in a row of any other entity.
    pub ops: List<Op>,
}

impl Row {
    /// What the row's own field of that number holds: `None` where it is empty.
    pub fn field(&self, number: u8) -> Option<&Value>
        ensures { option_copied result ≡ field_of self.now number }
    {
        let mut rest = self.fields.as_slice();
        while let [(at, value), more @ ..] = rest {
            if *at == number {
                return Some(value);
            }
            rest = more;
        }
        None
    }
}

impl Copied for Row {
    fn copy(&self, alloc: Global) -> Result<Row, NoMemory> {
        Ok(Row {
            key: self.key,
            fields: self.fields.copy(alloc)?,
            ops: self.ops.copy(alloc)?,
        })
    }
}

/// A row is an element of a list in the order of keys.
impl Entry for Row {
    type Key = Key;

    ghost key_of = { λ row. row.key };

    fn key(&self) -> Key {
        self.key
    }
}
