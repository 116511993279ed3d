//! Operations on rows.
use crate::copied::{Copied, NoMemory};
use crate::entity::Entity;
use crate::list::List;
use crate::value::Value;
use std::alloc::Global;

/// What an operation does to its row.
#[derive(Drop, Clone, Copy, PartialEq, Eq)]
pub enum OpKind {
    /// Changes the fields that are given, or inserts the row where there is none.
    Upsert,
    /// Removes the row, and each row that goes with it.
    Delete,
}

/// An operation whose entity, fields and values are known.
#[derive(Drop)]
pub struct Op {
    /// What it does.
    pub kind: OpKind,
    /// The kind of row.
    pub entity: Entity,
    /// The id of the row.
    pub id: u128,
    /// The second part of the row's key. 0 means that there is none.
    pub second: u128,
    /// The numbers of the fields that are given, from 1 on and ascending, each with its value. `None`
    /// empties the field.
    pub fields: List<(u8, Option<Value>)>,
}

impl Copied for Op {
    fn copy(&self, alloc: Global) -> Result<Op, NoMemory> {
        Ok(Op {
            kind: self.kind,
            entity: self.entity,
            id: self.id,
            second: self.second,
            fields: self.fields.copy(alloc)?,
        })
    }
}
