//! Operations on rows, as a request gives them.
use shop_defs::{Copied, List, NoMemory, OpKind, Txt};
use std::alloc::Global;

/// What a request gives for a field, before it is known which kind of value the field takes.
#[derive(Drop)]
pub enum Raw {
    /// Nothing: the field is to be empty.
    Null,
    /// True or false.
    Flag(bool),
    /// A whole number that an `i64` holds.
    Int(i64),
    /// A whole number above those that an `i64` holds, and so above every field's range.
    Big(u64),
    /// A text.
    Text(Txt),
    /// Anything else, which no field takes.
    Other,
}

impl Copied for Raw {
    fn copy(&self, alloc: Global) -> Result<Raw, NoMemory> {
        match self {
            Raw::Null => Ok(Raw::Null),
            Raw::Flag(flag) => Ok(Raw::Flag(*flag)),
            Raw::Int(number) => Ok(Raw::Int(*number)),
            Raw::Big(number) => Ok(Raw::Big(*number)),
            Raw::Text(text) => Ok(Raw::Text(text.copy(alloc)?)),
            Raw::Other => Ok(Raw::Other),
        }
    }
}

/// An operation as a request gives it: with names, and values of any kind.
#[derive(Drop)]
pub struct RawOp {
    /// What it does.
    pub kind: OpKind,
    /// The name that is given for the kind of row.
    pub entity: Txt,
    /// The id of the row.
    pub id: u128,
    /// The second part of the row's key. 0 means that none is given.
    pub second: u128,
    /// The names of the fields that are given, each with what is given for it.
    pub fields: List<(Txt, Raw)>,
}

impl Copied for RawOp {
    fn copy(&self, alloc: Global) -> Result<RawOp, NoMemory> {
        Ok(RawOp {
            kind: self.kind,
            entity: self.entity.copy(alloc)?,
            id: self.id,
            second: self.second,
            fields: self.fields.copy(alloc)?,
        })
    }
}
