//! Changes of rows.
use crate::copied::{Copied, NoMemory};
use crate::key::Key;
use crate::list::List;
use crate::row::Row;
use std::alloc::Global;

/// What is changed about the rows, all at once.
#[derive(Drop)]
pub struct Delta {
    /// The keys of the rows that change, ascending, each with the row that stands there from then on,
    /// whose key it is. `None` takes the row away.
    pub changes: List<(Key, Option<Row>)>,
}

impl Copied for Delta {
    fn copy(&self, alloc: Global) -> Result<Delta, NoMemory> {
        Ok(Delta {
            changes: self.changes.copy(alloc)?,
        })
    }
}
