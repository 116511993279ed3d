//! The numbers of the fields that make rows a tree. The contracts speak of the fields by name, so
//! that a number which isn't the table's is refused. They are the same in filters and in conditions.

/// The node above.
pub(crate) const PARENT: u8 = 2;

/// How a node joins those below it, or what its leaf tests.
pub(crate) const KIND: u8 = 3;
