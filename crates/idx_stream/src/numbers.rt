//! The numbers of the fields of filters that are looked up here. The contracts speak of the fields by
//! name, so that a number which isn't the table's is refused.

/// The stream that is filtered.
pub(crate) const STREAM: u8 = 1;

/// How a filter joins those below it, or what it tests.
pub(crate) const KIND: u8 = 3;

/// The field of products that it looks at.
pub(crate) const FIELD: u8 = 4;

/// The text that it compares with.
pub(crate) const VALUE: u8 = 5;

/// The least number.
pub(crate) const LOW: u8 = 6;

/// The greatest number.
pub(crate) const HIGH: u8 = 7;

/// The category.
pub(crate) const CATEGORY: u8 = 8;
