//! The numbers of the fields of products that are looked up here. The contracts speak of the fields by
//! name, so that a number which isn't the table's is refused.

/// Whether it is sold.
pub(crate) const ACTIVE: u8 = 3;

/// Its gross price.
pub(crate) const GROSS: u8 = 5;
