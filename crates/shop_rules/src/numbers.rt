//! The numbers of the fields of conditions that are looked up here. The contracts speak of the fields
//! by name, so that a number which isn't the table's is refused.

/// What a leaf looks at.
pub(crate) const KIND: u8 = 3;

/// The least number.
pub(crate) const LOW: u8 = 4;

/// The greatest number.
pub(crate) const HIGH: u8 = 5;

/// The first day.
pub(crate) const FROM_DAY: u8 = 6;

/// The last day.
pub(crate) const TO_DAY: u8 = 7;

/// The group or the country.
pub(crate) const TEXT: u8 = 8;

/// The product.
pub(crate) const PRODUCT: u8 = 9;

/// The shipping method.
pub(crate) const METHOD: u8 = 10;
