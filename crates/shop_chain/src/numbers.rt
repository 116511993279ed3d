//! The numbers of the fields that are looked up here. The contracts speak of the fields by name, so
//! that a number which isn't the table's is refused.

/// A language's parent.
pub(crate) const LANGUAGE_PARENT: u8 = 2;

/// A product's parent: a product that has one is a variant of it.
pub(crate) const PRODUCT_PARENT: u8 = 1;

/// A product's tax.
pub(crate) const TAX: u8 = 4;

/// A product's gross price.
pub(crate) const GROSS: u8 = 5;

/// A product's net price.
pub(crate) const NET: u8 = 6;

/// A product's weight.
pub(crate) const WEIGHT: u8 = 7;

/// The least quantity of a product in an order.
pub(crate) const MIN_ORDER: u8 = 8;

/// The greatest quantity of a product in an order.
pub(crate) const MAX_ORDER: u8 = 9;

/// The name in a translation of a product or of a category.
pub(crate) const NAME: u8 = 1;

/// The description in a translation of a product or of a category.
pub(crate) const DESCRIPTION: u8 = 2;
