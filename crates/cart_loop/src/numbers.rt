//! The numbers of the fields that are looked up here. The contracts speak of the fields by name, so
//! that a number which isn't the table's is refused.

pub(crate) const CART_GROUP: u8 = 5;

pub(crate) const CART_COUNTRY: u8 = 6;

pub(crate) const CART_METHOD: u8 = 7;

pub(crate) const METHOD_NAME: u8 = 1;

pub(crate) const PRODUCT_NUMBER: u8 = 2;

pub(crate) const PROMOTION_NAME: u8 = 1;

pub(crate) const RULE_PRIORITY: u8 = 2;
