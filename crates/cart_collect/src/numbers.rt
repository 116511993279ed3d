//! The numbers of the fields that are looked up here. The contracts speak of the fields by name, so
//! that a number which isn't the table's is refused.

pub(crate) const CART_LANGUAGE: u8 = 1;

pub(crate) const CART_METHOD: u8 = 7;

pub(crate) const LINE_PRODUCT: u8 = 2;

pub(crate) const LINE_POSITION: u8 = 4;

pub(crate) const METHOD_TAX: u8 = 3;

pub(crate) const PRODUCT_PARENT: u8 = 1;

pub(crate) const PRODUCT_TAX: u8 = 4;

pub(crate) const PROMOTION_PRIORITY: u8 = 6;

pub(crate) const TRANSLATED_NAME: u8 = 1;
