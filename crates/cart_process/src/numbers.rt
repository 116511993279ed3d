//! The numbers of the fields that are looked up here. The contracts speak of the fields by name, so that a
//! number which isn't the table's is refused.

pub(crate) const TAX_RATE: u8 = 2;

pub(crate) const PRODUCT_ACTIVE: u8 = 3;

pub(crate) const PRODUCT_GROSS: u8 = 5;

pub(crate) const PRODUCT_NET: u8 = 6;

pub(crate) const PRODUCT_WEIGHT: u8 = 7;

pub(crate) const PRODUCT_MIN: u8 = 8;

pub(crate) const PRODUCT_MAX: u8 = 9;

pub(crate) const PRICE_RULE: u8 = 2;

pub(crate) const PRICE_LOW: u8 = 3;

pub(crate) const PRICE_HIGH: u8 = 4;

pub(crate) const PRICE_GROSS: u8 = 5;

pub(crate) const PRICE_NET: u8 = 6;

pub(crate) const PROMOTION_ACTIVE: u8 = 2;

pub(crate) const PROMOTION_CODE: u8 = 3;

pub(crate) const PROMOTION_FROM: u8 = 4;

pub(crate) const PROMOTION_UNTIL: u8 = 5;

pub(crate) const PROMOTION_RULE: u8 = 7;

pub(crate) const DISCOUNT_SCOPE: u8 = 2;

pub(crate) const DISCOUNT_KIND: u8 = 3;

pub(crate) const DISCOUNT_VALUE: u8 = 4;

pub(crate) const METHOD_ACTIVE: u8 = 2;

pub(crate) const METHOD_RULE: u8 = 4;

pub(crate) const SHIPPING_RULE: u8 = 2;

pub(crate) const SHIPPING_BY: u8 = 3;

pub(crate) const SHIPPING_LOW: u8 = 4;

pub(crate) const SHIPPING_HIGH: u8 = 5;

pub(crate) const SHIPPING_GROSS: u8 = 6;

pub(crate) const SHIPPING_NET: u8 = 7;

pub(crate) const CART_TAX_STATE: u8 = 2;

pub(crate) const CART_TAX_MODE: u8 = 3;

pub(crate) const CART_INTERVAL: u8 = 4;

pub(crate) const LINE_PRODUCT: u8 = 2;

pub(crate) const LINE_QUANTITY: u8 = 3;

pub(crate) const CODE_TEXT: u8 = 2;
