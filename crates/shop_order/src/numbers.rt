//! The numbers of the fields that stock, carts and orders have.

/// Of stock: how many pieces are available.
pub const STOCK_AVAILABLE: u8 = 1;

/// Of stock: how many pieces were ever adjusted.
pub const STOCK_ADJUSTED: u8 = 2;

/// Of a cart: which prices it has.
pub const CART_TAX_STATE: u8 = 2;

/// Of an order: how far it is.
pub const ORDER_STATE: u8 = 1;

/// Of an order: when it was placed.
pub const ORDER_PLACED: u8 = 2;

/// Of an order: which prices it has.
pub const ORDER_TAX_STATE: u8 = 3;

/// Of an order: what is to be paid.
pub const ORDER_TOTAL: u8 = 4;

/// Of an order: the sum of its taxes.
pub const ORDER_TAX: u8 = 5;

/// Of an order: what rounding added.
pub const ORDER_ROUNDING: u8 = 6;

/// Of a line: what it is for.
pub const LINE_KIND: u8 = 1;

/// Of a line: the product.
pub const LINE_PRODUCT: u8 = 2;

/// Of a line: what it is called.
pub const LINE_LABEL: u8 = 3;

/// Of a line: how many pieces.
pub const LINE_QUANTITY: u8 = 4;

/// Of a line: the price of one piece.
pub const LINE_UNIT: u8 = 5;

/// Of a line: the price of all pieces.
pub const LINE_TOTAL: u8 = 6;

/// Of a line: the tax rate.
pub const LINE_RATE: u8 = 7;

/// Of what an order bears at a tax rate: the sum of its positions.
pub const TAX_AMOUNT: u8 = 1;

/// Of what an order bears at a tax rate: the tax.
pub const TAX_TAX: u8 = 2;
