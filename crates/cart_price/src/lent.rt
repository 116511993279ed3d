//! The rows that a cart's prices are made of, lent by the shop that holds them.
//!
//! While one of these lives, the rows stay as they are.

use shop_defs::{List, Row};

/// A line of a cart with the rows that its price is made of.
#[derive(Drop)]
pub struct LentLine<'a> {
    /// The row of the line.
    pub line: &'a Row,
    /// The product's row: none where there is no such product.
    pub product: Option<&'a Row>,
    /// The row of the product's parent: none where it has none.
    pub parent: Option<&'a Row>,
    /// Whether the product has variants.
    pub has_variants: bool,
    /// The price rows that count for the product, by key: its own, or its parent's where it has none.
    pub prices: List<&'a Row>,
    /// The row of the tax that counts for the product.
    pub tax: Option<&'a Row>,
    /// The row of the product's price in the cart's currency. None so far, since a cart has no
    /// currency yet.
    pub listed: Option<&'a Row>,
    /// The product's name in the cart's language, as UTF-8.
    pub name: Option<&'a [u8]>,
}

/// A promotion and what it takes off.
#[derive(Drop)]
pub struct LentPromotion<'a> {
    /// The row of the promotion.
    pub promotion: &'a Row,
    /// The rows of its discounts, by key.
    pub discounts: List<&'a Row>,
}

/// A cart with the rows that its prices are made of.
#[derive(Drop)]
pub struct CartData<'a> {
    /// The row of the cart.
    pub cart: &'a Row,
    /// The cart's lines, by position, then by id.
    pub lines: List<LentLine<'a>>,
    /// The rows of the codes that were given for the cart, by key.
    pub codes: List<&'a Row>,
    /// All promotions, by priority from the highest on, then by id.
    pub promotions: List<LentPromotion<'a>>,
    /// The row of the cart's shipping method.
    pub method: Option<&'a Row>,
    /// The row of that method's tax.
    pub method_tax: Option<&'a Row>,
    /// The price rows of that method, by key.
    pub shipping: List<&'a Row>,
    /// The row of the cart's currency. None so far, since a cart has no currency yet.
    pub currency: Option<&'a Row>,
}
