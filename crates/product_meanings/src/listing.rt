//! What a listing shows.
use shop_defs::List;

/// At which price a listing shows a product.
#[derive(Drop, Clone, Copy)]
pub struct ListingPrice {
    /// The least gross price of those that are sold for it, in minor units: `None` where there is none.
    pub min: Option<i64>,
    /// The greatest: `None` where there is none.
    pub max: Option<i64>,
    /// The product at the least price, of several the one with the least id: `None` where there is none.
    pub cheapest: Option<u128>,
    /// How many are sold for it.
    pub count: u32,
}

/// A page of what a category lists.
#[derive(Drop)]
pub struct ListingPage {
    /// How many products the category lists in all.
    pub total: u32,
    /// At most 24 products by id, each with its price.
    pub items: List<(u128, ListingPrice)>,
}
