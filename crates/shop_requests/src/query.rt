//! What a request asks to be shown.
use shop_defs::{Copied, NoMemory, Txt};
use std::alloc::Global;

/// A question about all rows, which an index answers.
#[derive(Drop, Clone, Copy)]
pub enum Query {
    /// Where a category stands among the others: its ancestors, its level and how many children it has.
    CategoryTree {
        /// The id of the category.
        category: u128,
    },
    /// Which products the filters of a stream pick.
    StreamMembers {
        /// The id of the stream.
        stream: u128,
    },
    /// At which price a listing shows a product.
    ListingPrice {
        /// The id of the product.
        product: u128,
    },
    /// Which products a category lists.
    Listing {
        /// The id of the category.
        category: u128,
        /// Which page of 24 products, counted from 1.
        page: u32,
    },
}

impl Copied for Query {
    fn copy(&self, _alloc: Global) -> Result<Query, NoMemory> {
        Ok(*self)
    }
}

/// A question about one row.
#[derive(Drop)]
pub struct RowRead {
    /// The name that is given for the kind of row.
    pub entity: Txt,
    /// The id of the row.
    pub id: u128,
    /// The second part of the row's key. 0 means that none is given.
    pub second: u128,
    /// The version that is looked at: 0 is the live one.
    pub version: u128,
    /// The id of the language that texts are shown in first.
    pub language: u128,
    /// Whether an empty field shows what the row's parent has.
    pub inherit: bool,
}
