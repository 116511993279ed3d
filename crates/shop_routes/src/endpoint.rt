//! The paths of the interface.
use shop_http::Method2;
use shop_requests::Action;

/// What a path asks for.
#[derive(Clone, Copy)]
pub enum Endpoint {
    /// A batch of operations.
    Sync,
    /// A new draft.
    Draft,
    /// That a draft's operations are done on the live rows.
    Merge,
    /// That a draft is removed.
    DropDraft,
    /// A change of a product's stock.
    Stock,
    /// An order of a cart.
    PlaceCart,
    /// A step of an order to another state.
    Transit(Action),
    /// One row.
    Row,
    /// The rows of an entity from a key on.
    RowList,
    /// Where a category stands among the others.
    CategoryTree,
    /// The products that a category lists.
    Listing,
    /// The products that a stream picks.
    StreamMembers,
    /// The price that a product is listed at.
    ListingPrice,
    /// What a cart would cost.
    Cart,
    /// How far the shop and its indexes are.
    Front,
}

/// The method that a path is asked with, and what it asks for.
#[derive(Clone, Copy)]
pub struct Asked {
    pub method: Method2,
    pub endpoint: Endpoint,
}
