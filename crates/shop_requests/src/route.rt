//! What a request's line and headers ask for.
use crate::command::Action;
use crate::query::{Query, RowRead};
use shop_defs::Txt;

/// What a request's line and headers ask for, before its body is read.
///
/// Ids and versions are 128-bit numbers. A version of 0 is the live one.
#[derive(Drop)]
pub enum Route {
    /// A batch of operations, which the body has.
    Sync {
        /// The version whose rows they change.
        version: u128,
    },
    /// A new draft, of what the body names.
    Draft {
        /// The version that is made.
        version: u128,
    },
    /// That the operations of a draft are done on the live rows.
    Merge {
        /// The draft's version.
        version: u128,
    },
    /// That a draft is removed.
    Drop {
        /// The draft's version.
        version: u128,
    },
    /// A change of a product's stock, by as many as the body says.
    Stock {
        /// The id of the product.
        product: u128,
    },
    /// An order of a cart, with the id that the body gives.
    PlaceCart {
        /// The id of the cart.
        cart: u128,
    },
    /// A step of an order to another state.
    Transit {
        /// The id of the order.
        order: u128,
        /// The step.
        action: Action,
    },
    /// One row.
    Row {
        /// Which row, and how it is shown.
        read: RowRead,
    },
    /// The rows of an entity from a key on.
    RowList {
        /// The name that is given for the entity.
        entity: Txt,
        /// The id that the keys start at. Here 0 is allowed, which is below all ids.
        id: u128,
        /// The second part that the keys start at. 0 is below all of them.
        second: u128,
    },
    /// What an index answers.
    Asked {
        /// The question.
        query: Query,
        /// How many accepted changes the answer has to have seen at least.
        min_front: u64,
    },
    /// What a cart would cost.
    Cart {
        /// The id of the cart.
        cart: u128,
    },
    /// How many changes are accepted, and how many the indexes have seen.
    Front,
}
