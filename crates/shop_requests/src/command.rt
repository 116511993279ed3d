//! What a request asks to be changed.
use crate::raw::RawOp;
use shop_defs::{Copied, List, NoMemory, Txt};
use std::alloc::Global;

/// A step from one state of an order to another.
#[derive(Drop, Clone, Copy)]
pub enum Action {
    /// From open to in progress.
    Process,
    /// From in progress to completed.
    Complete,
    /// From open or in progress to cancelled, which gives the ordered quantities back.
    Cancel,
    /// From completed or cancelled to open. From cancelled it takes the ordered quantities again.
    Reopen,
}

/// A change of the rows that is done whole or not at all.
///
/// Ids and versions are 128-bit numbers. A version of 0 is the live one, and 0 is no id.
#[derive(Drop)]
pub enum Command {
    /// Does a batch of operations, in order.
    Sync {
        /// The version whose rows they change.
        version: u128,
        /// The operations, 1 to 1,000.
        ops: List<RawOp>,
    },
    /// Makes a draft: a version in which a product or a category is edited.
    MakeDraft {
        /// The version that is made.
        version: u128,
        /// The name that is given for the kind of the edited row.
        entity: Txt,
        /// The id of the edited row.
        root: u128,
    },
    /// Removes a draft with what was edited in it.
    DropDraft {
        /// The draft's version.
        version: u128,
    },
    /// Does the operations of a draft on the live rows, and removes the draft.
    Merge {
        /// The draft's version.
        version: u128,
    },
    /// Adds to the stock of a product.
    AdjustStock {
        /// The id of the product.
        product: u128,
        /// How many pieces are added, from -1,000,000,000 to 1,000,000,000.
        amount: i64,
    },
    /// Makes an order of a cart.
    Place {
        /// The id of the cart.
        cart: u128,
        /// The id that the order gets.
        order: u128,
    },
    /// Takes an order to another state.
    Transition {
        /// The id of the order.
        order: u128,
        /// The step.
        action: Action,
    },
}

impl Copied for Command {
    fn copy(&self, alloc: Global) -> Result<Command, NoMemory> {
        match self {
            Command::Sync { version, ops } => Ok(Command::Sync {
                version: *version,
                ops: ops.copy(alloc)?,
            }),
            Command::MakeDraft {
                version,
                entity,
                root,
            } => Ok(Command::MakeDraft {
                version: *version,
                entity: entity.copy(alloc)?,
                root: *root,
            }),
            Command::DropDraft { version } => Ok(Command::DropDraft { version: *version }),
            Command::Merge { version } => Ok(Command::Merge { version: *version }),
            Command::AdjustStock { product, amount } => Ok(Command::AdjustStock {
                product: *product,
                amount: *amount,
            }),
            Command::Place { cart, order } => Ok(Command::Place {
                cart: *cart,
                order: *order,
            }),
            Command::Transition { order, action } => Ok(Command::Transition {
                order: *order,
                action: *action,
            }),
        }
    }
}
