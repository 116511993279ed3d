//! What questions are answered.
ghost use Rattle.std.specs.Prelude.{◌≡◌};
ghost use Rattle.idx_copy.specs.declared.answer.AskFault.TheVariants as asking;

use product_meanings::{ListingPage, ListingPrice};
use shop_defs::{Broken, NoMemory};

/// What a question is answered, lent by the tables.
#[derive(Drop)]
pub enum Answer<'a> {
    /// Where a category stands among the others.
    CategoryTree {
        /// The ids of its ancestors, from the root to its parent.
        path: &'a [u128],
        /// One more than they are.
        level: u32,
        /// How many categories have it as their parent.
        children: u32,
    },
    /// Which products are members of a stream.
    StreamMembers {
        /// The ids of the products, ascending.
        members: &'a [u128],
    },
    /// At which price a listing shows a product.
    ListingPrice(ListingPrice),
    /// A page of what a category lists.
    Listing(ListingPage),
}

/// Why a question isn't answered, or a row not shown.
#[derive(Drop)]
pub enum AskFault {
    /// It breaks a rule: of a question, that the row which it names isn't there.
    Refused(Broken),
    /// Memory was refused.
    NoMemory,
}

impl From<NoMemory> for AskFault {
    ghost from_gives = { λ _ fault. fault ≡ asking.NoMemory };

    fn from(_: NoMemory) -> AskFault {
        AskFault::NoMemory
    }
}
