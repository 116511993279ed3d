//! The kinds of row, each with its number.
ghost use Rattle.std.specs.Prelude.{◌≡◌, nat_eq};
ghost use Rattle.std.proofs.Common.{rules};
ghost use Rattle.std.specs.Cmp.{partial_order_from_own_ties, unsigned_ties};
ghost use Rattle.std.specs.Cmp.Rules.{comparing};
ghost use Rattle.std.specs.Ordering.{nat_cmp, on, as_partial_cmp};
ghost use Rattle.shop_defs.specs.Entities.{entity_number};

use crate::copied::{Copied, NoMemory};
use std::alloc::Global;
use std::cmp::Ordering;

/// A kind of row.
///
/// The numbers, 1 to 25 in the order below, are fixed: keys are ordered and kept by them. `Eq` and
/// `Ord` compare them.
#[derive(Drop, Clone, Copy)]
pub enum Entity {
    /// A language that texts are translated to.
    Language,
    /// A tax rate.
    Tax,
    /// A category of products, in a tree of categories.
    Category,
    /// What a category is called in a language.
    CategoryTranslation,
    /// A product, or a variant below one.
    Product,
    /// What a product is called in a language.
    ProductTranslation,
    /// That a product stands in a category.
    ProductCategory,
    /// A price of a product for carts that meet a rule, from a quantity on.
    ProductPrice,
    /// A set of products that its filters pick.
    Stream,
    /// A node of the tree of filters of a stream.
    StreamFilter,
    /// A rule that carts meet or not.
    Rule,
    /// A node of the tree of conditions of a rule.
    RuleCondition,
    /// A promotion, with or without a code.
    Promotion,
    /// A discount that a promotion gives.
    PromotionDiscount,
    /// A way of delivery.
    ShippingMethod,
    /// A price of a way of delivery.
    ShippingPrice,
    /// How many of a product are there.
    Stock,
    /// A cart that a shopper fills.
    Cart,
    /// A product in a cart, and how many of it.
    CartLine,
    /// A promotion's code that was given for a cart.
    CartCode,
    /// A placed order.
    Order,
    /// A line of an order, by its position.
    OrderLine,
    /// What an order bears at a tax rate.
    OrderTax,
    /// A version beside the live one, in which a product or a category is edited.
    Draft,
    /// One change of a draft, by its number.
    DraftCommit,
}

impl Copied for Entity {
    fn copy(&self, _alloc: Global) -> Result<Entity, NoMemory> {
        Ok(*self)
    }
}

impl Entity {
    /// The number of the entity, 1 to 25.
    pub fn number(self) -> u8
        ensures { result ≡ entity_number self }
    {
        self as u8 + 1
    }
}

impl PartialEq for Entity {
    ghost eq = { on entity_number nat_eq };

    ghost laws = { Prim.search (comparing, rules) };

    fn eq(&self, other: &Entity) -> bool {
        self.number() == other.number()
    }
}

impl Eq for Entity {
    ghost laws = { Prim.search (comparing, rules) };
}

impl PartialOrd for Entity {
    ghost partial_cmp = { as_partial_cmp (on entity_number nat_cmp) };

    ghost laws = { partial_order_from_own_ties (Prim.search (comparing, rules)) (λ x y. unsigned_ties (entity_number x) (entity_number y)) };

    fn partial_cmp(&self, other: &Entity) -> Option<Ordering> {
        Some(self.cmp(other))
    }
}

impl Ord for Entity {
    ghost cmp = { on entity_number nat_cmp };

    ghost total = { Prim.search (comparing, rules) };

    ghost matches_partial_cmp = { Prim.search (comparing, rules) };

    ghost matches_eq = { λ x y. unsigned_ties (entity_number x) (entity_number y) };

    fn cmp(&self, other: &Entity) -> Ordering {
        self.number().cmp(&other.number())
    }
}
