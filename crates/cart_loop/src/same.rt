//! Whether two values are the same.
ghost use Rattle.std.specs.Prelude.{◌≡◌, ◌↔◌, IsTrue};
ghost use Rattle.cart_loop.specs.SameCarts.{AreNumbersSame, ArePartsSame};

use cart_price::{Block, Delivery, Discount, PricedCart, PricedLine, TaxSum};
use shop_defs::List;

/// A value of which it can be told whether it is another.
pub(crate) trait Same {
    /// Whether the two are equal.
    fn is_same(&self, other: &Self) -> bool
        ensures { IsTrue result ↔ (self.now ≡ other.now) };
}

impl Same for u128 {
    fn is_same(&self, other: &u128) -> bool {
        *self == *other
    }
}

impl Same for PricedLine {
    fn is_same(&self, other: &PricedLine) -> bool {
        self.id == other.id
            && self.product == other.product
            && self.quantity == other.quantity
            && self.rate == other.rate
            && self.total == other.total
            && self.unit == other.unit
    }
}

impl Same for Discount {
    fn is_same(&self, other: &Discount) -> bool {
        self.amount == other.amount
            && self.discount == other.discount
            && self.promotion == other.promotion
    }
}

impl Same for Delivery {
    fn is_same(&self, other: &Delivery) -> bool {
        self.cost == other.cost && self.method == other.method && self.rate == other.rate
    }
}

impl Same for TaxSum {
    fn is_same(&self, other: &TaxSum) -> bool {
        self.amount == other.amount && self.rate == other.rate && self.tax == other.tax
    }
}

impl Same for Block {
    fn is_same(&self, other: &Block) -> bool {
        self.cause.as_bytes() == other.cause.as_bytes() && self.line == other.line
    }
}

impl<T: Same> Same for Option<T> {
    fn is_same(&self, other: &Option<T>) -> bool {
        match (self, other) {
            (None, None) => true,
            (Some(one), Some(two)) => one.is_same(two),
            _ => false,
        }
    }
}

impl<T: Same> Same for List<T> {
    fn is_same(&self, other: &List<T>) -> bool {
        are_same(self.as_slice(), other.as_slice())
    }
}

/// Whether two slices have the same elements in the same order.
fn are_same<T: Same>(ours: &[T], theirs: &[T]) -> bool
    ensures { IsTrue result ↔ (ours.now ≡ theirs.now) }
{
    let mut at = ours;
    let mut other = theirs;
    while let ([one, more @ ..], [two, rest @ ..]) = (at, other) {
        if !one.is_same(two) {
            return false;
        }
        at = more;
        other = rest;
    }
    at.is_empty() && other.is_empty()
}

impl Same for PricedCart {
    fn is_same(&self, other: &PricedCart) -> bool {
        are_numbers_same(self, other) && are_parts_same(self, other)
    }
}

fn are_numbers_same(cart: &PricedCart, other: &PricedCart) -> bool
    ensures { IsTrue result ↔ AreNumbersSame cart.now other.now }
{
    cart.count == other.count
        && cart.goods == other.goods
        && cart.raw == other.raw
        && cart.tax == other.tax
        && cart.total == other.total
        && cart.weight == other.weight
}

fn are_parts_same(cart: &PricedCart, other: &PricedCart) -> bool
    ensures { IsTrue result ↔ ArePartsSame cart.now other.now }
{
    cart.delivery.is_same(&other.delivery)
        && cart.delivery_discounts.is_same(&other.delivery_discounts)
        && cart.discounts.is_same(&other.discounts)
        && cart.lines.is_same(&other.lines)
        && cart.taxes.is_same(&other.taxes)
        && cart.blocks.is_same(&other.blocks)
}
