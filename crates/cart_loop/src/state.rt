//! What a round gives.
use crate::same::Same;
use cart_price::PricedCart;
use shop_defs::List;

/// What a round gives: the cart, and the rules that hold of it.
#[derive(Drop)]
pub(crate) struct State {
    /// The cart with its prices.
    pub(crate) cart: PricedCart,
    /// The ids of the rules that hold of it, in the order in which they count.
    pub(crate) rules: List<u128>,
}

impl Same for State {
    fn is_same(&self, other: &State) -> bool {
        self.rules.is_same(&other.rules) && self.cart.is_same(&other.cart)
    }
}
