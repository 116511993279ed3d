//! Tests of leaves.
ghost use Rattle.std.specs.Prelude.{◌≡◌};

use shop_defs::Row;

/// What the leaves of a tree are asked: of a product, or of a cart.
pub trait Test {
    ghost use Rattle.std.specs.Prelude.{Bool};
    ghost use Rattle.shop_defs.specs.declared.row.Row.{Row};

    ghost says: { Self → Row → Bool };

    /// Whether a leaf holds.
    fn is_met(&self, leaf: &Row) -> bool
        ensures { result ≡ says self.now leaf.now };
}
