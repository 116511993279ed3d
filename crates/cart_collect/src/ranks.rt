//! The order in which the lines of a cart and the promotions of a shop count.
ghost use Rattle.std.specs.Prelude.{◌≡◌, refl};
ghost use Rattle.std.specs.Cmp.{eq_by_cmp_equiv, partial_equiv_from_equiv, po};
ghost use Rattle.std.specs.Ordering.{as_partial_cmp, eq_by_cmp};
ghost use Rattle.cart_collect.specs.Ranks.{rank_cmp};
ghost use Rattle.cart_collect.specs.RankOrder.{rank_cmp_total};

use shop_defs::Key;
use std::cmp::Ordering;

/// What a row ranks by: a lower position comes first, then a higher priority, then a lower key. A
/// line has no priority, and a promotion no position: each is 0 then.
#[derive(Drop, Clone, Copy)]
pub(crate) struct Rank {
    pub(crate) position: i64,
    pub(crate) priority: i64,
    pub(crate) key: Key,
}

impl Rank {
    /// How two ranks stand to each other.
    fn order(&self, other: &Rank) -> Ordering
        ensures { result ≡ rank_cmp self.now other.now }
    {
        self.position.cmp(&other.position).then(
            other
                .priority
                .cmp(&self.priority)
                .then(self.key.order(&other.key)),
        )
    }
}

impl PartialEq for Rank {
    ghost eq = { eq_by_cmp rank_cmp };

    ghost laws = { partial_equiv_from_equiv (eq_by_cmp_equiv rank_cmp_total) };

    fn eq(&self, other: &Rank) -> bool {
        self.order(other).is_eq()
    }
}

impl Eq for Rank {
    ghost laws = { eq_by_cmp_equiv rank_cmp_total };
}

impl PartialOrd for Rank {
    ghost partial_cmp = { as_partial_cmp rank_cmp };

    ghost laws = { po rank_cmp_total (λ _ _. refl) };

    fn partial_cmp(&self, other: &Rank) -> Option<Ordering> {
        Some(self.cmp(other))
    }
}

impl Ord for Rank {
    ghost cmp = { rank_cmp };

    ghost total = { rank_cmp_total };

    ghost matches_partial_cmp = { λ _ _. refl };

    ghost matches_eq = { λ _ _. refl };

    fn cmp(&self, other: &Rank) -> Ordering {
        self.order(other)
    }
}
