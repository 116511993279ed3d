//! The order in which rules count.
ghost use Rattle.std.specs.Prelude.{◌≡◌, refl};
ghost use Rattle.std.specs.Cmp.{eq_by_cmp_equiv, partial_equiv_from_equiv, po};
ghost use Rattle.std.specs.Ordering.{as_partial_cmp, eq_by_cmp};
ghost use Rattle.shop_rules.specs.Ranking.{rank_cmp};
ghost use Rattle.shop_rules.specs.RankOrder.{rank_cmp_total};

use std::cmp::Ordering;

/// What a rule ranks by. Rules count by priority, from the highest on, and then by id.
#[derive(Drop, Clone, Copy)]
pub(crate) struct Ranked {
    pub(crate) priority: i64,
    pub(crate) id: u128,
}

impl Ranked {
    /// How two rules stand to each other.
    fn order(&self, other: &Ranked) -> Ordering
        ensures { result ≡ rank_cmp self.now other.now }
    {
        other
            .priority
            .cmp(&self.priority)
            .then(self.id.cmp(&other.id))
    }
}

impl PartialEq for Ranked {
    ghost eq = { eq_by_cmp rank_cmp };

    ghost laws = { partial_equiv_from_equiv (eq_by_cmp_equiv rank_cmp_total) };

    fn eq(&self, other: &Ranked) -> bool {
        self.order(other).is_eq()
    }
}

impl Eq for Ranked {
    ghost laws = { eq_by_cmp_equiv rank_cmp_total };
}

impl PartialOrd for Ranked {
    ghost partial_cmp = { as_partial_cmp rank_cmp };

    ghost laws = { po rank_cmp_total (λ _ _. refl) };

    fn partial_cmp(&self, other: &Ranked) -> Option<Ordering> {
        Some(self.cmp(other))
    }
}

impl Ord for Ranked {
    ghost cmp = { rank_cmp };

    ghost total = { rank_cmp_total };

    ghost matches_partial_cmp = { λ _ _. refl };

    ghost matches_eq = { λ _ _. refl };

    fn cmp(&self, other: &Ranked) -> Ordering {
        self.order(other)
    }
}
