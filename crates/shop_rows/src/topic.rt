//! What rows are found by, beside their keys.
ghost use Rattle.std.specs.Prelude.{◌≡◌, refl};
ghost use Rattle.std.specs.Cmp.{eq_by_cmp_equiv, partial_equiv_from_equiv, po};
ghost use Rattle.std.specs.Ordering.{as_partial_cmp, eq_by_cmp};
ghost use Rattle.shop_rows.specs.Topics.{topic_cmp};
ghost use Rattle.shop_rows.specs.TopicOrder.{topic_cmp_total};

use shop_defs::{Entity, Key};
use std::cmp::Ordering;

/// What a row is found by, beside its key.
///
/// `Eq` and `Ord` compare the parts in turn, and what a row refers to comes before fingerprints.
#[derive(Drop, Clone, Copy)]
pub(crate) enum Topic {
    /// In that version, the row refers to the row of that entity with that id, by a reference that
    /// a delete looks at.
    RefersTo {
        /// The version of the row that refers.
        version: u128,
        /// The entity referred to.
        of: Entity,
        /// The id referred to.
        id: u128,
    },
    /// The row's entity, version and unique fields, none of them null, have that fingerprint.
    HasPrint(u128),
}

impl Topic {
    /// How two topics stand to each other.
    fn order(&self, other: &Topic) -> Ordering
        ensures { result ≡ topic_cmp self.now other.now }
    {
        match (self, other) {
            (
                Topic::RefersTo { version, of, id },
                Topic::RefersTo {
                    version: other_version,
                    of: other_of,
                    id: other_id,
                },
            ) => version
                .cmp(other_version)
                .then(of.cmp(other_of).then(id.cmp(other_id))),
            (Topic::RefersTo { .. }, Topic::HasPrint(_)) => Ordering::Less,
            (Topic::HasPrint(_), Topic::RefersTo { .. }) => Ordering::Greater,
            (Topic::HasPrint(print), Topic::HasPrint(other_print)) => print.cmp(other_print),
        }
    }
}

impl PartialEq for Topic {
    ghost eq = { eq_by_cmp topic_cmp };

    ghost laws = { partial_equiv_from_equiv (eq_by_cmp_equiv topic_cmp_total) };

    fn eq(&self, other: &Topic) -> bool {
        self.order(other).is_eq()
    }
}

impl Eq for Topic {
    ghost laws = { eq_by_cmp_equiv topic_cmp_total };
}

impl PartialOrd for Topic {
    ghost partial_cmp = { as_partial_cmp topic_cmp };

    ghost laws = { po topic_cmp_total (λ _ _. refl) };

    fn partial_cmp(&self, other: &Topic) -> Option<Ordering> {
        Some(self.cmp(other))
    }
}

impl Ord for Topic {
    ghost cmp = { topic_cmp };

    ghost total = { topic_cmp_total };

    ghost matches_partial_cmp = { λ _ _. refl };

    ghost matches_eq = { λ _ _. refl };

    fn cmp(&self, other: &Topic) -> Ordering {
        self.order(other)
    }
}

/// That the row with the key is found by the topic.
#[derive(Drop, Clone, Copy, PartialEq, Eq, PartialOrd, Ord)]
pub(crate) struct Mention {
    pub(crate) topic: Topic,
    pub(crate) key: Key,
}
