//! What a leaf looks at, by the word of its kind.
ghost use Rattle.std.specs.Prelude.{◌≡◌};
ghost use Rattle.shop_rules.specs.Leaves as spec;

use crate::numbers::KIND;
use row_fields::text_at;
use shop_defs::Row;

/// What a leaf looks at.
#[derive(Drop, Clone, Copy)]
pub(crate) enum Leaf {
    Amount,
    Count,
    Weight,
    Weekday,
    Day,
    Group,
    Country,
    Product,
    Method,
}

/// All that a leaf may look at.
static LEAVES: [Leaf; 9] = [
    Leaf::Amount,
    Leaf::Count,
    Leaf::Weight,
    Leaf::Weekday,
    Leaf::Day,
    Leaf::Group,
    Leaf::Country,
    Leaf::Product,
    Leaf::Method,
];

impl Leaf {
    /// The word that the rows have for it.
    fn text(self) -> &'static str
        ensures { result.now ≡ spec.leaf_text self }
    {
        match self {
            Leaf::Amount => "amount",
            Leaf::Count => "count",
            Leaf::Weight => "weight",
            Leaf::Weekday => "weekday",
            Leaf::Day => "day",
            Leaf::Group => "group",
            Leaf::Country => "country",
            Leaf::Product => "product",
            Leaf::Method => "method",
        }
    }
}

/// What the condition looks at: `None` where its word is none of these.
#[tactic(auto, using(crate::proofs::FieldNumbers::numbers))]
pub(crate) fn leaf_of(node: &Row) -> Option<Leaf>
    ensures { result ≡ spec.leaf_of node.now }
{
    match text_at(node, KIND) {
        Some(text) => leaf_named(text),
        None => None,
    }
}

/// The leaf with that word.
#[tactic(auto, unfolding(crate::specs::Leaves::leaf_named))]
fn leaf_named(text: &[u8]) -> Option<Leaf>
    ensures { result ≡ spec.leaf_named text.now }
{
    leaf_in(&LEAVES, text)
}

/// The leaf of the table with that word.
fn leaf_in(table: &[Leaf], text: &[u8]) -> Option<Leaf>
    ensures { result ≡ spec.leaf_in table.now text.now }
{
    let mut rest = table;
    while let [leaf, more @ ..] = rest {
        if leaf.text().as_bytes() == text {
            return Some(*leaf);
        }
        rest = more;
    }
    None
}
