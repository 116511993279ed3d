//! Conditions that look at a cart or at the moment.
ghost use Rattle.std.specs.Prelude.{◌≡◌};
ghost use Rattle.shop_rules.specs.Days.{IsMoment};
ghost use Rattle.shop_rules.specs.Conditions as spec;

use crate::days::{day_at, weekday_at};
use crate::facts::CartFacts;
use crate::leaf::{Leaf, leaf_of};
use crate::numbers::{FROM_DAY, HIGH, LOW, METHOD, PRODUCT, TEXT, TO_DAY};
use row_fields::{id_at, int_at, is_text_at, lies};
use shop_defs::Row;

/// Whether a condition that looks at a cart or at the moment is met: not where it looks at neither.
pub(crate) fn is_met(facts: &CartFacts, moment: i64, node: &Row) -> bool
    requires { IsMoment moment }
    ensures { result ≡ spec.is_met facts.now moment node.now }
{
    match leaf_of(node) {
        Some(leaf) => is_met_as(leaf, facts, moment, node),
        None => false,
    }
}

#[tactic(auto, using(crate::proofs::FieldNumbers::numbers))]
fn is_met_as(leaf: Leaf, facts: &CartFacts, moment: i64, node: &Row) -> bool
    requires { IsMoment moment }
    ensures { result ≡ spec.is_met_as leaf facts.now moment node.now }
{
    match leaf {
        Leaf::Amount => is_within(node, facts.goods),
        Leaf::Count => is_within(node, facts.count),
        Leaf::Weight => is_within(node, facts.weight),
        Leaf::Weekday => is_within(node, weekday_at(moment)),
        Leaf::Day => lies(int_at(node, FROM_DAY), int_at(node, TO_DAY), day_at(moment)),
        Leaf::Group => is_text_at(node, TEXT, facts.group.as_bytes()),
        Leaf::Country => is_text_at(node, TEXT, facts.country.as_bytes()),
        Leaf::Product => is_one_of(id_at(node, PRODUCT), facts.products.as_slice()),
        Leaf::Method => is_named(id_at(node, METHOD), facts.method),
    }
}

/// Whether the number lies between the condition's bounds.
#[tactic(auto, using(crate::proofs::FieldNumbers::numbers))]
fn is_within(node: &Row, number: i64) -> bool
    ensures { result ≡ spec.is_within node.now number }
{
    lies(int_at(node, LOW), int_at(node, HIGH), number)
}

/// Whether an id is given, and is one of these.
fn is_one_of(id: Option<u128>, ids: &[u128]) -> bool
    ensures { result ≡ spec.is_one_of id ids.now }
{
    match id {
        Some(id) => ids.contains(&id),
        None => false,
    }
}

/// Whether an id is given, and is that one.
fn is_named(id: Option<u128>, other: u128) -> bool
    ensures { result ≡ spec.is_named id other }
{
    match id {
        Some(id) => id == other,
        None => false,
    }
}
