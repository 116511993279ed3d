//! By which topics a row is found.
ghost use Rattle.std.specs.Prelude.{◌≡◌};
ghost use Rattle.std.specs.List.{list_all};
ghost use Rattle.std.specs.Option.{option_copied, option_map};
ghost use Rattle.shop_rows.specs.Mentions as spec;

use crate::prints::print_in;
use crate::topic::Topic;
use shop_defs::{REFERENCES, Reference, Row};
use shop_operations::named;

/// Whether both rows are there and found by the same topics.
pub(crate) fn are_alike(row: Option<&Row>, other: Option<&Row>) -> bool
    ensures { result ≡ spec.are_alike (option_copied row.entry) (option_copied other.entry) }
{
    match (row, other) {
        (Some(row), Some(other)) => have_same_topics(row, other),
        _ => false,
    }
}

fn have_same_topics(row: &Row, other: &Row) -> bool
    ensures { result ≡ spec.have_same_topics row.now other.now }
{
    same_topic(print_topic(row), print_topic(other)) && refer_alike(&REFERENCES, row, other)
}

fn refer_alike(table: &[Reference], row: &Row, other: &Row) -> bool
    ensures { result ≡ list_all (λ reference. spec.same_topic (spec.topic_by reference row.now) (spec.topic_by reference other.now)) table.now }
{
    table.iter().all(|reference| same_topic(topic_by(reference, row), topic_by(reference, other)))
}

fn same_topic(topic: Option<Topic>, other: Option<Topic>) -> bool
    ensures { result ≡ spec.same_topic topic other }
{
    match (topic, other) {
        (None, None) => true,
        (Some(topic), Some(other)) => topic == other,
        _ => false,
    }
}

/// The topic that the reference gives the row, if it gives one.
pub(crate) fn topic_by(reference: &Reference, row: &Row) -> Option<Topic>
    ensures { result ≡ spec.topic_by reference.now row.now }
{
    if reference.acts_on_delete() {
        return referred(reference, row.key.version, named(reference, row));
    }
    None
}

fn referred(reference: &Reference, version: u128, named: Option<u128>) -> Option<Topic>
    ensures { result ≡ option_map (λ id. Topic.RefersTo version reference.now.of id) named }
{
    match named {
        Some(id) => Some(Topic::RefersTo {
            version,
            of: reference.of,
            id,
        }),
        None => None,
    }
}

/// The topic that the unique fields give the row, if they give one.
pub(crate) fn print_topic(row: &Row) -> Option<Topic>
    ensures { result ≡ spec.print_topic row.now }
{
    match print_in(row.key.version, row) {
        Some(print) => Some(Topic::HasPrint(print)),
        None => None,
    }
}
