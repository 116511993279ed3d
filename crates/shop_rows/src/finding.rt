//! Rows that are found by topic.
ghost use Rattle.std.specs.Prelude.{◌≡◌, ◌<◌, ◌^◌, map, filter, find, count_by, length, IfOk, OnErr};
ghost use Rattle.std.specs.Option.{option_copied};
ghost use Rattle.paged.specs.Pairs.{key_of};
ghost use Rattle.shop_defs.specs.Rows.{row_at};
ghost use Rattle.shop_defs.specs.declared.table.TheConstants.{REFERENCES};
ghost use Rattle.shop_rows.specs.Mentions.{rows_of};
ghost use Rattle.shop_rows.specs.Owners.{belongs};
ghost use Rattle.shop_rows.specs.Paging.{rows_in, AreFound};
ghost use Rattle.shop_rows.specs.Searches as spec;

use crate::found::Place;
use crate::pages::Pages;
use crate::searches::{EntityOf, LiveId, MentionsAt, RowsAt, TopicOf};
use crate::topic::{Mention, Topic};
use crate::walk::Walk;
use shop_defs::{Entity, Key, OwnerLimit, Part, REFERENCES, Reference, Row};
use shop_operations::{is_id, is_twin, part_of};
use std::alloc::{AllocError, Global};

/// The ids of the rows that the mentions are of.
pub(crate) fn ids_of(alloc: Global, found: MentionsAt<'_, TopicOf>) -> Result<Vec<u128>, AllocError>
    ensures ids { IfOk result (λ ids. ids.items ≡ map (λ pair. pair.0.key.id) found.entry) }
    ensures wanted { OnErr result (0 < length (map (λ pair. pair.0.key.id) found.entry)) }
{
    let mut ids = Vec::new(alloc);
    let mut found = found;
    while let Some(pair) = found.next() {
        ids.push(pair.0.key.id)?;
    }
    Ok(ids)
}

/// The keys of the rows that the mentions are of.
pub(crate) fn keys_of<P: Place<Mention>>(
    alloc: Global,
    found: MentionsAt<'_, P>,
) -> Result<Vec<Key>, AllocError>
    ensures keys { IfOk result (λ keys. keys.items ≡ map (λ pair. pair.0.key) found.entry) }
    ensures wanted { OnErr result (0 < length (map (λ pair. pair.0.key) found.entry)) }
{
    let mut keys = Vec::new(alloc);
    let mut found = found;
    while let Some(pair) = found.next() {
        keys.push(pair.0.key)?;
    }
    Ok(keys)
}

/// How many mentions there are.
pub(crate) fn count_of(found: MentionsAt<'_, TopicOf>) -> usize
    requires { length found < 2 ^ 63 }
    ensures { result ≡ length found.entry }
{
    found.count()
}

/// How many rows there are.
pub(crate) fn count_of_rows(found: RowsAt<'_, LiveId>) -> usize
    requires { length found < 2 ^ 63 }
    ensures { result ≡ length found.entry }
{
    found.count()
}

/// The keys of the rows.
pub(crate) fn keys_of_rows(
    alloc: Global,
    found: RowsAt<'_, EntityOf>,
) -> Result<Vec<Key>, AllocError>
    ensures keys { IfOk result (λ keys. keys.items ≡ map (λ pair. pair.1.key) found.entry) }
    ensures wanted { OnErr result (0 < length (map (λ pair. pair.1.key) found.entry)) }
{
    let mut keys = Vec::new(alloc);
    let mut found = found;
    while let Some(pair) = found.next() {
        keys.push(pair.1.key)?;
    }
    Ok(keys)
}

/// The first of the rows that the mentions are of that is a twin of the row, in the version.
pub(crate) fn first_twin<'a>(
    pages: &'a Pages,
    found: MentionsAt<'a, Topic>,
    version: u128,
    row: &Row,
) -> Option<&'a Row>
    requires { AreFound pages.now.rows pages.now.mentions pages.now.counts }
    ensures { option_copied result ≡ find (spec.is_version_twin version row.now) (rows_of (rows_in pages.entry.now.rows) (map key_of found.entry)) }
{
    let mut found = found;
    while let Some(pair) = found.next() {
        match pages.get(&pair.0.key) {
            Some(other) if is_version_twin(version, row, other) => return Some(other),
            _ => {}
        }
    }
    None
}

/// The keys of all of them that are.
pub(crate) fn keys_of_twins(
    alloc: Global,
    pages: &Pages,
    found: MentionsAt<'_, Topic>,
    version: u128,
    row: &Row,
) -> Result<Vec<Key>, AllocError>
    requires { AreFound pages.now.rows pages.now.mentions pages.now.counts }
    ensures keys { IfOk result (λ keys. keys.items ≡ map (λ pair. pair.0.key) (filter (λ pair. spec.passes (spec.is_version_twin version row.now) (row_at (rows_in pages.now.rows) pair.0.key)) found.entry)) }
    ensures wanted { OnErr result (0 < length (map (λ pair. pair.0.key) (filter (λ pair. spec.passes (spec.is_version_twin version row.now) (row_at (rows_in pages.now.rows) pair.0.key)) found.entry))) }
{
    let mut keys = Vec::new(alloc);
    let mut found = found;
    while let Some(pair) = found.next() {
        if is_twin_at(pages, &pair.0.key, version, row) {
            keys.push(pair.0.key)?;
        }
    }
    Ok(keys)
}

fn is_twin_at(pages: &Pages, key: &Key, version: u128, row: &Row) -> bool
    requires { AreFound pages.now.rows pages.now.mentions pages.now.counts }
    ensures { result ≡ spec.passes (spec.is_version_twin version row.now) (row_at (rows_in pages.now.rows) key.now) }
{
    match pages.get(key) {
        Some(other) => is_version_twin(version, row, other),
        None => false,
    }
}

/// Whether the other is of the version and has the row's unique fields.
fn is_version_twin(version: u128, row: &Row, other: &Row) -> bool
    ensures { result ≡ spec.is_version_twin version row.now other.now }
{
    other.key.version == version && is_twin(row, other)
}

/// How many of the rows that the mentions are of are live and belong to the owner.
pub(crate) fn count_owned_of(
    pages: &Pages,
    found: MentionsAt<'_, TopicOf>,
    limit: &OwnerLimit,
    owner: u128,
) -> usize
    requires found { AreFound pages.now.rows pages.now.mentions pages.now.counts }
    requires few { length found < 2 ^ 63 }
    ensures { result ≡ count_by (λ pair. spec.passes (spec.is_live_of limit.now owner) (row_at (rows_in pages.now.rows) pair.0.key)) found.entry }
{
    found
        .filter(|pair| is_owned_at(pages, &pair.0.key, limit, owner))
        .count()
}

fn is_owned_at(pages: &Pages, key: &Key, limit: &OwnerLimit, owner: u128) -> bool
    requires { AreFound pages.now.rows pages.now.mentions pages.now.counts }
    ensures { result ≡ spec.passes (spec.is_live_of limit.now owner) (row_at (rows_in pages.now.rows) key.now) }
{
    match pages.get(key) {
        Some(row) => is_live_of(limit, owner, row),
        None => false,
    }
}

/// How many of the rows are live and belong to the owner: a walk over all of them.
pub(crate) fn count_owned_in(rows: Walk<'_>, limit: &OwnerLimit, owner: u128) -> usize
    requires { length rows < 2 ^ 63 }
    ensures { result ≡ count_by (spec.is_live_of limit.now owner) rows.entry }
{
    rows.filter(|row| is_live_of(limit, owner, row)).count()
}

/// Whether the row is live, of the limit's entity, and belongs to the owner.
fn is_live_of(limit: &OwnerLimit, owner: u128, row: &Row) -> bool
    ensures { result ≡ spec.is_live_of limit.now owner row.now }
{
    row.key.version == 0 && belongs(limit, owner, row)
}

fn belongs(limit: &OwnerLimit, owner: u128, row: &Row) -> bool
    ensures { result ≡ belongs limit.now owner row.now }
{
    limit.entity == row.key.entity && is_id(part_of(limit.owner, row), owner)
}

/// The reference that a delete looks at, from that part of the entity's rows: `None` where there is
/// none.
pub(crate) fn reference_from(entity: Entity, part: Part) -> Option<&'static Reference>
    ensures { option_copied result ≡ find (spec.is_from entity part) REFERENCES }
{
    REFERENCES
        .iter()
        .find(|reference| is_from(entity, part, reference))
}

fn is_from(entity: Entity, part: Part, reference: &Reference) -> bool
    ensures { result ≡ spec.is_from entity part reference.now }
{
    reference.entity == entity && same_part(reference.part, part) && reference.acts_on_delete()
}

fn same_part(part: Part, other: Part) -> bool
    ensures { result ≡ spec.same_part part other }
{
    match (part, other) {
        (Part::Id, Part::Id) => true,
        (Part::Second, Part::Second) => true,
        (Part::Field(a), Part::Field(b)) => a == b,
        _ => false,
    }
}
