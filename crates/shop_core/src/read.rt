//! Rows as they are shown and listed.
ghost use Rattle.std.specs.Prelude.{◌≡◌, IfOk, OnErr, IsErrOf, IsSome, MatchResult, map, take, filter, option_and_then};
ghost use Rattle.std.specs.List.{take_while};
ghost use Rattle.std.specs.Option.{option_copied};
ghost use Rattle.shop_requests.specs.Operations as Operations;
ghost use Rattle.shop_defs.specs.Rows.{row_at};
ghost use Rattle.shop_defs.specs.Tables as Tables;
ghost use Rattle.shop_chain.specs.Chains as Chains;
ghost use Rattle.shop_chain.specs.Showing as Showing;
ghost use Rattle.shop_core.specs.Requests as spec;
ghost use Rattle.shop_core.specs.Requests.{Shows, listing, reading, with_bare};
ghost use Rattle.shop_core.specs.Seeing.{Sees, SeesRows, is_of};

use crate::answers::{RowReply, RowSeen};
use idx_copy::AskFault;
use shop_chain::{Shown, chain, chain_of, shown_of};
use shop_defs::{
    Broken, Copied, Entity, EntityInfo, Key, KeyForm, List, NoMemory, Row, Txt, Value, entity_info,
    entity_named,
};
use shop_requests::RowRead;
use shop_rows::{Rows, Walk};
use std::alloc::Global;

/// So many rows are listed at most.
const MOST_LISTED: usize = 100;

/// The row that a read asks for, with what is shown beside it, lent.
#[tactic(auto, unfolding(crate::specs::Requests::reading))]
pub(crate) fn see_row<'a>(
    alloc: Global,
    rows: &'a Rows,
    read: &RowRead,
) -> Result<RowSeen<'a>, AskFault>
    ensures seen { Sees result (reading rows.entry.now.list read.now) }
    ensures wanted { IsErrOf result AskFault.NoMemory → IsSome (option_and_then (λ info. spec.wrong_form info read.now) (Tables.info_named read.now.entity)) }
{
    match info_named(read.entity.as_bytes()) {
        Some(info) => see_row_of(alloc, rows, info, read),
        None => Err(AskFault::Refused(Broken::UnknownEntity)),
    }
}

/// What the table says of the entity with that name, if there is one.
fn info_named(name: &[u8]) -> Option<EntityInfo>
    ensures { result ≡ Tables.info_named name.now }
{
    match entity_named(name) {
        Some(entity) => Some(entity_info(entity)),
        None => None,
    }
}

/// The row of that entity that a read asks for.
fn see_row_of<'a>(
    alloc: Global,
    rows: &'a Rows,
    info: EntityInfo,
    read: &RowRead,
) -> Result<RowSeen<'a>, AskFault>
    ensures seen { Sees result (spec.read_in rows.entry.now.list read.now (Some info)) }
    ensures wanted { IsErrOf result AskFault.NoMemory → IsSome (spec.wrong_form info read.now) }
{
    if let Some(broken) = broken_rule(alloc, rows, info, read)? {
        return Err(AskFault::Refused(broken));
    }
    let key = Key {
        entity: info.entity,
        version: 0,
        id: read.id,
        second: read.second,
    };
    match rows.get(&key) {
        Some(row) => Ok(RowSeen {
            row,
            shown: shown_beside(rows, row, read),
        }),
        None => Err(AskFault::Refused(Broken::NoSuchRow { key })),
    }
}

/// The first rule that a read breaks before its row is looked up, if it breaks one.
fn broken_rule(
    alloc: Global,
    rows: &Rows,
    info: EntityInfo,
    read: &RowRead,
) -> Result<Option<Broken>, NoMemory>
    ensures broken { IfOk result (λ broken. broken ≡ Operations.or_else (spec.wrong_form info read.now) (spec.unknown_version rows.now.list read.now)) }
    ensures wanted { OnErr result (IsSome (spec.wrong_form info read.now)) }
{
    if let Some(name) = wrong_second(info.key, read.second) {
        return Ok(Some(Broken::WrongKind {
            field: Txt::from_str(alloc, name)?,
        }));
    }
    if is_known(rows, read.version) {
        return Ok(None);
    }
    Ok(Some(Broken::NoSuchVersion {
        version: read.version,
    }))
}

/// The name of the second part, where it is given for a key of one part, or missing for one of two.
fn wrong_second(key: KeyForm, second: u128) -> Option<&'static str>
    ensures { option_copied result ≡ Operations.wrong_second key second }
{
    match key {
        KeyForm::OnePart if second != 0 => Some("second"),
        KeyForm::TwoParts if second == 0 => Some("second"),
        _ => None,
    }
}

/// Whether the version is the live one, or a draft's.
fn is_known(rows: &Rows, version: u128) -> bool
    ensures { result ≡ spec.is_known rows.now.list version }
{
    if version == 0 {
        return true;
    }
    let draft = Key {
        entity: Entity::Draft,
        version: 0,
        id: version,
        second: 0,
    };
    rows.get(&draft).is_some()
}

/// What is shown beside the row. Where that is nothing, no language is looked up.
fn shown_beside<'a>(rows: &'a Rows, row: &'a Row, read: &RowRead) -> Shown<'a>
    ensures { result ≡ Showing.shown (row_at rows.entry.now.list) 0 row.entry.now read.now.inherit (Chains.chain_of (row_at rows.entry.now.list) read.now.language) }
{
    match row.key.entity {
        Entity::Product | Entity::Category => {
            let languages = chain_of(rows, read.language);
            shown_of(rows, 0, row, read.inherit, &languages)
        }
        _ => shown_of(rows, 0, row, read.inherit, &chain(read.language, None)),
    }
}

/// A copy of the row that a read asks for, with what is shown beside it.
pub(crate) fn copy_row(alloc: Global, rows: &Rows, read: &RowRead) -> Result<RowReply, AskFault>
    ensures { Shows result (reading rows.now.list read.now) }
{
    match see_row(alloc, rows, read) {
        Ok(seen) => Ok(RowReply {
            row: seen.row.copy(alloc)?,
            shown: copy_shown(alloc, &seen.shown)?,
        }),
        Err(fault) => Err(fault),
    }
}

/// A copy of what is lent.
fn copy_shown(alloc: Global, shown: &Shown<'_>) -> Result<List<(Txt, Option<Value>)>, NoMemory>
    ensures { IfOk result (λ copy. copy ≡ shown.now) }
{
    let mut copy = List::from_vec(Vec::with_capacity(alloc, shown.as_slice().len())?);
    for value in shown.as_slice() {
        let name = Txt::from_str(alloc, value.name.text())?;
        copy.push((name, copy_value(alloc, value.value)?))?;
    }
    Ok(copy)
}

fn copy_value(alloc: Global, value: Option<&Value>) -> Result<Option<Value>, NoMemory>
    ensures { IfOk result (λ copy. copy ≡ option_copied value.entry) }
{
    match value {
        Some(value) => Ok(Some(value.copy(alloc)?)),
        None => Ok(None),
    }
}

/// The first 100 live rows of the entity above a place, or all of them where they are fewer, lent.
#[tactic(auto, unfolding(crate::specs::Requests::listing))]
pub(crate) fn see_list<'a>(
    alloc: Global,
    rows: &'a Rows,
    entity: &[u8],
    id: u128,
    second: u128,
) -> Result<Vec<&'a Row>, AskFault>
    ensures rows { SeesRows result (listing rows.entry.now.list entity.now id second) }
    ensures wanted { IsErrOf result AskFault.NoMemory → IsSome (Tables.entity_named entity.now) }
{
    match entity_named(entity) {
        Some(entity) => Ok(listed(alloc, rows, entity, id, second)?),
        None => Err(AskFault::Refused(Broken::UnknownEntity)),
    }
}

/// The rows that are listed: they stand together, right behind the place.
fn listed<'a>(
    alloc: Global,
    rows: &'a Rows,
    entity: Entity,
    id: u128,
    second: u128,
) -> Result<Vec<&'a Row>, NoMemory>
    ensures { IfOk result (λ listed. map (λ row. row.now) listed.items ≡ take spec.most_listed (filter (spec.is_listed entity id second) rows.entry.now.list)) }
{
    // Of this call just its promise of their order is wanted.
    let _order = rows.len();
    let place = Key {
        entity,
        version: 0,
        id,
        second,
    };
    first_live(alloc, entity, rows.behind(&place))
}

/// The first 100 of the rows before the first that is no live one of the entity.
fn first_live<'a>(alloc: Global, entity: Entity, rows: Walk<'a>) -> Result<Vec<&'a Row>, NoMemory>
    ensures { IfOk result (λ listed. map (λ row. row.now) listed.items ≡ take spec.most_listed (take_while (is_of entity) rows.entry)) }
{
    let mut listed = Vec::new(alloc);
    let mut rest = rows;
    while let Some(row) = rest.next() {
        if listed.len() >= MOST_LISTED {
            return Ok(listed);
        }
        if !is_live_of(entity, row) {
            return Ok(listed);
        }
        listed.push(row)?;
    }
    Ok(listed)
}

/// Whether the row is a live one of the entity.
fn is_live_of(entity: Entity, row: &Row) -> bool
    ensures { result ≡ is_of entity row.now }
{
    row.key.entity == entity && row.key.version == 0
}

/// Copies of the rows that are listed.
pub(crate) fn copy_list(
    alloc: Global,
    rows: &Rows,
    entity: &[u8],
    id: u128,
    second: u128,
) -> Result<List<RowReply>, AskFault>
    ensures { Shows result (with_bare (listing rows.now.list entity.now id second)) }
{
    let listed = see_list(alloc, rows, entity, id, second)?;
    Ok(copy_bare(alloc, listed.as_slice())?)
}

/// Copies of the rows, with nothing shown beside them.
fn copy_bare(alloc: Global, rows: &[&Row]) -> Result<List<RowReply>, NoMemory>
    ensures { IfOk result (λ copy. copy ≡ map (λ row. spec.bare row.now) rows.now) }
{
    let mut copy = List::from_vec(Vec::with_capacity(alloc, rows.len())?);
    for row in rows {
        copy.push(RowReply {
            row: row.copy(alloc)?,
            shown: List::new(alloc),
        })?;
    }
    Ok(copy)
}
