//! Which products and which streams a delta affects.
ghost use Rattle.std.specs.Prelude.{◌≡◌, ◌++◌, ℕ, [], ◌⊎◌, false, None, IfOk, OnOk};
ghost use Rattle.std.specs.Option.{option_copied};
ghost use Rattle.shop_defs.specs.declared.entity.Entity.TheVariants as E;
ghost use Rattle.shop_defs.specs.declared.words.FieldName.TheVariants as N;
ghost use Rattle.shop_defs.specs.Rows.{change_rows};
ghost use Rattle.row_fields.specs.Fields.{number_of, id_at as the_id_at};
ghost use Rattle.shop_rows.specs.Changing.{StandUnderTheirKeys, HasAscendingKeys};
ghost use Rattle.id_sets.specs.Sets.{has};
ghost use Rattle.shop_meanings.specs.Live.{AreOrderly, live_row};
ghost use Rattle.idx_stream.specs.Affecting as spec;

use crate::numbers::STREAM;
use id_sets::Ids;
use product_rows::{affected_products, ids_of, is_live_of};
use row_fields::id_at;
use shop_defs::{Delta, Entity, Key, NoMemory, Row};
use shop_rows::Rows;
use std::alloc::Global;

/// What a delta may affect. Contracts see both as lists that ascend.
#[derive(Drop)]
pub struct Affected {
    /// The products whose membership may change, in any stream.
    pub products: Ids,
    /// The streams of which any membership may change, or which come or go.
    pub streams: Ids,
}

/// What the delta may affect, which leads from the rows before to those after. Want of memory is the
/// only error.
pub(crate) fn find_affected(
    alloc: Global,
    before: &Rows,
    after: &Rows,
    delta: &Delta,
) -> Result<Affected, NoMemory>
    requires was_orderly { AreOrderly before.now.list }
    requires orderly { AreOrderly after.now.list }
    requires leads { after.now.list ≡ change_rows before.now.list delta.now.changes }
    requires keys { StandUnderTheirKeys delta.now.changes }
    requires once { HasAscendingKeys delta.now.changes }
    ensures { IfOk result (λ affected. spec.IsOutside before.now.list after.now.list affected.products affected.streams) }
{
    let products = affected_products(alloc, before, after, delta)?;
    let streams = stream_list(alloc, before, after, delta.changes.as_slice())?;
    Ok(Affected {
        products,
        streams: Ids::from_vec(streams),
    })
}

/// The streams that came, went or changed, or of which a filter did.
fn stream_list(
    alloc: Global,
    before: &Rows,
    after: &Rows,
    changes: &[(Key, Option<Row>)],
) -> Result<Vec<u128>, NoMemory>
    ensures { IfOk result (λ ids. ids.items ≡ spec.streams_of before.now.list after.now.list changes.now) }
{
    let mut ids = Vec::new(alloc);
    for change in changes {
        add_streams(&mut ids, before, after, &change.0)?;
    }
    Ok(ids)
}

fn add_streams(ids: &mut Vec<u128>, before: &Rows, after: &Rows, key: &Key) -> Result<(), NoMemory>
    ensures { OnOk result (ids.new.items ≡ ids.old.items ++ spec.streams_at before.now.list after.now.list key.now) }
{
    if is_live_of(Entity::Stream, key) {
        ids.push(key.id)?;
        return Ok(());
    }
    if is_live_of(Entity::StreamFilter, key) {
        return add_both(ids, before.get(key), after.get(key));
    }
    Ok(())
}

#[tactic(auto, using(std::proofs::Common::append_assoc))]
fn add_both(ids: &mut Vec<u128>, before: Option<&Row>, after: Option<&Row>) -> Result<(), NoMemory>
    ensures { OnOk result (ids.new.items ≡ ids.old.items ++ (spec.stream_ids (option_copied before.entry) ++ spec.stream_ids (option_copied after.entry))) }
{
    add_stream(ids, before)?;
    add_stream(ids, after)
}

/// Puts the stream that the filter names at the end, if there is one.
fn add_stream(ids: &mut Vec<u128>, filter: Option<&Row>) -> Result<(), NoMemory>
    ensures { OnOk result (ids.new.items ≡ ids.old.items ++ spec.stream_ids (option_copied filter.entry)) }
{
    if let Some(filter) = filter {
        if let Some(id) = stream_of(filter) {
            ids.push(id)?;
        }
    }
    Ok(())
}

/// The stream that the filter names.
#[tactic(auto, using(crate::proofs::FieldNumbers::numbers))]
fn stream_of(filter: &Row) -> Option<u128>
    ensures { result ≡ the_id_at filter.now (number_of E.StreamFilter N.Stream) }
{
    id_at(filter, STREAM)
}

/// What a delta affects, and the streams that are looked at for it.
#[derive(Drop)]
pub(crate) struct Touched {
    pub(crate) affected: Affected,
    pub(crate) keys: Vec<u128>,
}

/// The streams that are looked at: those that are affected, and where products are affected all live
/// ones. Each other stream has the members that it had.
pub(crate) fn looked_at(
    alloc: Global,
    after: &Rows,
    affected: &Affected,
) -> Result<Vec<u128>, NoMemory>
    ensures { IfOk result (λ keys. (id : ℕ) → has keys.items id ≡ false → spec.IsUntouched after.now.list affected.now.products affected.now.streams id) }
{
    let mut keys = Vec::from_slice(alloc, affected.streams.as_slice())?;
    let others = all_streams(alloc, after, &affected.products)?;
    keys.extend_from_slice(others.as_slice())?;
    Ok(keys)
}

/// All live streams, where there are products: no stream where there are none.
fn all_streams(alloc: Global, rows: &Rows, products: &Ids) -> Result<Vec<u128>, NoMemory>
    ensures { IfOk result (λ ids. (id : ℕ) → has ids.items id ≡ false → (products.now ≡ []) ⊎ (live_row rows.now.list E.Stream id ≡ None)) }
{
    if products.as_slice().is_empty() {
        return Ok(Vec::new(alloc));
    }
    let ids = stream_ids(alloc, rows)?;
    Ok(ids)
}

/// The ids of all live streams.
pub(crate) fn stream_ids(alloc: Global, rows: &Rows) -> Result<Vec<u128>, NoMemory>
    ensures { IfOk result (λ ids. (id : ℕ) → has ids.items id ≡ false → live_row rows.now.list E.Stream id ≡ None) }
{
    let keys = rows.keys_of(alloc, Entity::Stream, 0)?;
    let ids = ids_of(alloc, keys.as_slice())?;
    Ok(ids)
}
