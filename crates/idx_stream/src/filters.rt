//! The filters of a stream, read from the rows.
ghost use Rattle.std.specs.Prelude.{◌≡◌, ◌++◌, IfOk, OnOk};
ghost use Rattle.std.specs.Option.{option_copied, option_to_list};
ghost use Rattle.shop_defs.specs.declared.entity.Entity.TheVariants as E;
ghost use Rattle.shop_meanings.specs.Live.{live_key};
ghost use Rattle.product_meanings.specs.Streams.{filters as the_filters};
ghost use Rattle.idx_stream.specs.Reading as spec;

use shop_defs::{Copied, Entity, Key, List, NoMemory, Row};
use shop_rows::Rows;
use std::alloc::Global;
use trees::Tree;

/// The key of a live stream.
pub(crate) fn stream_key(id: u128) -> Key
    ensures { result ≡ live_key E.Stream id }
{
    Key {
        entity: Entity::Stream,
        version: 0,
        id,
        second: 0,
    }
}

/// The filters of the stream, as a tree. Want of memory is the only error. It costs a look-up for each
/// of them.
pub(crate) fn filters(alloc: Global, rows: &Rows, stream: u128) -> Result<Tree, NoMemory>
    ensures { IfOk result (λ tree. tree ≡ the_filters rows.now.list stream) }
{
    // Of this call just its promise is wanted: the rows stand in the order of their keys.
    let _all = rows.len();
    let keys = rows.referrers_by(alloc, Entity::StreamFilter, 0, &stream_key(stream))?;
    let nodes = copies_at(alloc, rows, keys.as_slice())?;
    Ok(Tree::from_nodes(List::from_vec(nodes)))
}

/// Copies of the rows at these keys.
fn copies_at(alloc: Global, rows: &Rows, keys: &[Key]) -> Result<Vec<Row>, NoMemory>
    ensures { IfOk result (λ nodes. nodes.items ≡ spec.rows_at rows.now.list keys.now) }
{
    let mut nodes = Vec::new(alloc);
    let mut rest = keys;
    while let [key, more @ ..] = rest {
        push_if_any(alloc, &mut nodes, rows.get(key))?;
        rest = more;
    }
    Ok(nodes)
}

/// Puts a copy of the row at the end, if there is one.
fn push_if_any(alloc: Global, nodes: &mut Vec<Row>, row: Option<&Row>) -> Result<(), NoMemory>
    ensures { OnOk result (nodes.new.items ≡ nodes.old.items ++ option_to_list (option_copied row.entry)) }
{
    match row {
        Some(row) => Ok(nodes.push(row.copy(alloc)?)?),
        None => Ok(()),
    }
}
