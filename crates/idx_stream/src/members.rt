//! The members of one stream.
ghost use Rattle.std.specs.Prelude.{◌≡◌, is_none, IfOk};
ghost use Rattle.shop_defs.specs.declared.entity.Entity.TheVariants as E;
ghost use Rattle.shop_meanings.specs.Live.{live_row, AreOrderly};
ghost use Rattle.product_meanings.specs.Streams.{members, is_passed as passes_tree};
ghost use Rattle.idx_stream.specs.Affecting as spec;

use crate::filters::{filters, stream_key};
use crate::leaf::Asked;
use id_sets::{Ids, Pick, edited};
use product_rows::{categories, parent_of, product, product_ids};
use shop_defs::{NoMemory, Row};
use shop_rows::Rows;
use std::alloc::Global;
use trees::Tree;

/// Picks the products that pass the filters.
#[derive(Drop)]
struct Passing<'a> {
    rows: &'a Rows,
    tree: &'a Tree,
}

impl Pick for Passing<'_> {
    ghost use Rattle.shop_meanings.specs.Live.{AreOrderly};
    ghost use Rattle.idx_stream.specs.Affecting.{picks as passes_here};

    ghost picks = { λ p id. passes_here p.rows.now.list p.tree.now id };

    ghost IsReady = { λ p. AreOrderly p.rows.now.list };

    fn picks(&self, alloc: Global, id: u128) -> Result<bool, NoMemory> {
        match product(self.rows, id) {
            Some(row) => is_passed(alloc, self.rows, self.tree, row),
            None => Ok(false),
        }
    }
}

/// Whether the product passes the filters.
fn is_passed(alloc: Global, rows: &Rows, tree: &Tree, row: &Row) -> Result<bool, NoMemory>
    requires { AreOrderly rows.now.list }
    ensures { IfOk result (λ answer. answer ≡ passes_tree rows.now.list tree.now row.now) }
{
    let categories = categories(alloc, rows, row)?;
    Ok(tree.holds(&Asked {
        row,
        parent: parent_of(rows, row),
        categories: categories.as_slice(),
    }))
}

/// The members of the stream, by a walk over all products: none where there is no such live stream.
pub(crate) fn find_members(
    alloc: Global,
    rows: &Rows,
    stream: u128,
) -> Result<Option<Ids>, NoMemory>
    requires { AreOrderly rows.now.list }
    ensures { IfOk result (λ found. found ≡ members rows.now.list stream) }
{
    if is_missing(rows, stream) {
        return Ok(None);
    }
    let none = Ids::none(alloc);
    let products = product_ids(alloc, rows)?;
    let found = edited_members(alloc, rows, stream, &none, &products)?;
    Ok(Some(found.unwrap_or(none)))
}

/// Whether there is no such live stream.
fn is_missing(rows: &Rows, stream: u128) -> bool
    ensures { result ≡ is_none (live_row rows.now.list E.Stream stream) }
{
    rows.get(&stream_key(stream)).is_none()
}

/// The ids of which each of the products is one where it is a member of the stream, and the others are
/// as before: `None` where these are the same.
pub(crate) fn edited_members(
    alloc: Global,
    rows: &Rows,
    stream: u128,
    old: &Ids,
    products: &Ids,
) -> Result<Option<Ids>, NoMemory>
    requires { AreOrderly rows.now.list }
    ensures { IfOk result (spec.IsEdited rows.now.list stream old.now products.now) }
{
    let tree = filters(alloc, rows, stream)?;
    let found = edited(alloc, old, products, &Passing { rows, tree: &tree })?;
    Ok(found)
}
