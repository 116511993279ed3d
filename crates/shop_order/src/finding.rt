//! The lines of an order, found by look-ups.
ghost use Rattle.std.specs.Prelude.{◌≡◌, ◌++◌, IfOk, OnOk};
ghost use Rattle.std.specs.Option.{option_copied, option_to_list};
ghost use Rattle.shop_defs.specs.Rows.{IsInKeyOrder};
ghost use Rattle.shop_order.specs.Checked.{AreOrderly};
ghost use Rattle.shop_order.specs.Looking as looking;
ghost use Rattle.shop_order.specs.Wants as spec;

use crate::keys::live_key;
use crate::numbers::{LINE_KIND, LINE_PRODUCT, LINE_QUANTITY};
use crate::stock::size_at;
use crate::wants::Want;
use row_fields::{id_at, is_text_at};
use shop_defs::{Entity, Key, NoMemory, Row};
use shop_rows::Rows;
use std::alloc::{AllocError, Global};

/// The rows stand in the order of their keys.
pub(crate) fn in_order(rows: &Rows)
    ensures { IsInKeyOrder rows.now.list }
{
    // Of this call just its promise is wanted.
    let _all = rows.len();
}

/// What the lines of the order hold, line by line. It costs a look-up for each line. Want of memory is
/// the only error.
pub(crate) fn wants_of(alloc: Global, rows: &Rows, order: u128) -> Result<Vec<Want>, NoMemory>
    requires { AreOrderly rows.now.list }
    ensures wants { IfOk result (λ wants. wants.items ≡ spec.wants_of rows.now.list order) }
    ensures few { IfOk result (λ wants. spec.AreFew wants.items) }
{
    in_order(rows);
    let mut wants = Vec::new(alloc);
    let mut at = live_key(Entity::OrderLine, order, 0);
    while let Some(row) = next_line(rows, order, &at) {
        push_if_any(&mut wants, want_of(row))?;
        at = row.key;
    }
    Ok(wants)
}

/// The row after the key, where it is a line of the order.
fn next_line<'a>(rows: &'a Rows, order: u128, key: &Key) -> Option<&'a Row>
    ensures { option_copied result ≡ looking.next_line rows.entry.now.list order key.now }
{
    match rows.after(key) {
        Some(row) if is_line_key(order, &row.key) => Some(row),
        _ => None,
    }
}

fn is_line_key(order: u128, key: &Key) -> bool
    ensures { result ≡ spec.is_line_key order key.now }
{
    key.entity == Entity::OrderLine && key.version == 0 && key.id == order
}

/// The pieces that a line holds, if it is one of a product.
fn want_of(line: &Row) -> Option<Want>
    ensures { result ≡ spec.want_of line.now }
{
    if !is_text_at(line, LINE_KIND, b"product") {
        return None;
    }
    match id_at(line, LINE_PRODUCT) {
        Some(product) => Some(Want {
            product,
            quantity: size_at(line, LINE_QUANTITY),
        }),
        None => None,
    }
}

/// Puts it at the end, if there is one.
fn push_if_any(wants: &mut Vec<Want>, want: Option<Want>) -> Result<(), AllocError>
    ensures { OnOk result (wants.new.items ≡ wants.old.items ++ option_to_list want) }
{
    match want {
        Some(want) => Ok(wants.push(want)?),
        None => Ok(()),
    }
}
