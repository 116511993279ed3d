//! What is shown of the lines, and what keeps a cart from being ordered.
ghost use Rattle.std.specs.Prelude.{◌≡◌, ◌++◌, map, length, IfOk};
ghost use Rattle.std.specs.List.{AllByRecursion};
ghost use Rattle.cart_price.specs.Lent.{line_rows};
ghost use Rattle.cart_process.specs.Kept.{IsLineKept};
ghost use Rattle.cart_process.specs.LinePrices.{PriceFits};
ghost use Rattle.cart_process.specs.Priced as spec;

use crate::goods::total_of;
use crate::line_price::{Cause, LinePrice};
use crate::lines::quantity_of;
use crate::numbers::LINE_PRODUCT;
use cart_price::{Block, LentLine, PricedLine};
use row_fields::id_at;
use shop_defs::{List, NoMemory, Txt};
use std::alloc::{AllocError, Global};

/// The lines with their prices. Want of memory is the only error.
pub(crate) fn lines_of(
    alloc: Global,
    lines: &[LentLine<'_>],
    prices: &[LinePrice],
) -> Result<Vec<PricedLine>, AllocError>
    requires kept { AllByRecursion IsLineKept (map line_rows lines.now) }
    requires fit { AllByRecursion PriceFits prices.now }
    ensures { IfOk result (λ found. found.items ≡ spec.lines_by (map line_rows lines.now) prices.now) }
{
    let mut found = Vec::with_capacity(alloc, lines.len())?;
    let mut at = lines;
    let mut costs = prices;
    while let ([line, more @ ..], [price, rest @ ..]) = (at, costs) {
        found.push(priced(line, price))?;
        at = more;
        costs = rest;
    }
    Ok(found)
}

#[tactic(auto, using(crate::proofs::FieldNumbers::numbers))]
fn priced(lent: &LentLine<'_>, price: &LinePrice) -> PricedLine
    requires kept { IsLineKept (line_rows lent.now) }
    requires fits { PriceFits price.now }
    ensures { result ≡ spec.priced_by (line_rows lent.now) price.now }
{
    PricedLine {
        id: lent.line.key.id,
        product: id_at(lent.line, LINE_PRODUCT).unwrap_or(0),
        quantity: quantity_of(lent.line) as u32,
        rate: price.rate,
        total: total_of(price) as i64,
        unit: price.unit as i64,
    }
}

/// What keeps a cart from being ordered: of the lines in their order, and last of the delivery. Want of
/// memory is the only error.
pub(crate) fn blocks_of(
    alloc: Global,
    lines: &[LentLine<'_>],
    prices: &[LinePrice],
    cart: u128,
    cause: Option<Cause>,
) -> Result<List<Block>, NoMemory>
    ensures { IfOk result (λ blocks. blocks ≡ spec.blocks_by (map line_rows lines.now) prices.now ++ spec.blocked_by cart cause) }
{
    let blocks = line_blocks(alloc, lines, prices)?;
    with_block(alloc, blocks, cart, cause)
}

fn line_blocks(
    alloc: Global,
    lines: &[LentLine<'_>],
    prices: &[LinePrice],
) -> Result<List<Block>, NoMemory>
    ensures { IfOk result (λ blocks. blocks ≡ spec.blocks_by (map line_rows lines.now) prices.now) }
{
    let mut blocks = List::new(alloc);
    let mut at = lines;
    let mut costs = prices;
    while let ([line, more @ ..], [price, rest @ ..]) = (at, costs) {
        blocks = with_block(alloc, blocks, line.line.key.id, price.cause)?;
        at = more;
        costs = rest;
    }
    Ok(blocks)
}

/// The blocks with one more, if there is a cause.
fn with_block(
    alloc: Global,
    blocks: List<Block>,
    line: u128,
    cause: Option<Cause>,
) -> Result<List<Block>, NoMemory>
    ensures { IfOk result (λ after. after ≡ blocks ++ spec.blocked_by line cause) }
{
    let Some(cause) = cause else {
        return Ok(blocks);
    };
    let mut after = blocks;
    after.push(Block {
        cause: Txt::from_str(alloc, cause.text())?,
        line,
    })?;
    Ok(after)
}
