//! The lines of a cart and the promotions of a shop, in the order in which they count.
ghost use Rattle.std.specs.Prelude.{◌≡◌, map, IfOk};
ghost use Rattle.cart_price.specs.Lent.{lent_rows};
ghost use Rattle.cart_collect.specs.Collected as spec;
ghost use Rattle.cart_collect.specs.Looking as looking;
ghost use Rattle.cart_collect.specs.Ranks as ranking;

use crate::finding::{in_order, push_if_any, referring_rows};
use crate::numbers::{LINE_POSITION, PROMOTION_PRIORITY};
use crate::ranks::Rank;
use crate::walking::live_rows;
use row_fields::int_at;
use shop_defs::{Entity, List, NoMemory, Row};
use shop_rows::Rows;
use std::alloc::{AllocError, Global};

/// The lines of the cart with that id, by position, then by id. Want of memory is the only error.
pub(crate) fn lines_of<'a>(
    alloc: Global,
    rows: &'a Rows,
    cart: u128,
) -> Result<List<&'a Row>, NoMemory>
    ensures { IfOk result (λ lines. lent_rows lines ≡ spec.lines_of rows.entry.now.list cart) }
{
    in_order(rows);
    let lines = referring_rows(alloc, rows, Entity::CartLine, Entity::Cart, cart)?;
    let mut ranks = line_ranks(alloc, lines.as_slice())?;
    rank(&mut ranks);
    rows_at_ranks(alloc, rows, ranks.as_slice())
}

/// All live promotions, by priority from the highest on, then by id. Want of memory is the only error.
pub(crate) fn promotions_of<'a>(alloc: Global, rows: &'a Rows) -> Result<List<&'a Row>, NoMemory>
    ensures { IfOk result (λ promotions. lent_rows promotions ≡ spec.promotions_of rows.entry.now.list) }
{
    in_order(rows);
    let promotions = live_rows(alloc, rows, Entity::Promotion)?;
    let mut ranks = promotion_ranks(alloc, promotions.as_slice())?;
    rank(&mut ranks);
    rows_at_ranks(alloc, rows, ranks.as_slice())
}

fn line_ranks(alloc: Global, lines: &[&Row]) -> Result<Vec<Rank>, AllocError>
    ensures { IfOk result (λ ranks. ranks.items ≡ map ranking.line_rank (lent_rows lines.now)) }
{
    let mut ranks = Vec::with_capacity(alloc, lines.len())?;
    let mut rest = lines;
    while let [line, more @ ..] = rest {
        ranks.push(line_rank(line))?;
        rest = more;
    }
    Ok(ranks)
}

#[tactic(auto, using(crate::proofs::FieldNumbers::numbers))]
fn line_rank(line: &Row) -> Rank
    ensures { result ≡ ranking.line_rank line.now }
{
    Rank {
        position: int_at(line, LINE_POSITION).unwrap_or(0),
        priority: 0,
        key: line.key,
    }
}

fn promotion_ranks(alloc: Global, promotions: &[&Row]) -> Result<Vec<Rank>, AllocError>
    ensures { IfOk result (λ ranks. ranks.items ≡ map ranking.promotion_rank (lent_rows promotions.now)) }
{
    let mut ranks = Vec::with_capacity(alloc, promotions.len())?;
    let mut rest = promotions;
    while let [promotion, more @ ..] = rest {
        ranks.push(promotion_rank(promotion))?;
        rest = more;
    }
    Ok(ranks)
}

#[tactic(auto, using(crate::proofs::FieldNumbers::numbers))]
fn promotion_rank(promotion: &Row) -> Rank
    ensures { result ≡ ranking.promotion_rank promotion.now }
{
    Rank {
        position: 0,
        priority: int_at(promotion, PROMOTION_PRIORITY).unwrap_or(0),
        key: promotion.key,
    }
}

/// Puts ranks in their order, each once. It takes no memory.
fn rank(ranks: &mut Vec<Rank>)
    ensures { ranks.new.items ≡ looking.in_rank ranks.old.items }
{
    ranks.sort_unstable();
    ranks.dedup();
}

fn rows_at_ranks<'a>(
    alloc: Global,
    rows: &'a Rows,
    ranks: &[Rank],
) -> Result<List<&'a Row>, NoMemory>
    ensures { IfOk result (λ found. lent_rows found ≡ looking.rows_at_ranks rows.entry.now.list ranks.now) }
{
    let mut found = Vec::with_capacity(alloc, ranks.len())?;
    let mut rest = ranks;
    while let [rank, more @ ..] = rest {
        push_if_any(&mut found, rows.get(&rank.key))?;
        rest = more;
    }
    Ok(List::from_vec(found))
}
