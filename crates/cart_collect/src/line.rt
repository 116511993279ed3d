//! The rows that the price of a line is made of.
ghost use Rattle.std.specs.Prelude.{◌≡◌, Some, map, IfOk};
ghost use Rattle.std.specs.Option.{option_copied, option_map};
ghost use Rattle.cart_price.specs.Lent.{line_rows, lent_rows};
ghost use Rattle.shop_defs.specs.declared.entity.Entity.TheVariants as E;
ghost use Rattle.shop_defs.specs.declared.words.FieldName.TheVariants as N;
ghost use Rattle.cart_collect.specs.Collected as spec;
ghost use Rattle.cart_collect.specs.Finding.{naming};

use crate::finding::{in_order, is_referred, live_at, referring_rows};
use crate::numbers::{LINE_PRODUCT, PRODUCT_PARENT, PRODUCT_TAX, TRANSLATED_NAME};
use cart_price::LentLine;
use row_fields::id_at;
use shop_chain::{Chain, effective, text_of};
use shop_defs::{Entity, List, NoMemory, Row, Value};
use shop_rows::Rows;
use std::alloc::Global;

/// The lines with the rows that their prices are made of. Want of memory is the only error.
pub(crate) fn lent_lines<'a>(
    alloc: Global,
    rows: &'a Rows,
    chain: &Chain,
    lines: &[&'a Row],
) -> Result<List<LentLine<'a>>, NoMemory>
    ensures { IfOk result (λ lent. map line_rows lent ≡ map (spec.line_of rows.entry.now.list chain.now) (lent_rows lines.now)) }
{
    let mut lent = Vec::with_capacity(alloc, lines.len())?;
    let mut rest = lines;
    while let [line, more @ ..] = rest {
        lent.push(lent_line(alloc, rows, chain, line)?)?;
        rest = more;
    }
    Ok(List::from_vec(lent))
}

/// The rows that the price of a line is made of.
#[tactic(auto, using(crate::proofs::FieldNumbers::numbers))]
fn lent_line<'a>(
    alloc: Global,
    rows: &'a Rows,
    chain: &Chain,
    line: &'a Row,
) -> Result<LentLine<'a>, NoMemory>
    ensures { IfOk result (λ lent. line_rows lent ≡ spec.line_of rows.entry.now.list chain.now line.entry.now) }
{
    match live_at(rows, Entity::Product, id_at(line, LINE_PRODUCT)) {
        Some(product) => with_product(alloc, rows, chain, line, product),
        None => Ok(without_product(alloc, line)),
    }
}

fn without_product<'a>(alloc: Global, line: &'a Row) -> LentLine<'a>
    ensures { line_rows result ≡ spec.without_product line.entry.now }
{
    LentLine {
        line,
        product: None,
        parent: None,
        has_variants: false,
        prices: List::new(alloc),
        tax: None,
        listed: None,
        name: None,
    }
}

#[tactic(auto, using(crate::proofs::FieldNumbers::numbers, crate::proofs::Naming::found))]
fn with_product<'a>(
    alloc: Global,
    rows: &'a Rows,
    chain: &Chain,
    line: &'a Row,
    product: &'a Row,
) -> Result<LentLine<'a>, NoMemory>
    ensures { IfOk result (λ lent. line_rows lent ≡ spec.by_product rows.entry.now.list chain.now line.entry.now (Some product.entry.now)) }
{
    let parent = live_at(rows, Entity::Product, id_at(product, PRODUCT_PARENT));
    let prices = prices_of(alloc, rows, product.key.id, parent)?;
    let has_variants = has_variants(alloc, rows, product.key.id)?;
    Ok(LentLine {
        line,
        product: Some(product),
        parent,
        has_variants,
        prices,
        tax: live_at(rows, Entity::Tax, tax_id(product, parent)),
        listed: None,
        name: name_of(rows, chain, product, parent),
    })
}

/// Whether the product with that id has variants.
#[tactic(auto, using(crate::proofs::Naming::found))]
fn has_variants(alloc: Global, rows: &Rows, product: u128) -> Result<bool, NoMemory>
    ensures { IfOk result (λ any. any ≡ spec.is_any (naming rows.now.list E.Product N.Parent product)) }
{
    is_referred(alloc, rows, Entity::Product, Entity::Product, product)
}

/// The price rows that count: those of the product, and where it has none its parent's.
fn prices_of<'a>(
    alloc: Global,
    rows: &'a Rows,
    product: u128,
    parent: Option<&Row>,
) -> Result<List<&'a Row>, NoMemory>
    ensures { IfOk result (λ prices. lent_rows prices ≡ spec.or_parents rows.entry.now.list (option_copied parent.entry) (naming rows.entry.now.list E.ProductPrice N.Product product)) }
{
    let own = own_prices(alloc, rows, product)?;
    if !own.is_empty() {
        return Ok(own);
    }
    match parent {
        Some(parent) => own_prices(alloc, rows, parent.key.id),
        None => Ok(own),
    }
}

/// The price rows of the product with that id.
#[tactic(auto, using(crate::proofs::Naming::found))]
fn own_prices<'a>(alloc: Global, rows: &'a Rows, product: u128) -> Result<List<&'a Row>, NoMemory>
    ensures { IfOk result (λ prices. lent_rows prices ≡ naming rows.entry.now.list E.ProductPrice N.Product product) }
{
    in_order(rows);
    referring_rows(alloc, rows, Entity::ProductPrice, Entity::Product, product)
}

/// The id of the tax that counts.
#[tactic(auto, using(crate::proofs::FieldNumbers::numbers))]
fn tax_id(product: &Row, parent: Option<&Row>) -> Option<u128>
    ensures { result ≡ spec.tax_id product.now (option_copied parent.entry) }
{
    match effective(product, parent, PRODUCT_TAX) {
        Some(Value::Ident(id)) => Some(*id),
        _ => None,
    }
}

/// The product's name in the first of the languages that has one.
#[tactic(auto, using(crate::proofs::FieldNumbers::numbers))]
fn name_of<'a>(
    rows: &'a Rows,
    chain: &Chain,
    product: &Row,
    parent: Option<&Row>,
) -> Option<&'a [u8]>
    ensures { option_copied result ≡ spec.name_of rows.entry.now.list chain.now product.now (option_copied parent.entry) }
{
    text_of(
        rows,
        0,
        product.key.id,
        id_of(parent),
        TRANSLATED_NAME,
        chain,
    )
}

fn id_of(row: Option<&Row>) -> Option<u128>
    ensures { result ≡ option_map (λ row. row.key.id) (option_copied row.entry) }
{
    match row {
        Some(row) => Some(row.key.id),
        None => None,
    }
}
