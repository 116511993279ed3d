//! What rules look at of a cart with its prices.
ghost use Rattle.std.specs.Prelude.{◌≡◌, ◌++◌, [], map, unwrap_or, IfOk};
ghost use Rattle.std.specs.List.{flat_map};
ghost use Rattle.std.specs.Option.{option_copied};
ghost use Rattle.row_fields.specs.Fields as fields;
ghost use Rattle.cart_price.specs.Lent.{cart_rows, line_rows};
ghost use Rattle.cart_loop.specs.Facts as spec;

use crate::numbers::{CART_COUNTRY, CART_GROUP, CART_METHOD};
use cart_price::{CartData, LentLine, PricedCart};
use row_fields::id_at;
use shop_defs::{Copied, List, NoMemory, Row, Txt, Value};
use shop_rules::CartFacts;
use std::alloc::{AllocError, Global};

/// What rules look at of a cart with its prices. Want of memory is the only error.
#[tactic(auto, using(crate::proofs::FieldNumbers::numbers))]
pub(crate) fn facts_of(
    alloc: Global,
    lent: &CartData<'_>,
    cart: &PricedCart,
) -> Result<CartFacts, NoMemory>
    ensures { IfOk result (λ facts. facts ≡ spec.facts_of (cart_rows lent.now) cart.now) }
{
    let products = products_of(alloc, lent.lines.as_slice())?;
    let group = text_or_none(alloc, text_in(lent.cart, CART_GROUP))?;
    let country = text_or_none(alloc, text_in(lent.cart, CART_COUNTRY))?;
    let method = id_at(lent.cart, CART_METHOD).unwrap_or(0);
    Ok(facts_by(cart, List::from_vec(products), group, country, method))
}

fn facts_by(
    cart: &PricedCart,
    products: List<u128>,
    group: Txt,
    country: Txt,
    method: u128,
) -> CartFacts
    ensures { result ≡ spec.facts_by cart.now products group country method }
{
    CartFacts {
        goods: cart.goods,
        count: cart.count,
        weight: cart.weight,
        products,
        group,
        country,
        method,
    }
}

/// The products of the lines, and those products' parents.
fn products_of(alloc: Global, lines: &[LentLine<'_>]) -> Result<Vec<u128>, AllocError>
    ensures { IfOk result (λ products. products.items ≡ flat_map spec.products_of (map line_rows lines.now)) }
{
    let mut products = Vec::new(alloc);
    let mut rest = lines;
    while let [line, more @ ..] = rest {
        products = with_products(products, line)?;
        rest = more;
    }
    Ok(products)
}

/// The products with that of the line and its parent.
fn with_products(products: Vec<u128>, line: &LentLine<'_>) -> Result<Vec<u128>, AllocError>
    ensures { IfOk result (λ after. after.items ≡ products.items ++ spec.products_of (line_rows line.now)) }
{
    let Some(product) = line.product else {
        return Ok(products);
    };
    let mut after = products;
    after.push(product.key.id)?;
    if let Some(parent) = line.parent {
        after.push(parent.key.id)?;
    }
    Ok(after)
}

/// The text that the field holds.
pub(crate) fn text_in(row: &Row, field: u8) -> Option<&Txt>
    ensures { option_copied result ≡ fields.text_at row.now field }
{
    match row.field(field) {
        Some(Value::Text(text)) => Some(text),
        _ => None,
    }
}

/// The text, empty where there is none.
fn text_or_none(alloc: Global, text: Option<&Txt>) -> Result<Txt, NoMemory>
    ensures { IfOk result (λ copy. copy ≡ unwrap_or (option_copied text.entry) []) }
{
    match text {
        Some(text) => text.copy(alloc),
        None => Txt::from_str(alloc, ""),
    }
}
