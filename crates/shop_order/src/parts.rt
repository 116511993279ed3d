//! What the lines of an order say, made of a settled cart.
ghost use Rattle.std.specs.Prelude.{◌≡◌, ◌++◌, map, IfOk, OnOk};
ghost use Rattle.shop_order.specs.Parts as spec;

use crate::wants::Want;
use cart_price::{Delivery, Discount, PricedCart, PricedLine};
use shop_defs::NoMemory;
use std::alloc::{AllocError, Global};

/// What a line of an order is for.
#[derive(Drop, Clone, Copy)]
pub enum LineKind {
    /// Pieces of a product.
    Product,
    /// What is taken off the goods.
    Discount,
    /// The delivery.
    Delivery,
    /// What is taken off the delivery.
    DeliveryDiscount,
}

impl LineKind {
    /// The word for it in a line's row.
    pub fn text(self) -> &'static str
        ensures { result.now ≡ spec.kind_text self }
    {
        match self {
            LineKind::Product => "product",
            LineKind::Discount => "discount",
            LineKind::Delivery => "delivery",
            LineKind::DeliveryDiscount => "delivery_discount",
        }
    }
}

/// What a line of an order says, beside what it is called.
#[derive(Drop, Clone, Copy)]
pub struct OrderPart {
    /// What it is for.
    pub kind: LineKind,
    /// The product, where it is pieces of one.
    pub product: Option<u128>,
    /// How many pieces: 1 where it is no product.
    pub quantity: u32,
    /// The price of one piece, in minor units: below 0 where something is taken off.
    pub unit: i64,
    /// The price of all pieces, in minor units.
    pub total: i64,
    /// The tax rate in hundredths of a percent: none where something is taken off.
    pub rate: Option<u32>,
}

/// What the lines of an order say that is placed of the cart: the cart's lines, its discounts, its
/// delivery, and the discounts on that. Want of memory is the only error, here and below.
pub(crate) fn parts_of(alloc: Global, cart: &PricedCart) -> Result<Vec<OrderPart>, NoMemory>
    requires discounts { spec.AreDiscounts cart.now.discounts }
    requires delivery_discounts { spec.AreDiscounts cart.now.delivery_discounts }
    ensures { IfOk result (λ parts. parts.items ≡ spec.parts cart.now) }
{
    let mut parts = Vec::new(alloc);
    push_lines(&mut parts, cart.lines.as_slice())?;
    push_discounts(&mut parts, LineKind::Discount, cart.discounts.as_slice())?;
    push_delivery(&mut parts, &cart.delivery)?;
    push_discounts(
        &mut parts,
        LineKind::DeliveryDiscount,
        cart.delivery_discounts.as_slice(),
    )?;
    Ok(parts)
}

fn push_lines(parts: &mut Vec<OrderPart>, lines: &[PricedLine]) -> Result<(), AllocError>
    ensures { OnOk result (parts.new.items ≡ parts.old.items ++ map spec.line_part lines.now) }
{
    let mut rest = lines;
    while let [line, more @ ..] = rest {
        parts.push(OrderPart {
            kind: LineKind::Product,
            product: Some(line.product),
            quantity: line.quantity,
            unit: line.unit,
            total: line.total,
            rate: Some(line.rate),
        })?;
        rest = more;
    }
    Ok(())
}

fn push_discounts(
    parts: &mut Vec<OrderPart>,
    kind: LineKind,
    discounts: &[Discount],
) -> Result<(), AllocError>
    requires { spec.AreDiscounts discounts.now }
    ensures { OnOk result (parts.new.items ≡ parts.old.items ++ map (spec.discount_part kind) discounts.now) }
{
    let mut rest = discounts;
    while let [discount, more @ ..] = rest {
        parts.push(discount_part(kind, discount))?;
        rest = more;
    }
    Ok(())
}

fn discount_part(kind: LineKind, discount: &Discount) -> OrderPart
    requires { spec.IsDiscount discount.now }
    ensures { result ≡ spec.discount_part kind discount.now }
{
    let off = 0 - discount.amount;
    OrderPart {
        kind,
        product: None,
        quantity: 1,
        unit: off,
        total: off,
        rate: None,
    }
}

fn push_delivery(parts: &mut Vec<OrderPart>, delivery: &Option<Delivery>) -> Result<(), AllocError>
    ensures { OnOk result (parts.new.items ≡ parts.old.items ++ spec.delivery_parts delivery.now) }
{
    match delivery {
        Some(delivery) => Ok(parts.push(OrderPart {
            kind: LineKind::Delivery,
            product: None,
            quantity: 1,
            unit: delivery.cost,
            total: delivery.cost,
            rate: Some(delivery.rate),
        })?),
        None => Ok(()),
    }
}

/// The pieces that the lines of a cart want.
pub(crate) fn wants_in(alloc: Global, lines: &[PricedLine]) -> Result<Vec<Want>, NoMemory>
    ensures { IfOk result (λ wants. wants.items ≡ map spec.line_want lines.now) }
{
    let mut wants = Vec::new(alloc);
    let mut rest = lines;
    while let [line, more @ ..] = rest {
        wants.push(Want {
            product: line.product,
            quantity: u64::from(line.quantity),
        })?;
        rest = more;
    }
    Ok(wants)
}
