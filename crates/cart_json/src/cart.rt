//! What is said of a cart with its prices.
ghost use Rattle.std.specs.Prelude.{◌≡◌, ◌++◌, Some, OnOk};
ghost use Rattle.std.specs.Option.{option_copied};
ghost use Rattle.reply_json.specs.Tokens.{rest_of_array, value_tokens};
ghost use Rattle.cart_json.specs.CartReplies as spec;

use crate::body::Body;
use cart_price::{Delivery, Discount, PricedCart, PricedLine, TaxSum};
use shop_defs::NoMemory;

pub(crate) fn put_cart(out: &mut Body, cart: &PricedCart) -> Result<(), NoMemory>
    ensures { OnOk result (out.new ≡ out.old ++ value_tokens (spec.cart_data cart.now)) }
{
    out.begin_object()?;
    out.number_member("count", &cart.count)?;
    out.name("delivery")?;
    put_delivery(out, cart.delivery.as_ref())?;
    out.begin_list("delivery_discounts")?;
    put_discounts(out, cart.delivery_discounts.as_slice())?;
    out.begin_list("discounts")?;
    put_discounts(out, cart.discounts.as_slice())?;
    out.number_member("goods", &cart.goods)?;
    out.begin_list("lines")?;
    put_lines(out, cart.lines.as_slice())?;
    out.number_member("raw", &cart.raw)?;
    out.number_member("tax", &cart.tax)?;
    out.begin_list("taxes")?;
    put_taxes(out, cart.taxes.as_slice())?;
    out.number_member("total", &cart.total)?;
    out.number_member("weight", &cart.weight)?;
    out.end_object()
}

/// Puts the delivery, or null where there is none.
fn put_delivery(out: &mut Body, delivery: Option<&Delivery>) -> Result<(), NoMemory>
    ensures { OnOk result (out.new ≡ out.old ++ value_tokens (spec.delivery_data (option_copied delivery.entry))) }
{
    match delivery {
        Some(delivery) => put_method(out, delivery),
        None => out.null(),
    }
}

fn put_method(out: &mut Body, delivery: &Delivery) -> Result<(), NoMemory>
    ensures { OnOk result (out.new ≡ out.old ++ value_tokens (spec.delivery_data (Some delivery.now))) }
{
    out.begin_object()?;
    out.number_member("cost", &delivery.cost)?;
    out.id_member("method", delivery.method)?;
    out.count_member("rate", u64::from(delivery.rate))?;
    out.end_object()
}

/// Puts discounts, and the end of their array.
fn put_discounts(out: &mut Body, discounts: &[Discount]) -> Result<(), NoMemory>
    ensures { OnOk result (out.new ≡ out.old ++ rest_of_array (spec.items_by spec.discount_data discounts.now)) }
{
    for discount in discounts {
        put_discount(out, discount)?;
    }
    out.end_array()
}

fn put_discount(out: &mut Body, discount: &Discount) -> Result<(), NoMemory>
    ensures { OnOk result (out.new ≡ out.old ++ value_tokens (spec.discount_data discount.now)) }
{
    out.begin_object()?;
    out.number_member("amount", &discount.amount)?;
    out.id_member("discount", discount.discount)?;
    out.id_member("promotion", discount.promotion)?;
    out.end_object()
}

/// Puts lines, and the end of their array.
fn put_lines(out: &mut Body, lines: &[PricedLine]) -> Result<(), NoMemory>
    ensures { OnOk result (out.new ≡ out.old ++ rest_of_array (spec.items_by spec.line_data lines.now)) }
{
    for line in lines {
        put_line(out, line)?;
    }
    out.end_array()
}

fn put_line(out: &mut Body, line: &PricedLine) -> Result<(), NoMemory>
    ensures { OnOk result (out.new ≡ out.old ++ value_tokens (spec.line_data line.now)) }
{
    out.begin_object()?;
    out.id_member("id", line.id)?;
    out.id_member("product", line.product)?;
    out.count_member("quantity", u64::from(line.quantity))?;
    out.count_member("rate", u64::from(line.rate))?;
    out.number_member("total", &line.total)?;
    out.number_member("unit", &line.unit)?;
    out.end_object()
}

/// Puts what the cart comes to at each tax rate, and the end of its array.
fn put_taxes(out: &mut Body, taxes: &[TaxSum]) -> Result<(), NoMemory>
    ensures { OnOk result (out.new ≡ out.old ++ rest_of_array (spec.items_by spec.tax_data taxes.now)) }
{
    for sum in taxes {
        put_tax(out, sum)?;
    }
    out.end_array()
}

fn put_tax(out: &mut Body, sum: &TaxSum) -> Result<(), NoMemory>
    ensures { OnOk result (out.new ≡ out.old ++ value_tokens (spec.tax_data sum.now)) }
{
    out.begin_object()?;
    out.number_member("amount", &sum.amount)?;
    out.count_member("rate", u64::from(sum.rate))?;
    out.number_member("tax", &sum.tax)?;
    out.end_object()
}
