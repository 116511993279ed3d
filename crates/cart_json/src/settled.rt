//! What the reply says of a settled cart.
ghost use Rattle.std.specs.Prelude.{◌≡◌, ◌++◌, OnOk};
ghost use Rattle.serde_json.specs.Data.{string};
ghost use Rattle.serde_json.specs.Written.{compact_text};
ghost use Rattle.reply_json.specs.Objects.{id_data};
ghost use Rattle.reply_json.specs.Tokens.{rest_of_array, value_tokens};
ghost use Rattle.cart_json.specs.CartReplies as spec;

use crate::body::Body;
use crate::cart::put_cart;
use cart_price::{Block, Settled};
use shop_defs::{NoMemory, Txt};
use std::alloc::Global;
use std::mem;

/// Prints the body that shows a settled cart, and how many entries were accepted by then, into memory
/// that the caller keeps for this: what keeps it from being ordered, the cart, what its parts are
/// called, in how many rounds it was settled, and the ids of the rules that hold of it.
///
/// What was in the room is let go, and no memory is taken where there is enough. Want of memory is
/// the only error.
pub fn settled_text(
    alloc: Global,
    room: &mut Vec<u8>,
    front: u64,
    settled: &Settled,
) -> Result<(), NoMemory>
    ensures { OnOk result (room.new.items ≡ compact_text (spec.settled_data front settled.now)) }
{
    let mut out = Body::over(mem::replace(room, Vec::new(alloc)));
    put_settled(&mut out, front, settled)?;
    *room = out.into_room();
    Ok(())
}

fn put_settled(out: &mut Body, front: u64, settled: &Settled) -> Result<(), NoMemory>
    ensures { OnOk result (out.new ≡ out.old ++ value_tokens (spec.settled_data front settled.now)) }
{
    out.begin_object()?;
    out.begin_list("blocks")?;
    put_blocks(out, settled.cart.blocks.as_slice())?;
    out.name("cart")?;
    put_cart(out, &settled.cart)?;
    out.count_member("front", front)?;
    out.begin_list("labels")?;
    put_labels(out, settled.labels.as_slice())?;
    out.count_member("rounds", u64::from(settled.rounds))?;
    out.begin_list("rules")?;
    put_rules(out, settled.rules.as_slice())?;
    out.end_object()
}

/// Puts what keeps the cart from being ordered, and the end of its array.
fn put_blocks(out: &mut Body, blocks: &[Block]) -> Result<(), NoMemory>
    ensures { OnOk result (out.new ≡ out.old ++ rest_of_array (spec.items_by spec.block_data blocks.now)) }
{
    for block in blocks {
        put_block(out, block)?;
    }
    out.end_array()
}

fn put_block(out: &mut Body, block: &Block) -> Result<(), NoMemory>
    ensures { OnOk result (out.new ≡ out.old ++ value_tokens (spec.block_data block.now)) }
{
    out.begin_object()?;
    out.text_member("cause", block.cause.as_str())?;
    out.id_member("line", block.line)?;
    out.end_object()
}

/// Puts texts, and the end of their array.
fn put_labels(out: &mut Body, labels: &[Txt]) -> Result<(), NoMemory>
    ensures { OnOk result (out.new ≡ out.old ++ rest_of_array (spec.items_by string labels.now)) }
{
    for label in labels {
        out.text(label.as_str())?;
    }
    out.end_array()
}

/// Puts ids, and the end of their array.
fn put_rules(out: &mut Body, rules: &[u128]) -> Result<(), NoMemory>
    ensures { OnOk result (out.new ≡ out.old ++ rest_of_array (spec.items_by id_data rules.now)) }
{
    for rule in rules {
        out.id(*rule)?;
    }
    out.end_array()
}
