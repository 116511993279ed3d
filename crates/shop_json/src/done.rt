//! The response to a write that is accepted, printed where there is room for it.
ghost use Rattle.std.specs.Prelude.{◌≡◌, ◌+◌, ◌++◌, ◌≤◌, None, OnOk};
ghost use Rattle.std.specs.Vec.{vec_capacity, vec_len};
ghost use Rattle.shop_http.specs.Responses.{response_text};
ghost use Rattle.shop_core.specs.declared.answers.Reply.TheVariants as replies;
ghost use Rattle.shop_json.specs.Replying.{done_body, reply_body};

use itoa::Buffer;
use shop_defs::NoMemory;
use shop_http::{LONGEST_HEAD, STORE_FAILED_BODY, put, put_head};

/// No response to a write that is accepted is longer than that, in bytes: a head, and two numbers of 20 digits with their names.
pub const LONGEST_DONE: usize = LONGEST_HEAD + 19 + 20 + 20;

/// Takes the room for the response to a write that is accepted, also where the keeper fails. An error comes only where memory is wanting.
pub fn reserve_done(out: &mut Vec<u8>) -> Result<(), NoMemory>
    ensures items { out.new.items ≡ out.old.items }
    ensures room { OnOk result (vec_len out.new + LONGEST_DONE ≤ vec_capacity out.new) }
{
    out.reserve(LONGEST_DONE)?;
    Ok(())
}

/// Puts the response to a write that is accepted as the entry of that number behind what is there, where there is room for the
/// longest one. It takes no memory and can't fail.
#[tactic(auto, unfolding(shop_http::specs::Responses::response_text))]
pub fn put_done(out: &mut Vec<u8>, front: u64, value: i64, closing: bool)
    requires { vec_len out.old + LONGEST_DONE ≤ vec_capacity out.old }
    ensures { out.new.items ≡ out.old.items ++ response_text 200 (done_body front value) None closing }
{
    let mut front_digits = Buffer::new();
    let mut value_digits = Buffer::new();
    let front = front_digits.format(front);
    let value = value_digits.format(value);
    put_head(out, 200, 19 + front.len() + value.len(), None, closing);
    put(out, b"{\"front\":");
    put(out, front.as_bytes());
    put(out, b",\"value\":");
    put(out, value.as_bytes());
    put(out, b"}");
}

/// Puts the response to a write that is accepted and couldn't be kept behind what is there, with the same room. It takes no memory.
#[tactic(auto, unfolding(shop_http::specs::Responses::response_text))]
pub fn put_store_failed(out: &mut Vec<u8>, closing: bool)
    requires { vec_len out.old + LONGEST_DONE ≤ vec_capacity out.old }
    ensures { out.new.items ≡ out.old.items ++ response_text 503 (reply_body replies.StoreFailed) None closing }
{
    put_head(out, 503, STORE_FAILED_BODY.len(), None, closing);
    put(out, STORE_FAILED_BODY);
}
