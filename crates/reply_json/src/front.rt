//! What replies say of fronts: of how many entries there are.
ghost use Rattle.std.specs.Prelude.{◌≡◌, ◌++◌, IfOk, OnOk};
ghost use Rattle.serde_json.specs.Written.{compact_text};
ghost use Rattle.reply_json.specs.Fronts as spec;
ghost use Rattle.reply_json.specs.Tokens.{value_tokens};

use crate::body::Body;
use shop_defs::{List, NoMemory};
use std::alloc::Global;

/// The body that says how many entries are accepted, and how many of them the indexes have seen:
/// `{"accepted":N,"published":N}`. Want of memory is the only error.
pub fn front_text(alloc: Global, accepted: u64, published: u64) -> Result<List<u8>, NoMemory>
    ensures { IfOk result (λ body. body ≡ compact_text (spec.front_data accepted published)) }
{
    let mut out = Body::new(alloc)?;
    put_front(&mut out, accepted, published)?;
    Ok(out.finish())
}

fn put_front(out: &mut Body, accepted: u64, published: u64) -> Result<(), NoMemory>
    ensures { OnOk result (out.new ≡ out.old ++ value_tokens (spec.front_data accepted published)) }
{
    out.begin_object()?;
    out.front_member("accepted", accepted)?;
    out.front_member("published", published)?;
    out.end_object()
}

/// The body that says that more entries are asked for than there are:
/// `{"asked":N,"error":"front_unknown","have":N}`. Want of memory is the only error.
pub fn front_unknown_text(alloc: Global, asked: u64, have: u64) -> Result<List<u8>, NoMemory>
    ensures { IfOk result (λ body. body ≡ compact_text (spec.front_unknown_data asked have)) }
{
    let mut out = Body::new(alloc)?;
    put_front_unknown(&mut out, asked, have)?;
    Ok(out.finish())
}

fn put_front_unknown(out: &mut Body, asked: u64, have: u64) -> Result<(), NoMemory>
    ensures { OnOk result (out.new ≡ out.old ++ value_tokens (spec.front_unknown_data asked have)) }
{
    out.begin_object()?;
    out.front_member("asked", asked)?;
    out.text_member("error", "front_unknown")?;
    out.front_member("have", have)?;
    out.end_object()
}
