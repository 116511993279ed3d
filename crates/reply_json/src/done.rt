//! What replies say of accepted writes.
ghost use Rattle.std.specs.Prelude.{◌≡◌, ◌++◌, IfOk, OnOk};
ghost use Rattle.serde_json.specs.Written.{compact_text};
ghost use Rattle.reply_json.specs.RowReplies.{done_data};
ghost use Rattle.reply_json.specs.Tokens.{value_tokens};

use crate::body::Body;
use shop_defs::{List, NoMemory};
use std::alloc::Global;

/// The body that says that a write is accepted: `{"front":N,"value":N}`, with how many entries were
/// accepted by then and the value of this one. Want of memory is the only error.
pub fn done_text(alloc: Global, front: u64, value: i64) -> Result<List<u8>, NoMemory>
    ensures { IfOk result (λ body. body ≡ compact_text (done_data front value)) }
{
    let mut out = Body::new(alloc)?;
    put_done(&mut out, front, value)?;
    Ok(out.finish())
}

fn put_done(out: &mut Body, front: u64, value: i64) -> Result<(), NoMemory>
    ensures { OnOk result (out.new ≡ out.old ++ value_tokens (done_data front value)) }
{
    out.begin_object()?;
    out.name("front")?;
    out.count(front)?;
    out.number_member("value", &value)?;
    out.end_object()
}
