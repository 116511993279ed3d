//! What replies say of where a category stands.
ghost use Rattle.std.specs.Prelude.{◌≡◌, ◌++◌, IfOk, OnOk};
ghost use Rattle.serde_json.specs.Written.{compact_text};
ghost use Rattle.reply_json.specs.Trees as spec;
ghost use Rattle.reply_json.specs.Tokens.{rest_of_array, value_tokens};

use crate::body::Body;
use shop_defs::{Key, List, NoMemory};
use std::alloc::Global;
use std::mem;

/// Prints the body that says where a category stands by the rows after so many entries, into memory that
/// the caller keeps for this, as `seen_text` does: `{"children":N,"front":N,"level":N,"path":[I..]}`, the
/// path from the root to the parent. Want of memory is the only error.
pub fn tree_text(
    alloc: Global,
    room: &mut Vec<u8>,
    front: u64,
    path: &[u128],
    level: u32,
    children: u32,
) -> Result<(), NoMemory>
    ensures { OnOk result (room.new.items ≡ compact_text (spec.tree_data front path.now level children)) }
{
    let mut out = Body::over(mem::replace(room, Vec::new(alloc)));
    put_tree(&mut out, front, path, level, children)?;
    *room = out.into_room();
    Ok(())
}

fn put_tree(
    out: &mut Body,
    front: u64,
    path: &[u128],
    level: u32,
    children: u32,
) -> Result<(), NoMemory>
    ensures { OnOk result (out.new ≡ out.old ++ value_tokens (spec.tree_data front path.now level children)) }
{
    out.begin_object()?;
    out.count_member("children", children)?;
    out.front_member("front", front)?;
    out.count_member("level", level)?;
    out.name("path")?;
    out.begin_array()?;
    put_ids(out, path)?;
    out.end_object()
}

/// Puts ids, and the end of their array.
pub(crate) fn put_ids(out: &mut Body, ids: &[u128]) -> Result<(), NoMemory>
    ensures { OnOk result (out.new ≡ out.old ++ rest_of_array (spec.id_items ids.now)) }
{
    for id in ids {
        out.id(*id)?;
    }
    out.end_array()
}

/// The body that says that no row has the key, by the rows after so many entries:
/// `{"error":"no_such_row","front":N,"key":K}`. Want of memory is the only error.
pub fn missing_text(alloc: Global, front: u64, key: &Key) -> Result<List<u8>, NoMemory>
    ensures { IfOk result (λ body. body ≡ compact_text (spec.missing_data front key.now)) }
{
    let mut out = Body::new(alloc)?;
    put_missing(&mut out, front, key)?;
    Ok(out.finish())
}

fn put_missing(out: &mut Body, front: u64, key: &Key) -> Result<(), NoMemory>
    ensures { OnOk result (out.new ≡ out.old ++ value_tokens (spec.missing_data front key.now)) }
{
    out.begin_object()?;
    out.text_member("error", "no_such_row")?;
    out.front_member("front", front)?;
    out.key_member("key", key)?;
    out.end_object()
}
