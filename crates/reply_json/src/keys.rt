//! Keys as texts.
ghost use Rattle.std.specs.Prelude.{◌≡◌, ◌++◌, ◌+◌, ◌≤◌, length};
ghost use Rattle.arrayvec.specs.ArrayString.{array_string_len};
ghost use Rattle.shop_requests.specs.Ids.{id_text};
ghost use Rattle.reply_json.specs.KeyTexts as spec;

use arrayvec::ArrayString;
use shop_defs::{Key, entity_name};
use shop_requests::write_id;

/// No key's text is longer than that, in bytes: 20 for the entity, and 33 for each number and its
/// mark.
const LONGEST: usize = 119;

#[tactic(auto, using(shop_requests::proofs::IdTexts::text_length))]
fn push_id(text: &mut ArrayString<LONGEST>, id: u128)
    requires { array_string_len text.old + 32 ≤ LONGEST }
    ensures bytes { text.new.bytes ≡ text.old.bytes ++ id_text id }
    ensures len { array_string_len text.new ≡ array_string_len text.old + 32 }
{
    let mut digits = [0; 32];
    text.push_str(write_id(id, &mut digits));
}

/// Puts a number of a key behind a mark, where it isn't 0.
fn push_marked(text: &mut ArrayString<LONGEST>, mark: &str, number: u128)
    requires mark { length mark.now ≡ 1 }
    requires room { array_string_len text.old + 33 ≤ LONGEST }
    ensures bytes { text.new.bytes ≡ text.old.bytes ++ spec.marked mark.now number }
    ensures len { array_string_len text.new ≤ array_string_len text.old + 33 }
{
    if number != 0 {
        text.push_str(mark);
        push_id(text, number);
    }
}

/// The text of a key: `ENTITY/ID`, then `/SECOND` and `@VERSION` where the key has them, each number
/// as 32 digits. It takes no memory.
#[tactic(auto, using(crate::proofs::Lengths::name_short), unfolding(crate::specs::KeyTexts::key_text))]
pub(crate) fn key_text(key: &Key) -> ArrayString<LONGEST>
    ensures { result.bytes ≡ spec.key_text key.now }
{
    let mut text = ArrayString::new();
    text.push_str(entity_name(key.entity));
    text.push_str("/");
    push_id(&mut text, key.id);
    push_marked(&mut text, "/", key.second);
    push_marked(&mut text, "@", key.version);
    text
}
