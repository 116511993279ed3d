//! Texts: a length of 4 bytes, and that many bytes of UTF-8.
ghost use Rattle.std.specs.Prelude.{◌≡◌, ◌<◌, ◌^◌, ◌++◌, length, true, false, OnOk, IfOk, IfErr, IsSome};
ghost use Rattle.std.specs.Str.{is_utf8};
ghost use Rattle.shop_kept.specs.declared.fault.DecodeFault.TheVariants as F;
ghost use Rattle.shop_kept.specs.Readers.{Gives, OnWant, text_at};
ghost use Rattle.shop_kept.specs.Spelling.{kept_text, IsText};

use crate::fault::DecodeFault;
use crate::numbers::read_u32;
use shop_defs::{NoMemory, Txt};
use std::alloc::Global;
use std::str::from_utf8;

/// Puts the text behind what stands in `out`.
#[tactic(auto, using(crate::proofs::NotText::is_text))]
pub(crate) fn write_text(text: &Txt, out: &mut Vec<u8>) -> Result<(), NoMemory>
    requires { length text.now < 2 ^ 32 }
    ensures bytes { OnOk result (out.new.items ≡ out.old.items ++ kept_text text.now) }
    ensures kept { OnOk result (IsText text.now) }
{
    let text = text.as_str();
    out.extend_from_slice(&(text.len() as u32).to_be_bytes())?;
    out.extend_from_slice(text.as_bytes())?;
    Ok(())
}

/// The text that bytes are, if they are one.
fn text_of(bytes: &[u8]) -> Result<&str, DecodeFault>
    ensures ok { IfOk result (λ text. (text.now ≡ bytes.now) × (is_utf8 bytes.now ≡ true)) }
    ensures err { IfErr result (λ fault. (fault ≡ F.Malformed) × (is_utf8 bytes.now ≡ false)) }
{
    match from_utf8(bytes) {
        Ok(text) => Ok(text),
        Err(_) => Err(DecodeFault::Malformed),
    }
}

/// The text at the front of the bytes, and the bytes after it.
pub(crate) fn read_text(alloc: Global, bytes: &[u8]) -> Result<(Txt, &[u8]), DecodeFault>
    ensures given { Gives (λ x. (x.0, x.1.now)) result (text_at bytes.now) }
    // Memory is wanted only for a text that is there whole.
    ensures wanted { OnWant result (IsSome (text_at bytes.now)) }
{
    let (length, rest) = read_u32(bytes)?;
    let length = length as usize;
    if rest.len() < length {
        return Err(DecodeFault::Malformed);
    }
    let (front, rest) = rest.split_at(length);
    match text_of(front) {
        Ok(text) => Ok((Txt::from_str(alloc, text)?, rest)),
        Err(_) => Err(DecodeFault::Malformed),
    }
}
