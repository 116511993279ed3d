//! Numbers, read from the front of bytes: the most significant byte first.
ghost use Rattle.std.specs.Int.{w32, w64, w128};
ghost use Rattle.shop_kept.specs.Readers.{Gives, OnWant, byte_at, number_at};

use crate::fault::DecodeFault;

/// A number of one byte, and the bytes after it.
pub(crate) fn read_byte(bytes: &[u8]) -> Result<(u8, &[u8]), DecodeFault>
    ensures given { Gives (λ x. (x.0, x.1.now)) result (byte_at bytes.now) }
    ensures takes_none { OnWant result ⊥ }
{
    match bytes {
        [] => Err(DecodeFault::Malformed),
        [first, rest @ ..] => Ok((*first, rest)),
    }
}

/// A number of 4 bytes, and the bytes after it.
pub(crate) fn read_u32(bytes: &[u8]) -> Result<(u32, &[u8]), DecodeFault>
    ensures given { Gives (λ x. (x.0, x.1.now)) result (number_at w32 bytes.now) }
    ensures takes_none { OnWant result ⊥ }
{
    match bytes.split_first_chunk() {
        Some((front, rest)) => Ok((u32::from_be_bytes(*front), rest)),
        None => Err(DecodeFault::Malformed),
    }
}

/// A number of 8 bytes, and the bytes after it.
pub(crate) fn read_u64(bytes: &[u8]) -> Result<(u64, &[u8]), DecodeFault>
    ensures { Gives (λ x. (x.0, x.1.now)) result (number_at w64 bytes.now) }
{
    match bytes.split_first_chunk() {
        Some((front, rest)) => Ok((u64::from_be_bytes(*front), rest)),
        None => Err(DecodeFault::Malformed),
    }
}

/// A number of 16 bytes, and the bytes after it.
pub(crate) fn read_u128(bytes: &[u8]) -> Result<(u128, &[u8]), DecodeFault>
    ensures { Gives (λ x. (x.0, x.1.now)) result (number_at w128 bytes.now) }
{
    match bytes.split_first_chunk() {
        Some((front, rest)) => Ok((u128::from_be_bytes(*front), rest)),
        None => Err(DecodeFault::Malformed),
    }
}
