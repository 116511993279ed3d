//! Fields: each its number and what stands beside it, by ascending number.
ghost use Rattle.std.specs.Prelude.{◌≡◌, ◌<◌, ◌++◌, OnOk};
ghost use Rattle.shop_kept.specs.Readers.{Gives, OnWant, byte_at, count_said};
ghost use Rattle.shop_kept.specs.Spelling.{kept_field, kept_fields, rises, FitsField, FitFields, IsField, AreFields};
ghost use Rattle.shop_kept.specs.Reading.{field_at, fields_at};

use crate::fault::DecodeFault;
use crate::numbers::read_byte;
use crate::spelled::{Spelled, read_many, room_of_all, write_all};
use shop_defs::{List, NoMemory};
use std::alloc::Global;

/// The bytes of the shortest field: its number and a tag.
const LEAST: usize = 2;

impl<T: Spelled> Spelled for (u8, T) {
    ghost spelled = { kept_field T.spelled };

    ghost fits = { FitsField T.fits };

    ghost is_kept = { IsField T.is_kept };

    ghost read_at = { field_at T.read_at };

    fn room(&self) -> usize {
        self.1.room().saturating_add(1)
    }

    fn write(&self, out: &mut Vec<u8>) -> Result<(), NoMemory> {
        out.push(self.0)?;
        Ok(self.1.write(out)?)
    }

    fn read(alloc: Global, bytes: &[u8]) -> Result<((u8, T), &[u8]), DecodeFault> {
        let (number, rest) = read_byte(bytes)?;
        let (value, rest) = T::read(alloc, rest)?;
        Ok(((number, value), rest))
    }
}

/// How many bytes the fields take with their count.
pub(crate) fn room_of_fields<T: Spelled>(fields: &[(u8, T)]) -> usize {
    room_of_all(fields).saturating_add(1)
}

/// Puts the fields with their count behind what stands in `out`.
pub(crate) fn write_fields<T: Spelled>(
    fields: &[(u8, T)],
    out: &mut Vec<u8>,
) -> Result<(), NoMemory>
    requires { FitFields T.fits fields.now }
    ensures bytes { OnOk result (out.new.items ≡ out.old.items ++ kept_fields T.spelled fields.now) }
    ensures kept { OnOk result (AreFields T.is_kept fields.now) }
{
    out.push(fields.len() as u8)?;
    write_all(fields, out)
}

/// Whether the numbers ascend, the first from above one.
fn do_rise<T>(above: u8, fields: &[(u8, T)]) -> bool
    ensures { result ≡ rises above fields.now }
{
    let mut above = above;
    let mut rest = fields;
    while let [(number, _), more @ ..] = rest {
        if *number <= above {
            return false;
        }
        above = *number;
        rest = more;
    }
    true
}

/// The fields at the front of the bytes, and the bytes after them.
pub(crate) fn read_fields<T: Spelled>(
    alloc: Global,
    bytes: &[u8],
) -> Result<(List<(u8, T)>, &[u8]), DecodeFault>
    ensures given { Gives (λ x. (x.0, x.1.now)) result (fields_at T.read_at bytes.now) }
    ensures wanted { OnWant result (0 < count_said byte_at bytes.now) }
{
    let (count, rest) = read_byte(bytes)?;
    let (fields, rest): (List<(u8, T)>, &[u8]) = read_many(alloc, count as u32, LEAST, rest)?;
    if !do_rise(0, fields.as_slice()) {
        return Err(DecodeFault::Malformed);
    }
    Ok((fields, rest))
}
