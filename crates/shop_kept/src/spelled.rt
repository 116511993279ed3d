//! What is written and read one after the other: values, fields and operations.
ghost use Rattle.std.specs.Prelude.{◌≡◌, ◌<◌, ◌++◌, OnOk};
ghost use Rattle.std.specs.List.{flat_map, AllByRecursion};
ghost use Rattle.shop_kept.specs.Readers.{Gives, OnWant, many_at};

use crate::fault::DecodeFault;
use shop_defs::{List, NoMemory};
use std::alloc::Global;

/// What has one spelling.
pub(crate) trait Spelled: Drop {
    ghost use Rattle.std.specs.Prelude.{List, ℕ, Option};

    /// Its bytes.
    ghost spelled: { Self → List ℕ };

    /// That the counts and lengths of the format can tell it.
    ghost fits: { Self → Type 0 };

    /// That it fits, and that its parts are in the ranges of their types.
    ghost is_kept: { Self → Type 0 };

    /// What is read from the front of bytes.
    ghost read_at: { List ℕ → Option (Self × List ℕ) };

    /// How many bytes the spelling takes, so that room is made once. No contract speaks of it.
    fn room(&self) -> usize;

    /// Puts the spelling behind what stands in `out`.
    fn write(&self, out: &mut Vec<u8>) -> Result<(), NoMemory>
        requires { fits self.now }
        ensures bytes { OnOk result (out.new.items ≡ out.old.items ++ spelled self.now) }
        ensures kept { OnOk result (is_kept self.now) };

    /// What stands at the front of the bytes, and the bytes after it.
    fn read(alloc: Global, bytes: &[u8]) -> Result<(Self, &[u8]), DecodeFault>
        ensures { Gives (λ x. (x.0, x.1.now)) result (read_at bytes.now) };
}

/// How many bytes the spellings of all items take.
pub(crate) fn room_of_all<T: Spelled>(items: &[T]) -> usize {
    let mut room: usize = 0;
    for item in items {
        room = room.saturating_add(item.room());
    }
    room
}

/// Puts the spellings of the items behind what stands in `out`, one after the other.
pub(crate) fn write_all<T: Spelled>(items: &[T], out: &mut Vec<u8>) -> Result<(), NoMemory>
    requires { AllByRecursion T.fits items.now }
    ensures bytes { OnOk result (out.new.items ≡ out.old.items ++ flat_map T.spelled items.now) }
    ensures kept { OnOk result (AllByRecursion T.is_kept items.now) }
{
    for item in items {
        item.write(out)?;
    }
    Ok(())
}

/// Reads so many items, each of which takes at least `least` bytes, and gives the bytes after them.
pub(crate) fn read_many<T: Spelled>(
    alloc: Global,
    count: u32,
    least: usize,
    bytes: &[u8],
) -> Result<(List<T>, &[u8]), DecodeFault>
    requires { 0 < least }
    ensures given { Gives (λ x. (x.0, x.1.now)) result (many_at T.read_at count bytes.now) }
    // Of none no memory is wanted.
    ensures wanted { OnWant result (0 < count) }
{
    // No more room than the bytes can fill, whatever the count says.
    let room = (count as usize).min(bytes.len() / least);
    let mut items = List::from_vec(Vec::with_capacity(alloc, room)?);
    let mut rest = bytes;
    for _ in 0..count {
        let (item, after) = T::read(alloc, rest)?;
        items.push(item)?;
        rest = after;
    }
    Ok((items, rest))
}
