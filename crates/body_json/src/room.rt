//! Lists with room for what is to come.
ghost use Rattle.std.specs.Prelude.{◌≡◌, [], IfOk};

use shop_defs::{List, NoMemory};
use std::alloc::Global;

/// A list with no elements that takes no further memory for so many.
pub fn with_room<T>(alloc: Global, count: usize) -> Result<List<T>, NoMemory>
    ensures { IfOk result (λ list. list ≡ []) }
{
    Ok(List::from_vec(Vec::with_capacity(alloc, count)?))
}
