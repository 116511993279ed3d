//! Copies of values, and the want of memory that may keep one from being made.
ghost use Rattle.std.specs.Prelude.{◌≡◌, IfOk};

use std::alloc::{AllocError, AllocFailed, Global};

/// Memory was wanted and refused: the one error of a call that fails for nothing else.
#[derive(Drop, Clone, Copy)]
pub struct NoMemory;

impl From<AllocError> for NoMemory {
    fn from(_: AllocError) -> NoMemory {
        NoMemory
    }
}

impl<T: Drop> From<AllocFailed<T>> for NoMemory {
    fn from(_: AllocFailed<T>) -> NoMemory {
        NoMemory
    }
}

/// A value of which a copy can be made.
pub trait Copied: Drop {
    /// A value equal to this one that shares nothing with it. Want of memory is the only error.
    fn copy(&self, alloc: Global) -> Result<Self, NoMemory>
        ensures { IfOk result (λ r. r ≡ self.now) };
}

impl Copied for u8 {
    fn copy(&self, _alloc: Global) -> Result<u8, NoMemory> {
        Ok(*self)
    }
}

impl Copied for u32 {
    fn copy(&self, _alloc: Global) -> Result<u32, NoMemory> {
        Ok(*self)
    }
}

impl Copied for u128 {
    fn copy(&self, _alloc: Global) -> Result<u128, NoMemory> {
        Ok(*self)
    }
}

impl Copied for i64 {
    fn copy(&self, _alloc: Global) -> Result<i64, NoMemory> {
        Ok(*self)
    }
}

impl Copied for i128 {
    fn copy(&self, _alloc: Global) -> Result<i128, NoMemory> {
        Ok(*self)
    }
}

impl<A: Copied, B: Copied> Copied for (A, B) {
    fn copy(&self, alloc: Global) -> Result<(A, B), NoMemory> {
        let first = self.0.copy(alloc)?;
        let second = self.1.copy(alloc)?;
        Ok((first, second))
    }
}

impl<A: Copied> Copied for Option<A> {
    fn copy(&self, alloc: Global) -> Result<Option<A>, NoMemory> {
        match self {
            None => Ok(None),
            Some(value) => Ok(Some(value.copy(alloc)?)),
        }
    }
}
