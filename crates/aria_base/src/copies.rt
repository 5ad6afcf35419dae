// Copies of values, which need memory.
ghost use Rattle.std.specs.Prelude.{◌≡◌, IfOk};

use crate::memory::Memory;
use std::alloc::Global;

/// A value that can be copied where there is memory for the copy.
pub trait Duplicate: Drop {
    /// A value equal to this one, or that there was no memory.
    fn duplicate(&self, alloc: Global) -> Result<Self, Memory>
        ensures { IfOk result (λ copy. copy ≡ self.now) };
}

impl<T: Duplicate> Duplicate for Option<T> {
    fn duplicate(&self, alloc: Global) -> Result<Self, Memory> {
        match self {
            Some(value) => Ok(Some(value.duplicate(alloc)?)),
            None => Ok(None),
        }
    }
}

impl<A: Duplicate, B: Duplicate> Duplicate for (A, B) {
    fn duplicate(&self, alloc: Global) -> Result<Self, Memory> {
        Ok((self.0.duplicate(alloc)?, self.1.duplicate(alloc)?))
    }
}

impl Duplicate for u8 {
    fn duplicate(&self, _alloc: Global) -> Result<Self, Memory> {
        Ok(*self)
    }
}

impl Duplicate for u32 {
    fn duplicate(&self, _alloc: Global) -> Result<Self, Memory> {
        Ok(*self)
    }
}

impl Duplicate for u64 {
    fn duplicate(&self, _alloc: Global) -> Result<Self, Memory> {
        Ok(*self)
    }
}

impl Duplicate for i64 {
    fn duplicate(&self, _alloc: Global) -> Result<Self, Memory> {
        Ok(*self)
    }
}
