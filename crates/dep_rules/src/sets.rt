// The two lists of keys that a request touched.
use aria_base::{Duplicate, Keys, Memory};
use std::alloc::Global;

/// What a request's run on the batch's start touched.
#[derive(Debug, Drop, PartialEq, Eq)]
pub struct Sets {
    /// The keys that it read before it wrote them.
    pub reads: Keys,
    /// The keys that it wrote.
    pub writes: Keys,
}

impl Duplicate for Sets {
    fn duplicate(&self, alloc: Global) -> Result<Self, Memory> {
        Ok(Sets {
            reads: self.reads.duplicate(alloc)?,
            writes: self.writes.duplicate(alloc)?,
        })
    }
}
