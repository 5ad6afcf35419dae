// What runs come to.
use aria_base::{Changes, Duplicate, Key, Keys, Memory, Request};
use proc_lang::End;
use std::alloc::Global;

/// What a whole run on a snapshot comes to.
#[derive(Debug, Drop, PartialEq, Eq)]
pub struct Outcome {
    /// The keys at which it saw the snapshot's own rows, since it had not written there yet. A key
    /// stands here once, and the one that was read earlier comes earlier.
    pub reads: Keys,
    /// What it asks to be changed: for each key the row of its last write there, or that there is to
    /// be none. A key stands here once, and the one that was first written earlier comes earlier. A
    /// run that is not `Done` asks for nothing.
    pub writes: Changes,
    /// How it ended.
    pub end: End,
}

/// What a run again may touch: it may read the keys of both lists, and write those of `writes`.
#[derive(Debug, Drop, PartialEq, Eq)]
pub struct Declared {
    /// The keys that the first run read before it wrote them.
    pub reads: Keys,
    /// The keys that the first run wrote.
    pub writes: Keys,
}

/// What a run on a snapshot within declared keys comes to.
#[derive(Debug, Drop, PartialEq, Eq)]
pub enum Within {
    /// All its accesses are declared: the outcome is that of the run without limits.
    Ended(Outcome),
    /// It stopped before its first access that is not, which is of this key.
    Moved(Key),
}

/// What a run through a window within declared keys comes to.
#[derive(Debug, Drop, PartialEq, Eq)]
pub enum Ran {
    /// All its accesses are declared: the end is that of the run without limits.
    Ended(End),
    /// It stopped before its first access that is not, which is of this key.
    Moved(Key),
}

/// A request that waits, with what its first run touched.
#[derive(Debug, Drop, PartialEq, Eq)]
pub struct Waiting {
    /// The request.
    pub request: Request,
    /// What it may touch when it is run again.
    pub declared: Declared,
}

/// What becomes of a waiting request that is run again.
#[derive(Debug, Drop, PartialEq, Eq)]
pub enum Late {
    /// It finished with this end.
    Finished(End),
    /// It stopped before its first access outside what it declared, which is of this key, and waits on.
    Moved(Key),
}

impl Duplicate for Outcome {
    fn duplicate(&self, alloc: Global) -> Result<Self, Memory> {
        Ok(Outcome {
            reads: self.reads.duplicate(alloc)?,
            writes: self.writes.duplicate(alloc)?,
            end: self.end.duplicate(alloc)?,
        })
    }
}

impl Duplicate for Declared {
    fn duplicate(&self, alloc: Global) -> Result<Self, Memory> {
        Ok(Declared {
            reads: self.reads.duplicate(alloc)?,
            writes: self.writes.duplicate(alloc)?,
        })
    }
}

impl Duplicate for Within {
    fn duplicate(&self, alloc: Global) -> Result<Self, Memory> {
        match self {
            Within::Ended(outcome) => Ok(Within::Ended(outcome.duplicate(alloc)?)),
            Within::Moved(key) => Ok(Within::Moved(key.duplicate(alloc)?)),
        }
    }
}

impl Duplicate for Ran {
    fn duplicate(&self, alloc: Global) -> Result<Self, Memory> {
        match self {
            Ran::Ended(end) => Ok(Ran::Ended(end.duplicate(alloc)?)),
            Ran::Moved(key) => Ok(Ran::Moved(key.duplicate(alloc)?)),
        }
    }
}

impl Duplicate for Waiting {
    fn duplicate(&self, alloc: Global) -> Result<Self, Memory> {
        Ok(Waiting {
            request: self.request.duplicate(alloc)?,
            declared: self.declared.duplicate(alloc)?,
        })
    }
}

impl Duplicate for Late {
    fn duplicate(&self, alloc: Global) -> Result<Self, Memory> {
        match self {
            Late::Finished(end) => Ok(Late::Finished(end.duplicate(alloc)?)),
            Late::Moved(key) => Ok(Late::Moved(key.duplicate(alloc)?)),
        }
    }
}
