// Messages as code has them.
ghost use Rattle.std.specs.Prelude.{◌≡◌, IfOk};
ghost use Rattle.node_batch.specs.Letters.{sets_of};

use aria_base::{Changes, Duplicate, Key, Keys, Memory, Row};
use batch_rules::verdicts::Verdict;
use std::alloc::Global;

/// The part of a request's sets whose keys are at one node.
#[derive(Debug, Drop)]
pub struct Part {
    pub reads: Keys,
    pub rows: Changes,
}

impl Part {
    /// The same part.
    pub fn copy(&self, alloc: Global) -> Result<Part, Memory>
        ensures { IfOk result (λ copy. sets_of copy ≡ sets_of self.now) }
    {
        Ok(Part {
            reads: self.reads.duplicate(alloc)?,
            rows: self.rows.duplicate(alloc)?,
        })
    }
}

/// The least earlier requests on which there is a dependency of each kind.
#[derive(Clone, Copy, Debug)]
pub struct Least {
    pub waw: Option<u32>,
    pub raw: Option<u32>,
    pub war: Option<u32>,
}

/// What a message says.
#[derive(Debug, Drop)]
pub enum Said {
    /// The row of the key is wanted.
    Ask(Key),
    /// The row of the key, or its absence.
    Told(Key, Option<Row>),
    /// The request's part at the node that it is sent to.
    Marks(Part),
    /// The least earlier holders at the node that sends it.
    Least(Least),
    /// The request's verdict.
    Fate(Verdict),
}

/// A message with its sender and its addressee.
#[derive(Debug, Drop)]
pub struct Letter {
    pub batch: u64,
    pub tid: u32,
    pub sender: u32,
    pub addressee: u32,
    pub said: Said,
}
