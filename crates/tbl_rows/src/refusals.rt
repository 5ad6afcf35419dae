// What a call that found no memory hands back.
ghost use Rattle.std.specs.Prelude.{Some, codes};

use aria_base::{Key, Memory, Row};
use std::error::Error;
use std::fmt;

/// There was no memory for a row that was to be put. The pair comes back, and nothing has changed.
#[derive(Debug, Drop)]
pub struct Refused {
    /// The key of the row.
    pub key: Key,
    /// The row that was to be put there.
    pub row: Row,
}

impl fmt::Display for Refused {
    ghost output = { λ _. Some (codes "no memory for a row") };

    fn fmt<W: fmt::Write>(&self, f: &mut fmt::Formatter<W>) -> fmt::Result {
        f.write_str("no memory for a row")
    }
}

impl Error for Refused {}

impl From<Refused> for Memory {
    fn from(_: Refused) -> Memory {
        Memory
    }
}
