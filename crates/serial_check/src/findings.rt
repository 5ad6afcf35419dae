// What a check finds.
ghost use Rattle.std.specs.Prelude.{◌≡◌};
ghost use Rattle.serial_check.specs.Flaws.{found_of};

use aria_base::Bytes;

/// What the check of a report finds.
#[derive(Debug, Drop, PartialEq, Eq)]
pub enum Finding {
    /// Every line stands, and none is missing.
    Holds,
    /// A line cannot stand: the first one that cannot.
    Fails {
        /// Its number, from 1. Where a line is missing it is the number that this one would have.
        line: u64,
        /// The line that had to stand there. Of a line that had to say that a request waits it is what stands
        /// before the cause, of an order line its word. Where the report had to end it is empty.
        wanted: Bytes,
        /// The line that stands there, and nothing where none does.
        found: Bytes,
    },
    /// A batch that is to be run has too many requests, carried ones included, so that no report can answer it.
    Crowded {
        /// The batch's number.
        number: u64,
    },
}

/// Why a report does not hold; the fields are those of [`Finding`].
#[derive(Debug, Drop, PartialEq, Eq)]
pub(crate) enum Flaw {
    Fails {
        line: u64,
        wanted: Bytes,
        found: Bytes,
    },
    Crowded {
        number: u64,
    },
}

impl Flaw {
    /// The finding that tells so.
    pub(crate) fn into_finding(self) -> Finding
        ensures { result ≡ found_of self }
    {
        match self {
            Flaw::Fails {
                line,
                wanted,
                found,
            } => Finding::Fails {
                line,
                wanted,
                found,
            },
            Flaw::Crowded { number } => Finding::Crowded { number },
        }
    }
}
