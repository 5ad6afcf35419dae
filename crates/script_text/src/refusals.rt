// Why a script is refused.
ghost use Rattle.script_text.specs.declared.refusals.LinesRefused.TheVariants as refused;
ghost use Rattle.std.specs.Prelude.{◌≡◌};

use aria_base::Memory;
use proc_lang::{Path, Wrong};
use std::alloc::AllocError;

/// The first line of a script that is refused, and why.
#[derive(Debug, Drop, PartialEq, Eq)]
pub struct Refusal {
    /// The line's number, from 1.
    pub line: u64,
    /// Why it is refused.
    pub kind: RefusalKind,
}

/// Why a line is refused.
#[derive(Debug, Drop, PartialEq, Eq)]
pub enum RefusalKind {
    /// It has more bytes than a line may have.
    Long,
    /// It has a byte that no line has.
    Byte,
    /// It is no list of tokens, or of no form.
    Word,
    /// No catalogue, table, procedure or rule has the name.
    Name,
    /// What it brings does not fit in number or kind.
    Argument,
    /// A line of its kind may not stand here.
    Site,
    /// The script ends in the middle of a batch.
    Unfinished,
    /// It passes what the input may have.
    Size,
    /// A batch has too many requests.
    Batch,
    /// It ends a batch whose turn has not come.
    Gap { got: u64, wanted: u64 },
    /// A batch or a request would have too great a number.
    Numbers,
    /// The text before it is no catalogue.
    Catalog(CatFault),
}

/// Why a text is no catalogue.
#[derive(Debug, Drop, PartialEq, Eq)]
pub enum CatFault {
    /// It has too many bytes.
    Long,
    /// It is no JSON.
    NotJson,
    /// This place is the first that does not have the form of a catalogue.
    Shape(Path),
    /// This procedure is the first that is not well typed.
    Wrong(Wrong),
}

/// Why there are no lines, or no meaning of one.
#[derive(Debug, Drop, PartialEq, Eq)]
pub enum LinesRefused {
    /// There was no memory.
    Memory,
    /// A line is refused.
    Line(Refusal),
}

impl From<Memory> for LinesRefused {
    ghost from_gives = { λ _ made. made ≡ refused.Memory };

    fn from(_: Memory) -> LinesRefused {
        LinesRefused::Memory
    }
}

impl From<AllocError> for LinesRefused {
    ghost from_gives = { λ _ made. made ≡ refused.Memory };

    fn from(_: AllocError) -> LinesRefused {
        LinesRefused::Memory
    }
}
