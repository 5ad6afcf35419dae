// Why a text gives no catalogue.
ghost use Rattle.std.specs.Prelude.{◌≡◌, Some};
ghost use Rattle.cat_read.specs.declared.refusals.CatRefused.TheVariants as refused;
ghost use Rattle.cat_read.specs.Refusals.{of_fault, of_typing, refusal_text};

use crate::faults::Fault;
use proc_lang::{Path, Wrong};
use proc_verify::VerifyRefused;
use std::alloc::{AllocError, AllocFailed};
use std::error::Error;
use std::fmt;

/// Why a text gives no catalogue.
#[derive(Debug, Drop, PartialEq, Eq)]
pub enum CatRefused {
    /// There was no memory.
    Memory,
    /// The text is no JSON.
    NotJson,
    /// It is JSON, and this place is the first in the walk that does not have the stated form.
    Shape(Path),
    /// It has the stated form, and this is the first procedure that is not well typed, with the
    /// statement that fails first and its cause.
    Wrong(Wrong),
}

impl fmt::Display for CatRefused {
    ghost output = { λ refused. Some (refusal_text refused) };

    fn fmt<W: fmt::Write>(&self, f: &mut fmt::Formatter<W>) -> fmt::Result {
        match self {
            CatRefused::Memory => f.write_str("no memory"),
            CatRefused::NotJson => f.write_str("the text is no JSON"),
            CatRefused::Shape(_) => f.write_str("the text has not the form of a catalogue"),
            CatRefused::Wrong(wrong) => wrong.fmt(f),
        }
    }
}

impl Error for CatRefused {}

impl From<Fault> for CatRefused {
    ghost from_gives = { λ fault made. made ≡ of_fault fault };

    fn from(fault: Fault) -> CatRefused {
        match fault {
            Fault::Memory => CatRefused::Memory,
            Fault::Shape(path) => CatRefused::Shape(path),
        }
    }
}

impl From<VerifyRefused> for CatRefused {
    ghost from_gives = { λ refused made. made ≡ of_typing refused };

    fn from(refused: VerifyRefused) -> CatRefused {
        match refused {
            VerifyRefused::Memory => CatRefused::Memory,
            VerifyRefused::Wrong(wrong) => CatRefused::Wrong(wrong),
        }
    }
}

impl From<AllocError> for CatRefused {
    ghost from_gives = { λ _ made. made ≡ refused.Memory };

    fn from(_: AllocError) -> CatRefused {
        CatRefused::Memory
    }
}

impl<T: Drop> From<AllocFailed<T>> for CatRefused {
    ghost from_gives = { λ _ made. made ≡ refused.Memory };

    fn from(_: AllocFailed<T>) -> CatRefused {
        CatRefused::Memory
    }
}
