// Why a procedure is not sealed.
ghost use Rattle.std.specs.Prelude.{◌≡◌, Some};
ghost use Rattle.proc_verify.specs.Refusals.{refusal_text};
ghost use Rattle.proc_verify.specs.declared.refusals.VerifyRefused.TheVariants as refused;

use aria_base::Memory;
use proc_lang::Wrong;
use std::error::Error;
use std::fmt;

/// Why a procedure is not sealed.
#[derive(Clone, Copy, Debug, PartialEq, Eq)]
pub enum VerifyRefused {
    /// There was no memory to find out.
    Memory,
    /// It is not well typed: the first statement that fails, and its first cause.
    Wrong(Wrong),
}

impl fmt::Display for VerifyRefused {
    ghost output = { λ refused. Some (refusal_text refused) };

    fn fmt<W: fmt::Write>(&self, f: &mut fmt::Formatter<W>) -> fmt::Result {
        match self {
            VerifyRefused::Memory => f.write_str("no memory"),
            VerifyRefused::Wrong(wrong) => wrong.fmt(f),
        }
    }
}

impl Error for VerifyRefused {}

impl From<Memory> for VerifyRefused {
    ghost from_gives = { λ _ made. made ≡ refused.Memory };

    fn from(_: Memory) -> VerifyRefused {
        VerifyRefused::Memory
    }
}
