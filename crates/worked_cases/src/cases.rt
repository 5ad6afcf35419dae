// A case, as its file says it.
use std::alloc::{AllocError, AllocFailed};

/// One of the four files of a store.
#[derive(Clone, Copy, Debug, PartialEq, Eq)]
pub enum File {
    Ckpt0,
    Ckpt1,
    Log0,
    Log1,
}

impl File {
    /// Its name in the folder of a store.
    pub fn name(self) -> &'static str {
        match self {
            File::Ckpt0 => "ckpt0",
            File::Ckpt1 => "ckpt1",
            File::Log0 => "log0",
            File::Log1 => "log1",
        }
    }

    /// The file of a name.
    pub fn named(name: &str) -> Result<File, Wrong> {
        match name {
            "ckpt0" => Ok(File::Ckpt0),
            "ckpt1" => Ok(File::Ckpt1),
            "log0" => Ok(File::Log0),
            "log1" => Ok(File::Log1),
            _ => Err(Wrong::Form("the files are ckpt0, ckpt1, log0 and log1")),
        }
    }
}

/// A part of an input or of an output.
#[derive(Debug, Drop)]
pub enum Part {
    Bytes(Vec<u8>),
    /// All that the step of this number printed, counted from 1.
    OutputOf(usize),
}

/// What a step has to print.
#[derive(Debug, Drop)]
pub enum Output {
    /// These parts, one behind the other.
    Parts(Vec<Part>),
    /// A text of so many lines and bytes with this hash, FNV-1a of 64 bits.
    Marked { lines: u64, bytes: u64, hash: u64 },
    /// Whatever it prints. A later step takes it.
    Taken,
}

/// What is done to the files before a step.
#[derive(Debug, Drop)]
pub enum Change {
    /// The file has these bytes.
    Write {
        file: File,
        bytes: Vec<u8>,
    },
    /// From this offset on the file has these bytes.
    Patch {
        file: File,
        at: usize,
        bytes: Vec<u8>,
    },
    /// The file has its first `len` bytes only.
    Cut {
        file: File,
        len: usize,
    },
    /// All four files are remembered.
    Keep,
    /// All four files are what they were when they were remembered.
    Back,
}

/// What the files have to be behind a step.
#[derive(Debug, Drop)]
pub enum Left {
    /// The file has these bytes.
    Whole {
        file: File,
        bytes: Vec<u8>,
    },
    /// From this offset on the file has these bytes, and perhaps others behind them.
    Piece {
        file: File,
        at: usize,
        bytes: Vec<u8>,
    },
    /// All four files are what they were before the step.
    Same,
}

/// A command line on what the disk holds by then.
#[derive(Debug, Drop)]
pub struct Step {
    /// The line of the file that has the words, from 1.
    pub line: u32,
    pub changes: Vec<Change>,
    pub words: Vec<String>,
    pub input: Vec<Part>,
    pub output: Output,
    pub status: u8,
    pub left: Vec<Left>,
}

/// Why a line is none of a case.
#[derive(Clone, Copy, Debug, PartialEq, Eq)]
pub enum Wrong {
    Memory,
    /// The rule that it breaks, in words.
    Form(&'static str),
}

impl From<AllocError> for Wrong {
    fn from(_: AllocError) -> Wrong {
        Wrong::Memory
    }
}

impl<T: Drop> From<AllocFailed<T>> for Wrong {
    fn from(_: AllocFailed<T>) -> Wrong {
        Wrong::Memory
    }
}
