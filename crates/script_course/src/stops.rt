// Why a command stops before the end of its input.
ghost use Rattle.std.specs.Prelude.{◌≡◌};
ghost use Rattle.script_course.specs.Courses.{status_of};

use crate::statuses::{DISK_FAULT, NO_MEMORY, READ_FAULT, REFUSED, WRITE_FAULT};

/// Why a command stops before the end of its input.
#[derive(Clone, Copy, Debug, PartialEq, Eq)]
pub enum Stop {
    /// A line was refused, and its refusal was printed.
    Refused,
    /// There was no memory.
    NoMemory,
    /// The sink failed.
    NoWrite,
    /// The disk failed.
    NoDisk,
    /// The source failed.
    NoRead,
}

impl Stop {
    /// The status with which the command ends.
    pub fn status(self) -> u8
        ensures { result ≡ status_of self }
    {
        match self {
            Stop::Refused => REFUSED,
            Stop::NoRead => READ_FAULT,
            Stop::NoWrite => WRITE_FAULT,
            Stop::NoDisk => DISK_FAULT,
            Stop::NoMemory => NO_MEMORY,
        }
    }
}
