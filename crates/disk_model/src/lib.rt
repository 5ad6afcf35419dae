//! What the store's disk does, and what a stop may leave of it.
//!
//! A `Disk` has four files and a clock of moments. Contracts see, for each moment, what a read of a
//! file gives and which images a stop may leave: every byte that was written since the file's last
//! sync, and all that lies behind the end that it then had, may be anything in an image; every other
//! byte stays, and after a sync the one image is what a read gives. `MemDisk` is such a disk in
//! memory, for tests: it fails where it is told to and can be stopped after any call.
//!
//! ```text
//!     moment   0      1          2
//!     call            write X    sync
//!     read     abcd   aXcd       aXcd
//!     images   abcd   a?cd       aXcd      '?' is any byte
//! ```
#![tactic(auto)]

mod contents;
mod disks;
mod gates;
mod mem_disks;
mod refusals;
mod tapes;

pub use disks::{Disk, write_synced};
pub use gates::{OPEN, SHUT};
pub use mem_disks::MemDisk;
pub use refusals::LogRefused;
