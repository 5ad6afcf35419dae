//! A store's disk as four files of a folder.
//!
//! [`DirDisk`] is the disk that the program `aria` keeps its store on. It tells no content, since nobody
//! proves what a real disk holds: that one behaves as `disk_model` says is a premise, and a test of this
//! crate shows that bytes come back.
//!
//! ```text
//! Disk (disk_model): len, read_at, write_at, sync ──> DirDisk ──> ckpt0, ckpt1, log0, log1
//! ```
#![tactic(auto)]

mod dir_disks;
mod folders;
#[cfg(test)]
mod tests;

pub use dir_disks::DirDisk;
