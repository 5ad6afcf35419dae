//! Runs of works that scan, on the rows that a batch begins with.
//!
//! Rows lie in shards by the hashes of their keys, so that a scan by them would look at every row. An
//! [`Index`] holds all keys in order: a scan costs what it answers, and a logarithm. [`run_all`] runs the works
//! of a batch by several workers.
//!
//! ```text
//! routine -> Window { reads, writes, scans }     one a run
//!               |              |
//!            Snapshot        Index               shared references, by all workers
//! ```
//!
//! What a run wrote under a prefix, and whether it scanned a prefix before, is found by such an index as well.
#![tactic(auto)]

mod batches;
mod found;
mod indexes;
mod leasts;
mod marks;
mod overlays;
mod procs;
mod runs;
mod scans;
mod windows;

pub use batches::run_all;
pub use indexes::Index;
pub use marks::{mark_of, whole_table};
