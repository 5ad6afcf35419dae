//! The writes of a batch go into its tables, by several workers.
//!
//! The tables are taken apart into their shards, and each worker gets some of them: no worker touches
//! another's. It goes over the writes of all requests that finish, which lie where their runs left them, lists
//! those to keys of its own shards, and makes these in the order of the list. The shards together again are the tables
//! with all writes, as if they had been made one after the other. Rows are copied, so that no list of writes
//! is made for a worker, and what a put leaves over goes back to the thread that took it. One worker takes
//! nothing apart: it makes the writes one request after the other, and rows are moved.
//!
//! ```text
//! Tables --split--> shard 0 .. shard 15
//!                      |            |
//! requests ------>  worker 0  ..  worker w       each with its own shards, over all requests
//!                      |            |
//! Tables <-gather-- shard 0 .. shard 15
//! ```
#![tactic(auto)]

mod dues;
mod installs;
mod listings;
mod makings;
mod puts;
mod shares;

pub use installs::{install, install_changes};
