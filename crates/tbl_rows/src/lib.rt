//! The rows of a database, in sixteen shards.
//!
//! [`Tables`] is one finite map from keys to rows: every call says what it does to that map. It can
//! be taken apart into its [`Shard`]s, each the part of the map whose keys belong to it, so that
//! several workers change it at a time, and put together again.
//!
//! ```text
//! shard_of(key)      0       1            15
//!                +-------+-------+-    +-------+
//! Tables         | Shard | Shard |  .. | Shard |
//!                +-------+-------+-    +-------+
//!                   /          \
//! Rows   Pool                    SortedRows
//!        Bucket | Bucket | ..    an ordered map: the overflow
//! ```
//!
//! A key's hash tells its shard, and its bucket there, which has one row on average: the first lies in the bucket
//! itself, others in a block of their own, each with its key's hash. The buckets grow one by one, by linear
//! hashing. A put splits one bucket at most, and moves its rows without a copy; where there is no memory for the
//! split, it is put off. The hash is no secret, so that keys can be chosen to share a bucket: the rows past those
//! that come by chance go to the overflow, where a search takes logarithmic time.
#![tactic(auto)]

mod buckets;
mod entries;
mod first_rows;
mod hashes;
mod homes;
mod more_rows;
mod pools;
mod refusals;
mod rows;
mod shards;
mod sorted_rows;
mod spents;
mod tables;

pub use hashes::hash_of;
pub use homes::{SHARDS, shard_of};
pub use refusals::Refused;
pub use shards::Shard;
pub use sorted_rows::SortedRows;
pub use spents::Spent;
pub use tables::Tables;
