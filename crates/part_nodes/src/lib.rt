//! Partitioned nodes: the rows of a database are divided among nodes, which run its batches by messages alone. Whatever is lost,
//! repeated or late, each node's rows and answers are those of one database.
//!
//! ```text
//!     Nodes           all nodes, and the calls: begin, step, settle, done, answer, tables
//!      └ World        what was started, all messages ever sent, and the nodes
//!         └ Seat      a node: what became of its requests in each batch
//!            └ NodeBatch      its rows, and what it keeps of its current batch
//! ```
#![tactic(auto)]

mod events;
mod net_calls;
mod nodes;

pub use events::{NetEvent, NodesRefused};
pub use node_world::MOST_NODES;
pub use nodes::Nodes;
