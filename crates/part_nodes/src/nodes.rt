// Nodes as their callers have them.
use node_world::World;
use std::alloc::Global;
use std::snapshot::Snapshot;
use tbl_rows::Tables;

/// Nodes that divide the rows of a database, and run its batches by messages alone.
#[derive(Drop)]
pub struct Nodes {
    pub(crate) world: World,
    /// How many messages had been sent when settling last ended. All of them are of batches that their nodes had completed then, and
    /// change nothing any more, so that settling begins behind them.
    pub(crate) settled: u64,
    pub(crate) start: Snapshot<Tables>,
    pub(crate) alloc: Global,
}
