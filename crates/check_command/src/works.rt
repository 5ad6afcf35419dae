// What a script and its report come to beside the place.
use aria_base::{Bytes, Call};
use tbl_rows::Tables;

/// What a script and its report come to beside the place.
#[derive(Drop)]
pub(crate) struct Work {
    pub tables: Tables,
    /// The calls of the open batch.
    pub calls: Vec<Call>,
    /// The batches so far, each with its number.
    pub script: Vec<(u64, Vec<Call>)>,
    /// The number of the line that ends a batch, of each batch that is to be run.
    pub ends: Vec<u64>,
    /// How many calls these batches have.
    pub requests: u64,
    /// The lines of the report, without their line feeds.
    pub report: Vec<Bytes>,
}
