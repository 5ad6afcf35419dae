// What a script comes to beside its place.
use crate::bases::Base;
use aria_base::Call;

/// What a script comes to beside its place.
#[derive(Drop)]
pub(crate) struct Work {
    /// The calls of the open batch.
    pub calls: Vec<Call>,
    pub base: Base,
    /// In how many replicas the batches are run.
    pub replicas: u32,
    /// Whether the rows are listed behind each answer.
    pub each: bool,
}
