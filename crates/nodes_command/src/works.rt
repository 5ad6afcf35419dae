// What a script comes to beside its place.
use crate::bases::Base;
use aria_base::Call;

/// What a script comes to beside its place.
#[derive(Drop)]
pub(crate) struct Work {
    /// The calls of the open batch.
    pub calls: Vec<Call>,
    pub base: Base,
    /// How many nodes divide the database, from 1 to 8.
    pub nodes: u32,
    /// Whether the rows are listed behind each answer.
    pub each: bool,
    /// How many calls the whole script had so far, at most 10,000.
    pub called: u64,
}
