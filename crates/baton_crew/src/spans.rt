// Where a list stands among others.

/// The places of a list's items: from `start` on, and before `end`.
#[derive(Drop)]
pub(crate) struct Span {
    pub(crate) start: usize,
    pub(crate) end: usize,
}
