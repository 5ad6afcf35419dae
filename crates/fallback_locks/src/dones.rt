// What a run again comes to.
use aria_base::Changes;
use proc_exec::Late;

/// What became of the request at a place of the list, and the rows that it writes.
#[derive(Drop)]
pub(crate) struct Done {
    pub(crate) place: u32,
    pub(crate) late: Late,
    pub(crate) rows: Changes,
}
