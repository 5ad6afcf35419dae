// What a put leaves over.
use crate::entries::Entry;
use aria_base::Row;

/// What a put has taken out of the tables: the row that stood at the key, and the block of a bucket's list that
/// has grown. Blocks go back to the heap where this is dropped. A thread that drops blocks of other threads waits
/// for their heaps, so that workers who put at the same time keep what is left over for one of them.
#[derive(Drop)]
pub struct Spent {
    pub(crate) row: Option<Row>,
    pub(crate) list: Option<Vec<Entry>>,
}

impl Spent {
    /// Nothing but a row, if there is one.
    pub(crate) fn of_row(row: Option<Row>) -> Spent {
        Spent { row, list: None }
    }

    /// Whether there is nothing in it.
    pub fn is_empty(&self) -> bool {
        self.row.is_none() && self.list.is_none()
    }
}
