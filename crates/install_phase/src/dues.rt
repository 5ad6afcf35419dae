// A write that is to be made, where it lies.
ghost use Rattle.std.specs.Prelude.{◌≡◌};
ghost use Rattle.tbl_rows.specs.Shards.{home};

use aria_base::{Key, Row};

/// A key with the row that it gets, or with none where its row goes.
pub(crate) type Write = (Key, Option<Row>);

/// A write that is to be made.
#[derive(Drop)]
pub(crate) struct Due<'a> {
    /// The shard of its key.
    pub(crate) shard: u8,
    /// The write, where it lies.
    pub(crate) write: &'a Write,
    ghost at_home: { shard ≡ home write.now.0 },
}
