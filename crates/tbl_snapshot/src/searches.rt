// The searches of an overlay in its lists.
ghost use Rattle.std.specs.Prelude.{◌≡◌, IfOk, position};
ghost use Rattle.std.specs.Ordering.{eq_by_cmp};
ghost use Rattle.std.specs.Option.{option_copied};
ghost use Rattle.aria_base.specs.Orders.{key_cmp};

use aria_base::{Duplicate, Key, Memory, Row, same_key};
use std::alloc::Global;

/// The place of a key's write.
pub(crate) fn place_of(writes: &Vec<(Key, Option<Row>)>, key: &Key) -> Option<usize>
    ensures { result ≡ position (λ w. eq_by_cmp key_cmp key.now w.0) writes.now.items }
{
    writes.iter().position(|write| same_key(key, &write.0))
}

/// A row that was found, as a value of its own.
pub(crate) fn copy_found(alloc: Global, found: Option<&Row>) -> Result<Option<Row>, Memory>
    ensures { IfOk result (λ row. row ≡ option_copied found.entry) }
{
    match found {
        Some(row) => Ok(Some(row.duplicate(alloc)?)),
        None => Ok(None),
    }
}
