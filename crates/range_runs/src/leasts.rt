// Where the keys under a prefix begin.
ghost use Rattle.std.specs.Prelude.{◌≡◌, true, IfOk};
ghost use Rattle.std.specs.Ordering.{is_le};
ghost use Rattle.aria_base.specs.Orders.{part_cmp};
ghost use Rattle.range_rules.specs.Scans.{key_or};
ghost use Rattle.range_runs.specs.Leasts.{least_part, first_key, can_be};

use aria_base::{Key, Memory, Part, Parts};
use range_rules::Prefix;
use std::alloc::Global;

/// The least number that a part can be.
pub(crate) const LEAST_NUMBER: i64 = i64::MIN;

/// A key from which on those under the prefix stand: a table's begin with the least number.
pub(crate) fn least_under(alloc: Global, prefix: &Prefix) -> Result<Key, Memory>
    ensures { IfOk result (λ key. key ≡ key_or (first_key prefix.now.table) prefix.now) }
{
    let first = Key {
        table: prefix.table,
        parts: Parts::one(Part::Int(LEAST_NUMBER)),
    };
    prefix.key_or(alloc, first)
}

/// Does nothing: a caller knows behind it what is true of every key.
pub(crate) fn see_key(key: &Key)
    ensures { can_be key.now.parts ≡ true }
{
    match key.parts.as_slice() {
        [first, ..] => see_part(first),
        [] => unreachable!(),
    }
}

/// Does nothing: a caller knows behind it what is true of every part.
fn see_part(part: &Part)
    ensures { is_le (part_cmp least_part part.now) ≡ true }
{
    match part {
        Part::Int(number) => {
            let _number = *number;
        }
        Part::Text(_) => {}
    }
}
