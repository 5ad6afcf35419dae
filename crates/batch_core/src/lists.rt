// The list of a batch.
ghost use Rattle.std.specs.Prelude.{◌≡◌, ◌+◌, ◌<◌, ◌^◌, ◌++◌, length, IfOk};
ghost use Rattle.batch_core.specs.Steps.{numbered};

use aria_base::{Call, Memory, Request};

/// The list of a batch: what is carried, then the new calls with the next request numbers.
pub fn number_calls(
    carried: Vec<Request>,
    new: Vec<Call>,
    requests: u64,
) -> Result<Vec<Request>, Memory>
    requires { requests + length new.items < 2 ^ 64 }
    ensures list { IfOk result (λ list. list.items ≡ carried.items ++ numbered requests new.items) }
    ensures count { IfOk result (λ list. length list.items ≡ length carried.items + length new.items) }
{
    let mut list = carried;
    let mut q = requests;
    list.reserve(new.len())?;
    for call in new {
        q += 1;
        list.push(Request { q, call })?;
    }
    Ok(list)
}
