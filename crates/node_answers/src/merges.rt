// What became of a batch's requests at all nodes, in the order of its list.
ghost use Rattle.std.specs.Prelude.{◌≡◌, ◌<◌, ℕ, List, Some, length, slice_get, IfOk};
ghost use Rattle.aria_base.specs.declared.calls.Request.{Request};
ghost use Rattle.aria_base.specs.declared.keys.Key.{Key};
ghost use Rattle.batch_rules.specs.Batches.{Entry as Settled};
ghost use Rattle.proc_lang.specs.declared.ends.End.{End};
ghost use Rattle.node_answers.specs.Merges.{settled_in, AreShares};
ghost use Rattle.node_seats.specs.declared.seats.Seat.{Seat as Place};

use aria_base::{MOST_REQUESTS, Memory};
use node_batch::Entry;
use node_seats::Seat;
use std::alloc::Global;

/// The entries of a batch, by its place from 0, each from its own node.
pub fn merged<'a>(alloc: Global, seats: &'a [Seat], batch: usize) -> Result<Vec<&'a Entry>, Memory>
    requires some { 0 < length seats.now }
    requires past { (n : ℕ) (s : Place) → slice_get seats.now n ≡ Some s → batch < length s.entries.items }
    ensures { IfOk result (λ all. (entries : List (Settled Key Request End)) → AreShares seats.now batch entries → settled_in all.items ≡ entries) }
{
    let nodes = seats.len();
    let mut all = Vec::new(alloc);
    for place in 0..MOST_REQUESTS {
        let seat = &seats[place % nodes];
        let own = &seat.entries[batch];
        match own.get(place / nodes) {
            Some(entry) => all.push(entry)?,
            None => return Ok(all),
        }
    }
    Ok(all)
}
