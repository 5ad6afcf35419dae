// The customers of a district in a drawn order.
ghost use Rattle.std.specs.Prelude.{◌≡◌, ◌≤◌, ◌<◌, ◌-◌, ◌^◌, length, IfOk};
ghost use Rattle.std.specs.List.{range_with_len};
ghost use Rattle.tpcc_load.specs.Heads.{exchange};
ghost use Rattle.tpcc_load.specs.Heads as heads;

use aria_base::{Draws, Memory};
use load_gen::random;
use std::alloc::Global;

/// The numbers from 1 to this one, exchanged in a drawn way. Where there was no memory, nothing was drawn.
pub(crate) fn shuffled(alloc: Global, draws: &mut Draws, count: u32) -> Result<Vec<u32>, Memory>
    requires { count < 2 ^ 31 }
    ensures drawn { IfOk result (λ places. (places.items, draws.new) ≡ heads.shuffled count (range_with_len 1 count) draws.old) }
    ensures count { IfOk result (λ places. length places.items ≡ count) }
{
    let mut places = Vec::with_capacity(alloc, count as usize)?;
    for place in 0..count {
        places.push(place + 1)?;
    }
    shuffle(draws, &mut places, count);
    Ok(places)
}

/// Exchanges what stands at the places, from this one down to the second.
fn shuffle(draws: &mut Draws, places: &mut Vec<u32>, count: u32)
    requires count { length places.old.items ≡ count }
    requires few { count < 2 ^ 31 }
    ensures drawn { (places.new.items, draws.new) ≡ heads.shuffled count places.old.items draws.old }
    ensures count { length places.new.items ≡ count }
{
    let mut last = count;
    while last > 1 {
        let other = random(draws, 1, last);
        change(places, last, other);
        last -= 1;
    }
}

/// Exchanges what stands at two places, from 1.
fn change(places: &mut Vec<u32>, one: u32, other: u32)
    requires one { (1 ≤ one) × (one ≤ length places.old.items) }
    requires other { (1 ≤ other) × (other ≤ length places.old.items) }
    ensures places { places.new.items ≡ exchange one other places.old.items }
    ensures count { length places.new.items ≡ length places.old.items }
{
    let one = one as usize - 1;
    let other = other as usize - 1;
    let held = places[one];
    places[one] = places[other];
    places[other] = held;
}
