// Numbers that are not drawn evenly. None takes memory.
ghost use Rattle.std.specs.Prelude.{◌≡◌, ◌≤◌, ◌<◌, ◌+◌, ◌^◌};
ghost use Rattle.tpcc_load.specs.Draws as drawn;

use aria_base::Draws;
use load_gen::random;

/// A number from `low` to `high`, some more often than others: `spread` tells how far, and `shift` which.
fn nurand(draws: &mut Draws, spread: u32, shift: u32, low: u32, high: u32) -> u32
    requires order { low ≤ high }
    requires few { (spread < 2 ^ 16) × (shift < 2 ^ 16) × (high < 2 ^ 20) }
    ensures drawn { (result, draws.new) ≡ drawn.nurand spread shift low high draws.old }
    ensures range { (low ≤ result) × (result ≤ high) }
{
    let a = random(draws, 0, spread);
    let b = random(draws, low, high);
    let sum = u64::from(a | b) + u64::from(shift);
    (sum % u64::from(high - low + 1)) as u32 + low
}

/// A name's number, of so many names.
pub(crate) fn drawn_name(draws: &mut Draws, names: u32) -> u32
    requires { (1 ≤ names) × (names ≤ 1000) }
    ensures drawn { (result, draws.new) ≡ drawn.drawn_name names draws.old }
    ensures range { result < names }
{
    nurand(draws, 255, 100, 0, names - 1)
}

/// A customer's number, of so many in a district.
pub(crate) fn drawn_customer(draws: &mut Draws, customers: u32) -> u32
    requires { (1 ≤ customers) × (customers ≤ 3000) }
    ensures { (result, draws.new) ≡ drawn.drawn_customer customers draws.old }
{
    nurand(draws, 1_023, 500, 1, customers)
}

/// An item's number, of so many.
pub(crate) fn drawn_item(draws: &mut Draws, items: u32) -> u32
    requires { (1 ≤ items) × (items ≤ 100000) }
    ensures { (result, draws.new) ≡ drawn.drawn_item items draws.old }
{
    nurand(draws, 8_191, 4_000, 1, items)
}

/// A warehouse that is not this one, of at least two.
pub(crate) fn other_warehouse(draws: &mut Draws, warehouses: u32, w: u32) -> u32
    requires { (2 ≤ warehouses) × (warehouses ≤ 4) }
    ensures { (result, draws.new) ≡ drawn.other_warehouse warehouses w draws.old }
{
    let x = random(draws, 1, warehouses - 1);
    if x >= w { x + 1 } else { x }
}
