// Numbers and chances that are drawn from the words of a generator. None takes memory, and each takes one
// word.
ghost use Rattle.std.specs.Prelude.{◌≡◌, ◌≤◌, ◌<◌, ◌+◌, ◌^◌};
ghost use Rattle.load_gen.specs.Draws as drawn;

use aria_base::Draws;

/// A number from `low` to `high`: `low` and the next word modulo how many numbers these are.
pub fn random(draws: &mut Draws, low: u32, high: u32) -> u32
    requires order { low ≤ high }
    requires few { high + 1 < 2 ^ 32 }
    ensures drawn { (result, draws.new) ≡ drawn.random low high draws.old }
    ensures range { (low ≤ result) × (result ≤ high) }
{
    low + draws.word() % (high - low + 1)
}

/// Whether something comes that comes `share` times of a hundred.
pub fn percent(draws: &mut Draws, share: u32) -> bool
    ensures drawn { (result, draws.new) ≡ drawn.percent share draws.old }
{
    random(draws, 0, 99) < share
}
