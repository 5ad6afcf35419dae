// How many workers a work is worth.
ghost use Rattle.std.specs.Prelude.{◌≡◌, ◌≤◌, ◌+◌, ◌/◌, min};

/// How many of the workers take part in a work of so many places: one, and one more for each `least` places, in
/// which it saves more time than the start of its thread takes.
pub fn workers_for(places: usize, least: usize, workers: u32) -> u32
    requires least { 1 ≤ least }
    requires workers { 1 ≤ workers }
    ensures some { (1 ≤ result) × (result ≤ workers) }
    ensures size { result ≡ min workers (places / least + 1) }
{
    let more = places / least;
    if more < workers as usize {
        more as u32 + 1
    } else {
        workers
    }
}
