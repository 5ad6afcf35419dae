// The marks of all requests of a batch, by several workers.
ghost use Rattle.std.specs.Prelude.{◌≡◌, ◌≤◌, ◌<◌, ◌*◌, ℕ, List, length, IfOk};
ghost use Rattle.aria_base.specs.Reserved.{AreAbove};
ghost use Rattle.aria_base.specs.declared.limits.TheConstants.{MOST_WORKERS, TAGS};
ghost use Rattle.dep_rules.specs.Sheets.{AreMarksOf};
ghost use Rattle.dep_rules.specs.Words.{Tell};
ghost use Rattle.resv_words.specs.Seats.{most_keys, Tells};

use crate::markings::Marking;
use aria_base::{Memory, Pace};
use dep_rules::Numbered;
use dep_rules::laws::marks_tell;
use resv_words::{Closed, Words};
use std::alloc::Global;
use std::thread::Threads;
use work_crew::{carry_out, workers_for};

/// To start a thread takes 19 to 50 microseconds, and a mark 2 nanoseconds in the cache and 24 outside of it: so many
/// requests of ten keys each take 40 to 500 microseconds.
const LEAST_A_WORKER: usize = 2_048;

/// The words over the old numbers after exactly the batch's marks: each request marks each key that it reads
/// and each that it writes, under the tag. So they are what [`decide`](dep_rules::decide) asks for. The
/// conditions are those of [`Words::over`]. An error: there was no memory.
///
/// The workers, from 1 to 64, draw the requests one by one, so that none waits for another. The pace is told
/// of each draw, and of each mark before it is made. Fewer workers mark a small batch, and none is started for
/// one worker.
pub fn reserve<P: Pace + Sync, R: Threads + Sync>(
    rt: &R,
    alloc: Global,
    numbered: &Numbered,
    old: Vec<u64>,
    tag: u64,
    workers: u32,
    pace: &P,
) -> Result<Closed, Memory>
    requires workers { (1 ≤ workers) × (workers ≤ MOST_WORKERS) }
    requires keys { numbered.now.keys ≤ most_keys }
    requires old { length old.items ≤ 2 * numbered.now.keys }
    requires tag { tag < TAGS }
    requires above { AreAbove tag old.items }
    ensures laid { IfOk result (λ closed. (closed.keys ≡ numbered.now.keys) × (closed.tag ≡ tag) × (closed.old ≡ old.items)) }
    ensures marks { IfOk result (λ closed. AreMarksOf numbered.now closed.marks) }
    ensures decides { IfOk result (λ closed. (words : List ℕ) → Tells closed words → Tell numbered.now tag words) }
{
    marks_tell();
    let count = numbered.len();
    let workers = workers_for(count as usize, LEAST_A_WORKER, workers);
    let (words, seat) = Words::over(alloc, old, numbered.keys(), tag)?;
    let marking = Marking {
        numbered,
        words: &words,
        pace,
    };
    let seat = carry_out(rt, alloc, &marking, seat, workers, pace)?;
    words.close(seat)
}
