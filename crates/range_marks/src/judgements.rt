// The verdicts of a batch by what its works came to.
ghost use Rattle.std.specs.Prelude.{◌≡◌, ◌≤◌, [], map, length, IfOk};
ghost use Rattle.std.specs.List.{All};
ghost use Rattle.aria_base.specs.declared.limits.TheConstants.{MOST_WORKERS};
ghost use Rattle.batch_rules.specs.Batches.{judged};
ghost use Rattle.range_rules.specs.Batches.{depends};
ghost use Rattle.range_rules.specs.declared.routines.TheConstants.{MOST_ACTIONS, MOST_WORKS};
ghost use Rattle.range_marks.specs.Decisions.{AreApart, touch_count};

use crate::decisions::decide_all;
use crate::marks::all_scanned;
use crate::numbers::number_all;
use crate::touches::{counts_of, touched_by_all};
use aria_base::{Memory, Pace, TAGS};
use batch_rules::verdicts::{Rule, Verdict};
use range_rules::Ran;
use resv_phase::reserve;
use std::alloc::Global;
use std::thread::Threads;

/// The verdict of each work by what its run came to, in the order of the list, by 1 to 64 workers. There are at most 1,000 works, none of
/// which touched more than 2,560 keys and prefixes; and some test tells all keys from all prefixes. An error: there was no memory.
pub fn judge<P: Pace + Sync, T: Threads + Sync>(
    rt: &T,
    alloc: Global,
    rans: &[Ran],
    rule: Rule,
    workers: u32,
    pace: &P,
) -> Result<Vec<Verdict>, Memory>
    requires list { length rans.now ≤ MOST_WORKS }
    requires few { All (λ ran. touch_count ran ≤ MOST_ACTIONS) rans.now }
    requires apart { AreApart rans.now }
    requires workers { (1 ≤ workers) × (workers ≤ MOST_WORKERS) }
    ensures { IfOk result (λ verdicts. verdicts.items ≡ map (λ d. d.verdict) (judged depends rule [] rans.now)) }
{
    let scanned = all_scanned(alloc, rans)?;
    let sets = touched_by_all(rt, alloc, &scanned, rans, workers)?;
    let counts = counts_of(alloc, rans)?;
    let numbered = number_all(rt, alloc, &sets, workers)?;
    let none = Vec::new(alloc);
    let closed = reserve(rt, alloc, &numbered, none, TAGS - 1, workers, pace)?;
    let (words, tag) = (closed.words(), closed.tag());
    let verdicts = decide_all(alloc, &numbered, &counts, words, tag, rule)?;
    Ok(verdicts)
}
