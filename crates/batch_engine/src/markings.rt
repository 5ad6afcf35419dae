// The keys of a batch are numbered and marked.
ghost use Rattle.std.specs.Prelude.{◌≡◌, ◌≤◌, ◌<◌, length, map, IfOk};
ghost use Rattle.std.specs.List.{All};
ghost use Rattle.aria_base.specs.declared.limits.TheConstants.{MOST_REQUESTS, MOST_WORKERS, TAGS};
ghost use Rattle.dep_rules.specs.Decisions.{reads_of, writes_of};
ghost use Rattle.key_numbering.specs.Numbers.{touch_count};
ghost use Rattle.proc_lang.specs.declared.limits.TheConstants.{MOST_ACCESSES};
ghost use Rattle.batch_engine.specs.Lasts.{marks_of};
ghost use Rattle.batch_engine.specs.Marks.{MarksSets};
ghost use Rattle.touch_numbers.specs.Touchings.{sets_of};

use crate::marks::Marked;
use aria_base::{Memory, Pace, TAGS};
use resv_phase::reserve;
use std::alloc::Global;
use std::thread::Threads;
use touch_numbers::{Touching, number_touches};

/// Numbers the keys that the requests of a batch touched, and marks them on words of this batch alone.
pub(crate) fn mark<P: Pace + Sync, R: Threads + Sync>(
    rt: &R,
    alloc: Global,
    list: &[Touching],
    workers: u32,
    pace: &P,
) -> Result<Marked, Memory>
    requires few { length list.now ≤ MOST_REQUESTS }
    requires touched { All (λ s. touch_count s ≤ MOST_ACCESSES) (map sets_of list.now) }
    requires workers { (1 ≤ workers) × (workers ≤ MOST_WORKERS) }
    ensures marks { IfOk result (λ marked. MarksSets reads_of writes_of (map sets_of list.now) (marks_of marked)) }
    ensures tag { IfOk result (λ marked. marked.closed.tag < TAGS) }
{
    let numbered = number_touches(rt, alloc, list, workers)?;
    let none = Vec::new(alloc);
    let closed = reserve(rt, alloc, &numbered, none, TAGS - 1, workers, pace)?;
    Ok(Marked { numbered, closed })
}
