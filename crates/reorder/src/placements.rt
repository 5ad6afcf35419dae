// In which order the requests of a batch count as run.
ghost use Rattle.std.specs.Prelude.{◌≡◌, ◌≤◌, ◌<◌, ◌^◌, ◌++◌, length, map, IfOk, OnOk};
ghost use Rattle.std.specs.List.{filter, enumerate_from};
ghost use Rattle.aria_base.specs.declared.limits.TheConstants.{MOST_REQUESTS};
ghost use Rattle.batch_rules.specs.Batches.{is_late};
ghost use Rattle.reorder.specs.Orders.{finishes_with, bare, bare_from, placed_tids, ordered_tids};

use aria_base::Memory;
use dep_rules::Verdict;
use std::alloc::Global;

/// The TIDs, which are places in the batch's list from 1, of the requests that finish in the commit
/// phase, as they count as run: first those that read what an earlier request writes, the greatest
/// TID first; then the other ones, the least TID first.
pub fn place(alloc: Global, verdicts: &[Verdict]) -> Result<Vec<u32>, Memory>
    requires { length verdicts.now ≤ MOST_REQUESTS }
    ensures { IfOk result (λ tids. tids.items ≡ placed_tids verdicts.now) }
{
    let mut tids = Vec::with_capacity(alloc, verdicts.len())?;
    append_finishing(&mut tids, verdicts, true)?;
    tids.reverse();
    append_finishing(&mut tids, verdicts, false)?;
    Ok(tids)
}

/// The TIDs of all requests that have ended in the batch, as they count as run: as [`place`] gives
/// them, and behind them those that waited and have ended all the same, by a late run, the least TID
/// first. `ended` tells of each request whether it has its final end; of one that finishes in the
/// commit phase it is not asked.
pub fn order(alloc: Global, verdicts: &[Verdict], ended: &[bool]) -> Result<Vec<u32>, Memory>
    requires few { length verdicts.now ≤ MOST_REQUESTS }
    requires each { length ended.now ≡ length verdicts.now }
    ensures { IfOk result (λ tids. tids.items ≡ ordered_tids verdicts.now ended.now) }
{
    let mut tids = place(alloc, verdicts)?;
    append_late(&mut tids, verdicts, ended)?;
    Ok(tids)
}

/// Appends the TIDs of the requests that finish, and of which this holds: that they read what an earlier one
/// writes, or that they do not. Where there was no memory, some of them stand there.
fn append_finishing(tids: &mut Vec<u32>, verdicts: &[Verdict], raw: bool) -> Result<(), Memory>
    requires { length verdicts.now < 2 ^ 32 }
    ensures { OnOk result (tids.new.items ≡ tids.old.items
        ++ map (λ p. p.0) (filter (λ p. finishes_with raw p.1) (enumerate_from 1 verdicts.now))) }
{
    let mut tid = 0;
    for verdict in verdicts {
        tid += 1;
        if *verdict == (Verdict::Finish { raw }) {
            tids.push(tid)?;
        }
    }
    Ok(())
}

/// Appends the TIDs of the requests that wait and have ended all the same. Where there was no memory, some
/// of them stand there.
fn append_late(tids: &mut Vec<u32>, verdicts: &[Verdict], ended: &[bool]) -> Result<(), Memory>
    requires few { length verdicts.now < 2 ^ 32 }
    requires each { length ended.now ≡ length verdicts.now }
    ensures { OnOk result (tids.new.items ≡ tids.old.items
        ++ map (λ e. e.judged.tid) (filter is_late (bare_from 1 verdicts.now ended.now))) }
{
    for (place, verdict) in verdicts.iter().enumerate() {
        if ended_late(*verdict, ended[place]) {
            tids.push(place as u32 + 1)?;
        }
    }
    Ok(())
}

/// Whether a request with this verdict, that has its final end or not, has it by a late run.
fn ended_late(verdict: Verdict, ended: bool) -> bool
    ensures { result ≡ is_late (bare 1 verdict ended) }
{
    match verdict {
        Verdict::Finish { raw: _ } => false,
        Verdict::Wait(_) => ended,
    }
}
