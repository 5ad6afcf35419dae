// The list of a batch, and what its requests come to, apart by who needs it.
ghost use Rattle.std.specs.Prelude.{◌≡◌, ◌≤◌, ◌++◌, ◌∷◌, [], length, map, IfOk, OnOk};
ghost use Rattle.aria_base.specs.declared.limits.TheConstants.{MOST_REQUESTS};
ghost use Rattle.batch_rules.specs.Touches.{keys_of};
ghost use Rattle.batch_engine.specs.Lists.{sets_in, tids_among, waiting_among, counting};
ghost use Rattle.touch_numbers.specs.Touchings.{sets_of};

use aria_base::{Changes, Items, Keys, Memory, Request};
use batch_rules::verdicts::Verdict;
use proc_exec::{Declared, Outcome, Waiting};
use proc_lang::End;
use std::alloc::Global;
use touch_numbers::{Touching, Written};

/// The request numbers of a list.
pub(crate) fn numbers_of(alloc: Global, list: &[Request]) -> Result<Vec<u64>, Memory>
    ensures { IfOk result (λ numbers. numbers.items ≡ map (λ request. request.q) list.now) }
{
    let mut numbers = Vec::with_capacity(alloc, list.len())?;
    for request in list {
        numbers.push(request.q)?;
    }
    Ok(numbers)
}

/// The TIDs of the requests that wait, in their order.
pub(crate) fn tids_of(alloc: Global, verdicts: &[Verdict]) -> Result<Vec<u32>, Memory>
    requires { length verdicts.now ≤ MOST_REQUESTS }
    ensures { IfOk result (λ tids. tids.items ≡ tids_among 1 verdicts.now) }
{
    let mut tids = Vec::new(alloc);
    let mut tid = 1;
    for verdict in verdicts {
        note_if_it_waits(&mut tids, tid, verdict)?;
        tid += 1;
    }
    Ok(tids)
}

/// Notes the TID of a request that waits.
fn note_if_it_waits(tids: &mut Vec<u32>, tid: u32, verdict: &Verdict) -> Result<(), Memory>
    ensures { OnOk result (tids.new.items ≡ tids.old.items ++ tids_among tid (verdict.now ∷ [])) }
{
    match verdict {
        Verdict::Finish { raw: _ } => Ok(()),
        Verdict::Wait(_) => {
            tids.push(tid)?;
            Ok(())
        }
    }
}

/// The keys that these runs touched, where they lie.
pub(crate) fn touched_by<'a>(
    alloc: Global,
    outcomes: &'a [Outcome],
) -> Result<Vec<Touching<'a>>, Memory>
    ensures { IfOk result (λ list. map sets_of list.items ≡ map sets_in outcomes.now) }
{
    let mut list = Vec::with_capacity(alloc, outcomes.len())?;
    for outcome in outcomes {
        list.push(Touching {
            reads: outcome.reads.as_slice(),
            writes: Written::Rows(outcome.writes.as_slice()),
        })?;
    }
    Ok(list)
}

/// The runs of a batch, apart by what needs them.
#[derive(Drop)]
pub(crate) struct Runs {
    /// The requests that wait, with the keys of their runs, in the order of the list.
    pub waiting: Vec<Waiting>,
    /// The rows that each run writes that finishes; of one that waits there are none.
    pub changes: Vec<Changes>,
    /// How each ends.
    pub ends: Vec<End>,
}

/// Takes the runs of a list apart. The keys that those read that finish are dropped, and so are the rows that those
/// wrote that wait.
#[tactic(auto, using(crate::proofs::Settling::more_among, crate::proofs::Settling::more_counting, crate::proofs::Settling::none_left))]
pub(crate) fn take_apart(
    alloc: Global,
    list: Vec<Request>,
    outcomes: Vec<Outcome>,
    verdicts: &[Verdict],
) -> Result<Runs, Memory>
    requires outcomes { length outcomes.items ≡ length list.items }
    requires verdicts { length verdicts.now ≡ length list.items }
    ensures waiting { IfOk result (λ runs. runs.waiting.items ≡ waiting_among list.items (map sets_in outcomes.items) verdicts.now) }
    ensures changes { IfOk result (λ runs. runs.changes.items ≡ counting (map (λ o. o.writes) outcomes.items) verdicts.now) }
    ensures ends { IfOk result (λ runs. runs.ends.items ≡ map (λ o. o.end) outcomes.items) }
{
    let mut waiting = Vec::new(alloc);
    let mut changes = Vec::with_capacity(alloc, outcomes.len())?;
    let mut ends = Vec::with_capacity(alloc, outcomes.len())?;
    let mut outcomes = outcomes.into_iter();
    let mut rest = verdicts;
    for request in list {
        let Some(outcome) = outcomes.next() else {
            break;
        };
        let Some((verdict, later)) = rest.split_first() else {
            break;
        };
        rest = later;
        let Outcome { reads, writes, end } = outcome;
        changes.push(keep_if_it_waits(alloc, &mut waiting, request, reads, writes, verdict)?)?;
        ends.push(end)?;
    }
    Ok(Runs {
        waiting,
        changes,
        ends,
    })
}

/// The keys of these changes, whose rows are dropped.
fn keys_in(alloc: Global, changes: Changes) -> Result<Keys, Memory>
    ensures { IfOk result (λ keys. keys ≡ keys_of changes) }
{
    let changes = changes.into_vec();
    let mut keys = Vec::with_capacity(alloc, changes.len())?;
    for change in changes {
        keys.push(change.0)?;
    }
    Ok(Items::from_vec(keys))
}

/// Appends a request where it waits. Where it finishes, its rows are given back.
fn keep_if_it_waits(
    alloc: Global,
    waiting: &mut Vec<Waiting>,
    request: Request,
    reads: Keys,
    writes: Changes,
    verdict: &Verdict,
) -> Result<Changes, Memory>
    ensures waiting { OnOk result (waiting.new.items ≡ waiting.old.items
        ++ waiting_among (request ∷ []) (record { reads = reads; writes = keys_of writes } ∷ []) (verdict.now ∷ [])) }
    ensures changes { IfOk result (λ changes. changes ∷ [] ≡ counting (writes ∷ []) (verdict.now ∷ [])) }
{
    match verdict {
        Verdict::Finish { raw: _ } => Ok(writes),
        Verdict::Wait(_) => {
            let writes = keys_in(alloc, writes)?;
            waiting.push(Waiting {
                request,
                declared: Declared { reads, writes },
            })?;
            Ok(Items::from_vec(Vec::new(alloc)))
        }
    }
}
