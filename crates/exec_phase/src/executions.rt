// Runs of one request on a snapshot.
ghost use Rattle.std.specs.Prelude.{◌≡◌, [], IfOk, if◌then◌else◌};
ghost use Rattle.proc_lang.specs.Catalogs.{run_of};
ghost use Rattle.proc_lang.specs.Meaning.{is_done};
ghost use Rattle.proc_exec.specs.Limits.{touchable};
ghost use Rattle.proc_exec.specs.Outcomes.{outcome_at, within_at};
ghost use Rattle.tbl_snapshot.specs.Layers.{seen_of};

use aria_base::{Changes, Memory, Request};
use proc_exec::{Declared, Outcome, Ran, Within, interpret_lent, interpret_lent_within};
use proc_lang::{Catalog, End};
use std::alloc::Global;
use tbl_snapshot::{Overlay, Snapshot};

/// What the request comes to on the snapshot: the keys that it reads before it writes them, the rows
/// that it writes, and its end. A run that is not done, since it failed or trapped, keeps its reads and
/// has no writes.
pub fn execute(
    alloc: Global,
    catalog: &Catalog,
    request: &Request,
    snapshot: Snapshot,
) -> Result<Outcome, Memory>
    ensures { IfOk result (λ outcome. outcome ≡ outcome_at (run_of catalog.now) snapshot.entry request.now) }
{
    let mut overlay = Overlay::over(alloc, snapshot);
    let end = interpret_lent(alloc, catalog, request, &mut overlay)?;
    Ok(outcome(alloc, end, overlay))
}

/// What the request comes to on the snapshot within declared keys: `Moved` with the key of the run's first
/// access that they do not allow, and where they allow all of them the outcome of the run without limits. An
/// error: there was no memory.
pub fn execute_within(
    alloc: Global,
    catalog: &Catalog,
    request: &Request,
    snapshot: Snapshot,
    declared: &Declared,
) -> Result<Within, Memory>
    ensures { IfOk result (λ within. within ≡ within_at (run_of catalog.now) (touchable declared.now) snapshot.entry request.now) }
{
    let mut overlay = Overlay::over(alloc, snapshot);
    match interpret_lent_within(alloc, catalog, request, declared, &mut overlay)? {
        Ran::Ended(end) => Ok(Within::Ended(outcome(alloc, end, overlay))),
        Ran::Moved(key) => Ok(Within::Moved(key)),
    }
}

/// What a run with this end through the overlay comes to.
fn outcome(alloc: Global, end: End, overlay: Overlay) -> Outcome
    ensures { let noted = (seen_of overlay.entry).noted in result ≡ record { reads = noted.reads; writes = (if is_done end then noted.writes else []); end = end } }
{
    let (reads, writes) = overlay.parts();
    Outcome {
        reads,
        writes: kept(alloc, &end, writes),
        end,
    }
}

/// The writes that count: those of a run that is not done do not.
fn kept(alloc: Global, end: &End, writes: Changes) -> Changes
    ensures { result ≡ (if is_done end.now then writes else []) }
{
    match end {
        End::Done(_) => writes,
        End::Back(_) | End::Trap(_) => Changes::from_vec(Vec::new(alloc)),
    }
}
