// Runs of works on a snapshot.
ghost use Rattle.std.specs.Prelude.{◌≡◌, [], if◌then◌else◌, IfOk};
ghost use Rattle.proc_lang.specs.Meaning.{is_done};
ghost use Rattle.range_rules.specs.Courses.{ran_by, ran_on, run_routine};
ghost use Rattle.range_runs.specs.Indexes.{IsIndexOf};

use crate::indexes::Index;
use crate::procs::Procs;
use crate::windows::Window;
use aria_base::{Changes, Memory};
use proc_lang::{End, Trap};
use range_rules::{Action, MOST_ACTIONS, NumberedWork, Ran, Routine, RoutineCall, Work};
use std::alloc::Global;
use tbl_snapshot::Snapshot;

/// What the work's run on the snapshot comes to. The index has the snapshot's keys. An error: there was no
/// memory.
pub(crate) fn run_work<C: Procs, R: Routine>(
    alloc: Global,
    procs: &C,
    routines: &R,
    asked: &NumberedWork,
    snapshot: Snapshot,
    index: &Index,
) -> Result<Ran, Memory>
    requires { IsIndexOf index.now snapshot }
    ensures { IfOk result (λ ran. ran ≡ ran_on (C.tree procs.now) (R.act routines.now) snapshot.entry asked.now) }
{
    match &asked.work {
        Work::Proc(call) => procs.run_call(alloc, asked.q, call, snapshot),
        Work::Routine(call) => run_routine(alloc, routines, asked.q, call, snapshot, index),
    }
}

/// What the routine's run on the snapshot comes to.
fn run_routine<R: Routine>(
    alloc: Global,
    routines: &R,
    q: u64,
    call: &RoutineCall,
    snapshot: Snapshot,
    index: &Index,
) -> Result<Ran, Memory>
    requires { IsIndexOf index.now snapshot }
    ensures { IfOk result (λ ran. ran ≡ ran_by (run_routine (R.act routines.now q call.now) snapshot.entry)) }
{
    let mut window = Window::over(alloc, snapshot, index);
    let mut seen = Vec::new(alloc);
    for _made in 0..MOST_ACTIONS {
        match routines.next(alloc, q, call, &seen)? {
            Action::Stop(end) => return Ok(ran(alloc, window, end)),
            action => {
                let answer = window.perform(action)?;
                seen.push(answer)?;
            }
        }
    }
    match routines.next(alloc, q, call, &seen)? {
        Action::Stop(end) => Ok(ran(alloc, window, end)),
        _ => Ok(ran(alloc, window, End::Trap(Trap::Many))),
    }
}

/// What a run with this end through the window comes to.
fn ran(alloc: Global, window: Window, end: End) -> Ran
    ensures { let glass = window.entry in result ≡ record {
      reads = glass.layer.noted.reads;
      writes = (if is_done end then glass.layer.noted.writes else []);
      scans = glass.scans;
      end = end;
    } }
{
    let (reads, writes, scans) = window.parts();
    // Only the writes of a run that is done count.
    let writes = match end {
        End::Done(_) => writes,
        End::Back(_) | End::Trap(_) => Changes::from_vec(Vec::new(alloc)),
    };
    Ran {
        reads,
        writes,
        scans,
        end,
    }
}
