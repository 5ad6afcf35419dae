// The summary of a workload, with the audit of order entry behind it.
ghost use Rattle.std.specs.Prelude.{◌≡◌, ◌++◌, IfOk};
ghost use Rattle.aria_top.specs.Out.{bench_out, with_finding};
ghost use Rattle.aria_top.specs.Statuses.{IsEnded};
ghost use Rattle.bench_command.specs.Benches.{IsInRange};
ghost use Rattle.tpcc_audit.specs.Conditions.{audited};

use aria_base::{Memory, Pace};
use audit_command::{print_finding, status_of};
use bench_command::measure;
use command_words::{Bench, Load};
use script_course::DONE;
use std::alloc::Global;
use std::thread::Threads;
use tbl_rows::Tables;
use tpcc_audit::audit;

/// Runs the workload, and answers what is printed of it and the status.
pub fn print_bench<P: Pace + Sync, R: Threads + Sync>(
    rt: &R,
    alloc: Global,
    settings: &Bench,
    pace: &P,
) -> Result<(Vec<u8>, u8), Memory>
    requires { IsInRange settings.now }
    ensures text { IfOk result (λ done. done.0.items ≡ (bench_out settings.now).bytes) }
    ensures status { IfOk result (λ done. done.1 ≡ (bench_out settings.now).status) }
    ensures ended { IfOk result (λ done. IsEnded done.1) }
{
    let (text, live) = measure(rt, alloc, settings, pace)?;
    match settings.workload.kind {
        Load::Ycsb => return Ok((text, DONE)),
        Load::Tpcc => return print_audit(alloc, text, live.replicas.first().tables()),
    }
}

/// The text with the finding of an audit of these rows behind it, and the status.
fn print_audit(alloc: Global, text: Vec<u8>, tables: &Tables) -> Result<(Vec<u8>, u8), Memory>
    ensures text { IfOk result (λ done. done.0.items ≡ (with_finding text.items (audited tables.now)).bytes) }
    ensures status { IfOk result (λ done. done.1 ≡ (with_finding text.items (audited tables.now)).status) }
    ensures ended { IfOk result (λ done. IsEnded done.1) }
{
    let found = audit(alloc, tables)?;
    let lines = print_finding(alloc, &found)?;
    let mut text = text;
    text.extend_from_slice(&lines)?;
    Ok((text, status_of(&found)))
}
