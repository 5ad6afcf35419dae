// Procedures that works call.
ghost use Rattle.std.specs.Prelude.{◌≡◌, IfOk};
ghost use Rattle.aria_base.specs.Orders.{Cells};
ghost use Rattle.aria_base.specs.declared.calls.Request.{Request as Asked};
ghost use Rattle.aria_base.specs.declared.keys.Key.{Key};
ghost use Rattle.batch_rules.specs.Trees.{Tree};
ghost use Rattle.proc_lang.specs.declared.ends.End.{End};
ghost use Rattle.range_rules.specs.Courses.{proc_ran, request_for};

use aria_base::{Call, Duplicate, Memory, Request};
use exec_phase::execute;
use proc_exec::Outcome;
use proc_lang::Catalog;
use range_rules::{Prefixes, Ran};
use std::alloc::Global;
use tbl_snapshot::Snapshot;

/// Procedures that works may call, as a catalogue has them. They are a trait so that several workers can share
/// them behind a type parameter.
pub(crate) trait Procs {
    /// What a request of a procedure does.
    ghost tree: { Self → Asked → Tree Key Cells End };

    /// What the run of a procedure on the snapshot comes to. An error: there was no memory.
    fn run_call(
        &self,
        alloc: Global,
        q: u64,
        call: &Call,
        snapshot: Snapshot,
    ) -> Result<Ran, Memory>
        ensures { IfOk result (λ ran. ran ≡ proc_ran (tree self.now (request_for q call.now)) snapshot.entry) };
}

impl Procs for Catalog {
    ghost use Rattle.proc_lang.specs.Catalogs.{run_of};

    ghost tree = { run_of };

    fn run_call(
        &self,
        alloc: Global,
        q: u64,
        call: &Call,
        snapshot: Snapshot,
    ) -> Result<Ran, Memory> {
        let request = Request {
            q,
            call: call.duplicate(alloc)?,
        };
        let Outcome { reads, writes, end } = execute(alloc, self, &request, snapshot)?;
        Ok(Ran {
            reads,
            writes,
            scans: Prefixes::from_vec(Vec::new(alloc)),
            end,
        })
    }
}
