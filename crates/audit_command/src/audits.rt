// The end of an audit.
ghost use Rattle.std.specs.Prelude.{◌≡◌, ◌≢◌, ◌≤◌, ◌⊎◌, Err, IfOk, IfErr};
ghost use Rattle.aria_base.specs.Faults.{Rose};
ghost use Rattle.script_course.specs.Causes.{IsCause};
ghost use Rattle.script_course.specs.Served.{Finishes};
ghost use Rattle.script_course.specs.declared.stops.Stop.TheVariants as stop;
ghost use Rattle.audit_command.specs.Audits as audits;
ghost use Rattle.tpcc_audit.specs.Conditions.{audited};
ghost use Rattle.script_course.specs.declared.statuses.TheConstants as status;

use crate::findings::{print_finding, status_of};
use aria_base::{Memory, Sink};
use script_course::{Stop, end_with, refuse};
use script_rows::Draft;
use script_text::LinesRefused;
use std::alloc::Global;
use tbl_rows::Tables;
use tpcc_audit::Audit;

/// The end of the input: the finding on the rows.
pub(crate) fn end_of<K: Sink>(alloc: Global, last: Draft, out: &mut K) -> Result<u8, Stop>
    ensures finishes { Finishes (audits.on_end last) (K.given out.old) (K.given out.new) result }
    ensures read { result ≢ Err stop.NoRead }
    ensures status { IfOk result (λ ending. (ending ≡ status.DONE) ⊎ (ending ≡ status.FAILS)) }
    ensures sink { K.faults out.old ≤ K.faults out.new }
    ensures cause { IfErr result (λ stop. IsCause stop (Rose (K.faults out.old) (K.faults out.new)) ⊥) }
{
    let Draft { place, tables } = last;
    match place.close(alloc) {
        Ok(_) => tell_finding(alloc, &tables, out),
        Err(LinesRefused::Memory) => Err(Stop::NoMemory),
        Err(LinesRefused::Line(refusal)) => refuse(alloc, &refusal, out),
    }
}

/// Gives the finding on these rows.
fn tell_finding<K: Sink>(alloc: Global, tables: &Tables, out: &mut K) -> Result<u8, Stop>
    ensures finishes { Finishes (audits.finding_out (audited tables.now)) (K.given out.old) (K.given out.new) result }
    ensures read { result ≢ Err stop.NoRead }
    ensures status { IfOk result (λ ending. (ending ≡ status.DONE) ⊎ (ending ≡ status.FAILS)) }
    ensures sink { K.faults out.old ≤ K.faults out.new }
    ensures cause { IfErr result (λ stop. IsCause stop (Rose (K.faults out.old) (K.faults out.new)) ⊥) }
{
    match tpcc_audit::audit(alloc, tables) {
        Ok(found) => give_finding(alloc, &found, out),
        Err(Memory) => Err(Stop::NoMemory),
    }
}

/// Gives a finding, and answers its status.
fn give_finding<K: Sink>(alloc: Global, found: &Audit, out: &mut K) -> Result<u8, Stop>
    ensures finishes { Finishes (audits.finding_out found.now) (K.given out.old) (K.given out.new) result }
    ensures read { result ≢ Err stop.NoRead }
    ensures status { IfOk result (λ ending. (ending ≡ status.DONE) ⊎ (ending ≡ status.FAILS)) }
    ensures sink { K.faults out.old ≤ K.faults out.new }
    ensures cause { IfErr result (λ stop. IsCause stop (Rose (K.faults out.old) (K.faults out.new)) ⊥) }
{
    match print_finding(alloc, found) {
        Ok(text) => end_with(status_of(found), &text, out),
        Err(Memory) => Err(Stop::NoMemory),
    }
}
