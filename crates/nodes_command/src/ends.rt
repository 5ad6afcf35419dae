// The end of a script.
ghost use Rattle.std.specs.Prelude.{◌≡◌, ◌≢◌, ◌≤◌, Err, IfOk, IfErr};
ghost use Rattle.aria_base.specs.Faults.{Rose};
ghost use Rattle.run_commands.specs.Onces.{drained, listed};
ghost use Rattle.script_course.specs.Causes.{IsCause};
ghost use Rattle.script_course.specs.Served.{Finishes, Serves};
ghost use Rattle.script_course.specs.declared.statuses.TheConstants.{DONE};
ghost use Rattle.script_course.specs.declared.stops.Stop.TheVariants as stop;
ghost use Rattle.serving.specs.Drains.{drains};
ghost use Rattle.nodes_command.specs.Bases.{IsUnder, base_result, state_of};
ghost use Rattle.nodes_command.specs.Scripts.{on_end};

use crate::bases::Base;
use crate::drains::drain;
use crate::scripts::NodesScript;
use crate::works::Work;
use aria_base::{Memory, Sink};
use proc_lang::Catalog;
use script_course::{DONE, Stop, end_with, refuse};
use script_places::{catalog_in, closes};
use script_text::LinesRefused;
use std::alloc::Global;

/// The end of the input: what waits is drained where that is asked for, and the rows are listed where not each answer had its
/// listing.
pub(crate) fn end_of<K: Sink>(
    alloc: Global,
    script: NodesScript,
    drains: bool,
    out: &mut K,
) -> Result<u8, Stop>
    ensures finishes { Finishes (on_end drains script) (K.given out.old) (K.given out.new) result }
    ensures read { result ≢ Err stop.NoRead }
    ensures zero { IfOk result (λ status. status ≡ DONE) }
    ensures sink { K.faults out.old ≤ K.faults out.new }
    ensures cause { IfErr result (λ stop. IsCause stop (Rose (K.faults out.old) (K.faults out.new)) ⊥) }
{
    closes();
    let NodesScript { place, work } = script;
    let line = place.lines.saturating_add(1);
    match place.close(alloc) {
        Ok(place) => {
            let catalog = catalog_in(alloc, place.head);
            close(alloc, &catalog, work, drains, line, out)
        }
        Err(LinesRefused::Memory) => Err(Stop::NoMemory),
        Err(LinesRefused::Line(refusal)) => refuse(alloc, &refusal, out),
    }
}

/// What follows where nothing is refused.
fn close<K: Sink>(
    alloc: Global,
    catalog: &Catalog,
    work: Work,
    drains: bool,
    line: u64,
    out: &mut K,
) -> Result<u8, Stop>
    requires { IsUnder catalog.now work.base }
    ensures finishes { Finishes (drained drains catalog.now work.each line (state_of work.base)) (K.given out.old) (K.given out.new) result }
    ensures read { result ≢ Err stop.NoRead }
    ensures zero { IfOk result (λ status. status ≡ DONE) }
    ensures sink { K.faults out.old ≤ K.faults out.new }
    ensures cause { IfErr result (λ stop. IsCause stop (Rose (K.faults out.old) (K.faults out.new)) ⊥) }
{
    let each = work.each;
    if !drains {
        return list(alloc, catalog, &work.base, each, out);
    }
    match drained(alloc, catalog, work.base, each, line, out) {
        Ok(base) => list(alloc, catalog, &base, each, out),
        Err(stop) => Err(stop),
    }
}

/// What waits, drained.
fn drained<K: Sink>(
    alloc: Global,
    catalog: &Catalog,
    base: Base,
    each: bool,
    line: u64,
    out: &mut K,
) -> Result<Base, Stop>
    requires { IsUnder catalog.now base }
    ensures serves { Serves (drains catalog.now each line (state_of base)) (K.given out.old) (K.given out.new) (base_result result) }
    ensures under { IfOk result (IsUnder catalog.now) }
    ensures sink { K.faults out.old ≤ K.faults out.new }
    ensures cause { IfErr result (λ stop. IsCause stop (Rose (K.faults out.old) (K.faults out.new)) ⊥) }
{
    match base {
        Base::Rows(tables, rule) => Ok(Base::Rows(tables, rule)),
        Base::Runs(nodes) => match drain(alloc, catalog, nodes, each, line, out) {
            Ok(nodes) => Ok(Base::Runs(nodes)),
            Err(stop) => Err(stop),
        },
    }
}

/// Gives the last listing, where not each answer had one.
fn list<K: Sink>(
    alloc: Global,
    catalog: &Catalog,
    base: &Base,
    each: bool,
    out: &mut K,
) -> Result<u8, Stop>
    requires { IsUnder catalog.now base.now }
    ensures finishes { Finishes (listed catalog.now each (state_of base.now)) (K.given out.old) (K.given out.new) result }
    ensures read { result ≢ Err stop.NoRead }
    ensures zero { IfOk result (λ status. status ≡ DONE) }
    ensures sink { K.faults out.old ≤ K.faults out.new }
    ensures cause { IfErr result (λ stop. IsCause stop (Rose (K.faults out.old) (K.faults out.new)) ⊥) }
{
    if each {
        return end_with(DONE, b"", out);
    }
    match base.list(alloc, catalog) {
        Ok(text) => end_with(DONE, &text, out),
        Err(Memory) => Err(Stop::NoMemory),
    }
}
