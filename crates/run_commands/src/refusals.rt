// A store that cannot be opened.
ghost use Rattle.std.specs.Prelude.{◌≡◌, ◌≢◌, ◌≤◌, Err, IfOk, IfErr};
ghost use Rattle.aria_base.specs.Faults.{Rose};
ghost use Rattle.script_course.specs.Causes.{IsCause};
ghost use Rattle.script_course.specs.Served.{Finishes};
ghost use Rattle.script_course.specs.declared.stops.Stop.TheVariants as stop;
ghost use Rattle.store_openings.specs.declared.refusals.NotOpened.TheVariants as not_opened;
ghost use Rattle.run_commands.specs.Resumes.{RefusesStore, damaged_out};

use answer_text::{NotDone, append_damaged, refused_line};
use aria_base::{Memory, Sink};
use script_course::{STORE_REFUSED, Stop, end_with};
use std::alloc::Global;
use store_openings::NotOpened;

/// Ends a command whose store cannot be opened. Where there is none, or it is damaged, a line tells it.
pub fn refuse_store<K: Sink>(alloc: Global, why: NotOpened, out: &mut K) -> Result<u8, Stop>
    ensures refuses { RefusesStore why (K.given out.old) (K.given out.new) result }
    ensures status { IfOk result (λ ending. ending ≡ STORE_REFUSED) }
    ensures read { result ≢ Err stop.NoRead }
    ensures refused { result ≢ Err stop.Refused }
    ensures sink { K.faults out.old ≤ K.faults out.new }
    ensures cause { IfErr result (λ stop. IsCause stop (Rose (K.faults out.old) (K.faults out.new)) (why ≡ not_opened.NoDisk)) }
{
    match why {
        NotOpened::NoStore => end_with(STORE_REFUSED, refused_line(NotDone::NoStore), out),
        NotOpened::Damaged { file, at } => tell_damage(alloc, file, at, out),
        NotOpened::NoDisk => Err(Stop::NoDisk),
        NotOpened::NoMemory => Err(Stop::NoMemory),
    }
}

/// Ends a command with the line that tells where its store is damaged.
fn tell_damage<K: Sink>(alloc: Global, file: u8, at: u64, out: &mut K) -> Result<u8, Stop>
    ensures finishes { Finishes (damaged_out file at) (K.given out.old) (K.given out.new) result }
    ensures status { IfOk result (λ ending. ending ≡ STORE_REFUSED) }
    ensures read { result ≢ Err stop.NoRead }
    ensures refused { result ≢ Err stop.Refused }
    ensures sink { K.faults out.old ≤ K.faults out.new }
    ensures cause { IfErr result (λ stop. IsCause stop (Rose (K.faults out.old) (K.faults out.new)) ⊥) }
{
    let mut text = Vec::new(alloc);
    match append_damaged(&mut text, file, at) {
        Ok(()) => end_with(STORE_REFUSED, &text, out),
        Err(Memory) => Err(Stop::NoMemory),
    }
}
