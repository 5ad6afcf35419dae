// The command `gen`: a drawn workload as a script.
ghost use Rattle.std.specs.Prelude.{◌≡◌, ◌≢◌, ◌≤◌, Err, IfOk, IfErr};
ghost use Rattle.aria_base.specs.Faults.{Rose};
ghost use Rattle.script_course.specs.Causes.{IsCause};
ghost use Rattle.script_course.specs.Served.{Finishes};
ghost use Rattle.script_course.specs.declared.stops.Stop.TheVariants as stop;
ghost use Rattle.workloads.specs.Generators.{IsWithin, generator_of};
ghost use Rattle.gen_command.specs.Scripts.{script_of};

use crate::cuts::Cut;
use crate::scripts::give_script;
use aria_base::Sink;
use command_words::Workload;
use script_course::{DONE, Stop};
use std::alloc::Global;
use workloads::Generator;

/// Gives the script of the settings to the sink, and answers the status 0. Where there was no memory or the
/// sink fails, a prefix of the script was given, and the sink is named only where its count of faults rose.
pub fn generate<K: Sink>(alloc: Global, settings: &Workload, out: &mut K) -> Result<u8, Stop>
    requires { IsWithin (generator_of settings.now) }
    ensures finishes { Finishes (record { bytes = script_of settings.now; status = DONE }) (K.given out.old) (K.given out.new) result }
    ensures read { result ≢ Err stop.NoRead }
    ensures zero { IfOk result (λ status. status ≡ DONE) }
    ensures sink { K.faults out.old ≤ K.faults out.new }
    ensures cause { IfErr result (λ stop. IsCause stop (Rose (K.faults out.old) (K.faults out.new)) ⊥) }
{
    let generator = Generator::of(settings);
    match give_script(alloc, &generator, settings.amount, out) {
        Ok(()) => Ok(DONE),
        Err(Cut::NoMemory) => Err(Stop::NoMemory),
        Err(Cut::NoWrite) => Err(Stop::NoWrite),
    }
}
