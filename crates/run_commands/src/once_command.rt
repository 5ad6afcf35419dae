// The command `once`.
ghost use Rattle.std.specs.Prelude.{◌≡◌, ◌≤◌, Ok, IfOk, IfErr};
ghost use Rattle.std.specs.Io.KnownBytes.{IsAtEnd};
ghost use Rattle.aria_base.specs.Faults.{Rose};
ghost use Rattle.script_course.specs.Causes.{IsReadCause};
ghost use Rattle.script_course.specs.Served.{Completes};
ghost use Rattle.run_commands.specs.Outs.{IsInRange, is_each, out_of, told_of};

use crate::scripts::Script;
use crate::texts::run_text;
use aria_base::{Pace, Sink, Source};
use command_words::{Listing, Once};
use dep_rules::Config;
use disk_model::Disk;
use script_course::{DONE, Stop};
use std::alloc::Global;
use std::thread::Threads;

/// Runs the script that the source gives, and answers each batch as soon as its end is read. Where the
/// source tells its bytes, what is printed is the output that they have, and the status is its status; where
/// it was cut off, a prefix of it was printed, and where the source failed, all that the bytes so far tell.
/// Neither workers nor replicas have a say in it. The disk is not touched.
#[tactic(auto, using(crate::proofs::Ran::open_without))]
pub fn once<S: Source, K: Sink, D: Disk, P: Pace + Sync, R: Threads + Sync>(
    rt: &R,
    alloc: Global,
    settings: &Once,
    input: &mut S,
    out: &mut K,
    disk: &mut D,
    pace: &P,
) -> Result<u8, Stop>
    requires { IsInRange settings.now }
    ensures completes { Completes (told_of settings.now) (out_of settings.now) (S.left input.old) (S.left input.new) (K.given out.old)
        (K.given out.new) result }

    // Where nothing was in the way, the answer is 0, and the input was read to its end.
    ensures zero { IfOk result (λ status. status ≡ DONE) }
    ensures end { IfOk result (λ _. IsAtEnd (S.left input.new)) }
    ensures disk { disk.new ≡ disk.old }

    // Each stop for a fault has its cause.
    ensures source { S.faults input.old ≤ S.faults input.new }
    ensures sink { K.faults out.old ≤ K.faults out.new }
    ensures cause { IfErr result (λ stop. IsReadCause stop (Rose (S.faults input.old) (S.faults input.new)) (Rose (K.faults out.old) (K.faults out.new)) ⊥) }
{
    let config = Config {
        rule: settings.rule,
        fallback: settings.fallback,
        workers: settings.workers,
        batons: settings.batons,
    };
    let each = is_each(settings.listing);
    let Ok(start) = Script::start(alloc, config, settings.replicas, each) else {
        return Err(Stop::NoMemory);
    };
    run_text(rt, alloc, start, settings.drain, input, out, disk, pace)
}

/// Whether each answer has a listing behind it.
pub fn is_each(listing: Listing) -> bool
    ensures { result ≡ is_each listing }
{
    match listing {
        Listing::Each => true,
        Listing::Last => false,
    }
}
