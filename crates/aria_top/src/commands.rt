// Each command with the status that it ends in.
ghost use Rattle.std.specs.Prelude.{◌≡◌, ◌⊎◌, IfSome};
ghost use Rattle.std.specs.Io.KnownBytes.{Appends, IsAtEnd};
ghost use Rattle.aria_base.specs.Faults.{Rose};
ghost use Rattle.aria_base.specs.Streams.{AppendsFront};
ghost use Rattle.script_course.specs.Served.{IsToldOf};
ghost use Rattle.aria_top.specs.Out.{bench_out, mix_out};
ghost use Rattle.aria_top.specs.Statuses.{IsAnswered, IsEnded};
ghost use Rattle.audit_command.specs.Audits as audits;
ghost use Rattle.bench_command.specs.Benches as benches;
ghost use Rattle.check_command.specs.Outs as checks;
ghost use Rattle.gen_command.specs.Scripts.{script_of};
ghost use Rattle.run_commands.specs.Outs.{IsInRange, out_of, told_of};
ghost use Rattle.mix_command.specs.Courses.{last_stage};
ghost use Rattle.nodes_command.specs.Outs as nodes;
ghost use Rattle.tpcc_routines.specs.Sound.{IsSound};
ghost use Rattle.workloads.specs.Laws.{IsAsked, IsMixAsked};

use crate::endings::final_status;
use crate::summaries::print_bench;
use aria_base::{Memory, Pace, Sink, Source};
use audit_command::audit;
use check_command::check_report;
use command_words::{Bench, Mix, Nodes, Once, Workload};
use disk_model::Disk;
use gen_command::generate;
use mix_command::measure;
use nodes_command::nodes;
use run_commands::once;
use script_course::{DONE, NO_MEMORY, READ_FAULT, REFUSED, WRITE_FAULT};
use std::alloc::Global;
use std::thread::Threads;

/// Runs `once`, and answers its status.
#[tactic(auto, using(crate::proofs::Stopped::command_ends))]
pub fn run_once<S: Source, K: Sink, D: Disk, P: Pace + Sync, R: Threads + Sync>(
    rt: &R,
    alloc: Global,
    settings: &Once,
    input: &mut S,
    out: &mut K,
    disk: &mut D,
    pace: &P,
) -> u8
    requires { IsInRange settings.now }
    ensures answered { IsAnswered result → IfSome (S.left input.old)
        (λ text. (result ≡ (out_of settings.now text).status) × Appends (K.given out.old) (K.given out.new) (out_of settings.now text).bytes) }
    ensures front { IfSome (S.left input.old) (λ text. AppendsFront (K.given out.old) (K.given out.new) (out_of settings.now text).bytes) }
    ensures others { (result ≡ DONE) ⊎ (result ≡ REFUSED) ⊎ (result ≡ READ_FAULT) ⊎ (result ≡ WRITE_FAULT) ⊎ (result ≡ NO_MEMORY) }
    ensures read { result ≡ READ_FAULT → Rose (S.faults input.old) (S.faults input.new) }
    ensures write { result ≡ WRITE_FAULT → Rose (K.faults out.old) (K.faults out.new) }
    ensures end { IsEnded result → IsAtEnd (S.left input.new) }
    ensures disk { disk.new ≡ disk.old }
    ensures told { result ≡ READ_FAULT → IsToldOf (told_of settings.now) (S.left input.old) (S.left input.new) (K.given out.old) (K.given out.new) }
{
    final_status(once(rt, alloc, settings, input, out, disk, pace))
}

/// Runs `gen`, and answers its status.
pub fn run_gen<K: Sink>(alloc: Global, settings: &Workload, out: &mut K) -> u8
    requires { IsAsked settings.now }
    ensures answered { IsAnswered result → (result ≡ DONE) × Appends (K.given out.old) (K.given out.new) (script_of settings.now) }
    ensures front { AppendsFront (K.given out.old) (K.given out.new) (script_of settings.now) }
    ensures others { (result ≡ DONE) ⊎ (result ≡ WRITE_FAULT) ⊎ (result ≡ NO_MEMORY) }
    ensures write { result ≡ WRITE_FAULT → Rose (K.faults out.old) (K.faults out.new) }
{
    final_status(generate(alloc, settings, out))
}

/// Runs `bench`, and answers its status.
pub fn run_bench<K: Sink, P: Pace + Sync, R: Threads + Sync>(
    rt: &R,
    alloc: Global,
    settings: &Bench,
    out: &mut K,
    pace: &P,
) -> u8
    requires { benches.IsInRange settings.now }
    ensures answered { IsAnswered result → (result ≡ (bench_out settings.now).status)
        × Appends (K.given out.old) (K.given out.new) (bench_out settings.now).bytes }
    ensures front { AppendsFront (K.given out.old) (K.given out.new) (bench_out settings.now).bytes }
    ensures others { IsEnded result ⊎ (result ≡ WRITE_FAULT) ⊎ (result ≡ NO_MEMORY) }
    ensures write { result ≡ WRITE_FAULT → Rose (K.faults out.old) (K.faults out.new) }
{
    match print_bench(rt, alloc, settings, pace) {
        Ok((text, status)) => match out.give(&text) {
            Ok(()) => return status,
            Err(_) => return WRITE_FAULT,
        },
        Err(Memory) => return NO_MEMORY,
    }
}

/// Runs `mix`, and answers its status. Where it is done, the rows are sound, so that the audit holds.
pub fn run_mix<K: Sink, P: Pace + Sync, R: Threads + Sync>(
    rt: &R,
    alloc: Global,
    settings: &Mix,
    out: &mut K,
    pace: &P,
) -> u8
    requires { IsMixAsked settings.now }
    ensures answered { IsAnswered result → (result ≡ DONE) × Appends (K.given out.old) (K.given out.new) (mix_out settings.now).bytes }
    ensures front { AppendsFront (K.given out.old) (K.given out.new) (mix_out settings.now).bytes }
    ensures others { (result ≡ DONE) ⊎ (result ≡ WRITE_FAULT) ⊎ (result ≡ NO_MEMORY) }
    ensures write { result ≡ WRITE_FAULT → Rose (K.faults out.old) (K.faults out.new) }
    ensures sound { result ≡ DONE → IsSound (last_stage settings.now).mix.rows }
{
    match measure(rt, alloc, settings, pace) {
        Ok(text) => match out.give(&text) {
            Ok(()) => return DONE,
            Err(_) => return WRITE_FAULT,
        },
        Err(Memory) => return NO_MEMORY,
    }
}

/// Runs `nodes`, and answers its status.
#[tactic(auto, using(crate::proofs::Stopped::command_ends))]
pub fn run_nodes<S: Source, K: Sink>(
    alloc: Global,
    settings: &Nodes,
    input: &mut S,
    out: &mut K,
) -> u8
    requires { nodes.IsInRange settings.now }
    ensures answered { IsAnswered result → IfSome (S.left input.old)
        (λ text. (result ≡ (nodes.out_of settings.now text).status) × Appends (K.given out.old) (K.given out.new) (nodes.out_of settings.now text).bytes) }
    ensures front { IfSome (S.left input.old) (λ text. AppendsFront (K.given out.old) (K.given out.new) (nodes.out_of settings.now text).bytes) }
    ensures others { (result ≡ DONE) ⊎ (result ≡ REFUSED) ⊎ (result ≡ READ_FAULT) ⊎ (result ≡ WRITE_FAULT) ⊎ (result ≡ NO_MEMORY) }
    ensures read { result ≡ READ_FAULT → Rose (S.faults input.old) (S.faults input.new) }
    ensures write { result ≡ WRITE_FAULT → Rose (K.faults out.old) (K.faults out.new) }
    ensures end { IsEnded result → IsAtEnd (S.left input.new) }
    ensures told { result ≡ READ_FAULT → IsToldOf (nodes.told_of settings.now) (S.left input.old) (S.left input.new) (K.given out.old) (K.given out.new) }
{
    final_status(nodes(alloc, settings, input, out))
}

/// Runs `audit`, and answers its status.
#[tactic(auto, using(crate::proofs::Stopped::command_ends))]
pub fn run_audit<S: Source, K: Sink>(alloc: Global, input: &mut S, out: &mut K) -> u8
    ensures answered { IsAnswered result → IfSome (S.left input.old)
        (λ text. (result ≡ (audits.out_of text).status) × Appends (K.given out.old) (K.given out.new) (audits.out_of text).bytes) }
    ensures front { IfSome (S.left input.old) (λ text. AppendsFront (K.given out.old) (K.given out.new) (audits.out_of text).bytes) }
    ensures others { IsEnded result ⊎ (result ≡ REFUSED) ⊎ (result ≡ READ_FAULT) ⊎ (result ≡ WRITE_FAULT) ⊎ (result ≡ NO_MEMORY) }
    ensures read { result ≡ READ_FAULT → Rose (S.faults input.old) (S.faults input.new) }
    ensures write { result ≡ WRITE_FAULT → Rose (K.faults out.old) (K.faults out.new) }
    ensures end { IsEnded result → IsAtEnd (S.left input.new) }
    ensures told { result ≡ READ_FAULT → IsToldOf audits.told_of (S.left input.old) (S.left input.new) (K.given out.old) (K.given out.new) }
{
    final_status(audit(alloc, input, out))
}

/// Runs `check`, and answers its status.
#[tactic(auto, using(crate::proofs::Stopped::command_ends))]
pub fn run_check<S: Source, K: Sink>(alloc: Global, input: &mut S, out: &mut K) -> u8
    ensures answered { IsAnswered result → IfSome (S.left input.old)
        (λ text. (result ≡ (checks.out_of text).status) × Appends (K.given out.old) (K.given out.new) (checks.out_of text).bytes) }
    ensures front { IfSome (S.left input.old) (λ text. AppendsFront (K.given out.old) (K.given out.new) (checks.out_of text).bytes) }
    ensures others { IsEnded result ⊎ (result ≡ REFUSED) ⊎ (result ≡ READ_FAULT) ⊎ (result ≡ WRITE_FAULT) ⊎ (result ≡ NO_MEMORY) }
    ensures read { result ≡ READ_FAULT → Rose (S.faults input.old) (S.faults input.new) }
    ensures write { result ≡ WRITE_FAULT → Rose (K.faults out.old) (K.faults out.new) }
    ensures end { IsEnded result → IsAtEnd (S.left input.new) }
    ensures told { result ≡ READ_FAULT → IsToldOf checks.told_of (S.left input.old) (S.left input.new) (K.given out.old) (K.given out.new) }
{
    final_status(check_report(alloc, input, out))
}
