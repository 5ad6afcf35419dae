// The loop over a script's lines, whose batches run meanwhile. It stands beside that of `script_course` and
// rests on its laws, since a trait's method cannot start threads through a type parameter.
ghost use Rattle.std.specs.Prelude.{◌≡◌, ◌≤◌, ◌++◌, ℕ, [], length, map, None, Some, IfOk, IfErr, IfSome, IsErr, IsSomeAnd};
ghost use Rattle.std.specs.List.{All};
ghost use Rattle.std.specs.Io.KnownBytes.{IsAtEnd};
ghost use Rattle.aria_base.specs.Faults.{Rose};
ghost use Rattle.aria_base.specs.declared.limits.TheConstants.{LONGEST_LINE};
ghost use Rattle.script_text.specs.Lines.{last_line, scan};
ghost use Rattle.script_course.specs.Causes.{IsCause, IsReadCause, IsTaken};
ghost use Rattle.script_course.specs.Courses.{Goes, told, told_whole, with_fault, with_last, with_lines, with_scan};
ghost use Rattle.script_course.specs.Served.{Comes, Serves};
ghost use Rattle.run_commands.specs.Onces.{doing_result, on_line};
ghost use Rattle.run_commands.specs.Keeps.{IsOpen};
ghost use Rattle.run_commands.specs.Outs.{no_line};
ghost use Rattle.run_commands.specs.Passes.{Line, last, past, turns, turns_whole};
ghost use Rattle.run_commands.specs.Turns.{HoldsScript, KeepsTurns};
ghost use Rattle.store_openings.specs.Saved.{Saved};

use crate::scripts::Script;
use aria_base::{Bytes, LONGEST_LINE, Memory, Pace, Sink, Source};
use disk_model::Disk;
use script_course::{MOST_BYTES, PIECE, Stop, refuse};
use script_text::{Lines, LinesRefused, Refusal};
use std::alloc::Global;
use std::thread::Threads;

/// Reads the source to its end, and takes each line as soon as it is whole. The answer is the script behind
/// the last line, the one at the end that no line feed completes included.
///
/// What comes first decides: a refused line, a fault, or being out of memory ends all, and nothing is
/// printed behind it but the line of a refusal. Where the source fails, just the lines that were whole are
/// answered.
pub(crate) fn read_script<S: Source, K: Sink, D: Disk, P: Pace + Sync, R: Threads + Sync>(
    rt: &R,
    alloc: Global,
    start: Script,
    input: &mut S,
    out: &mut K,
    disk: &mut D,
    pace: &P,
) -> Result<Script, Stop>
    requires open { IsOpen (D.history disk.old) start }

    // What was printed is what the text prints; where it was cut off, a prefix of it. Where the source
    // failed, it is all that the bytes that were taken tell, and no line of them was refused.
    ensures comes { Comes (told on_line no_line start.doing) (told_whole on_line no_line start.doing) (S.left input.old) (S.left input.new)
        (K.given out.old) (K.given out.new) (doing_result result) }
    ensures end { IfOk result (λ _. IsAtEnd (S.left input.new)) }
    ensures open { IfOk result (λ next. IsOpen (D.history disk.new) next) }

    // Over a store: what a stop at any moment leaves, and what the disk holds behind the last line, where the
    // source tells its bytes.
    ensures keeps { (first : ℕ) (saved : Saved) → HoldsScript first saved (D.history disk.old) start
        → IfSome (S.left input.old) (λ text. KeepsTurns first saved (turns_whole (scan no_line text)) start (D.history disk.old) (D.history disk.new)
        (K.given out.old) (K.given out.new) result) }
    ensures store { start.store ≡ None → IfOk result (λ next. next.store ≡ None) }
    ensures untouched { start.store ≡ None → disk.new ≡ disk.old }
    ensures disk { IfOk result (λ _. (D.history disk.old).faults ≤ (D.history disk.new).faults) }

    // Each stop for a fault has its cause.
    ensures source { S.faults input.old ≤ S.faults input.new }
    ensures sink { K.faults out.old ≤ K.faults out.new }
    ensures cause { IfErr result (λ stop. IsReadCause stop (Rose (S.faults input.old) (S.faults input.new))
        (Rose (K.faults out.old) (K.faults out.new)) (IsSomeAnd start.store (λ _. Rose (D.history disk.old).faults (D.history disk.new).faults))) }
{
    let mut lines = Lines::new(alloc, MOST_BYTES, LONGEST_LINE as u32);
    let mut script = start;
    let mut buffer = [0; PIECE];
    loop {
        let Ok(count) = input.take(&mut buffer) else {
            return Err(Stop::NoRead);
        };
        if count == 0 {
            return finish(rt, alloc, script, lines, out, disk, pace);
        }
        match take_piece(
            rt,
            alloc,
            script,
            &mut lines,
            &buffer[..count],
            out,
            disk,
            pace,
        ) {
            Ok(next) => script = next,
            Err(stop) => return Err(stop),
        }
    }
}

/// Takes the next bytes.
fn take_piece<K: Sink, D: Disk, P: Pace + Sync, R: Threads + Sync>(
    rt: &R,
    alloc: Global,
    script: Script,
    lines: &mut Lines,
    piece: &[u8],
    out: &mut K,
    disk: &mut D,
    pace: &P,
) -> Result<Script, Stop>
    requires open { IsOpen (D.history disk.old) script }
    requires longest { lines.old.longest ≤ LONGEST_LINE }
    requires begun { length lines.old.begun ≤ lines.old.longest }
    ensures serves { Serves (with_scan on_line (Goes [] script.doing) (scan lines.old piece.now)) (K.given out.old) (K.given out.new) (doing_result result) }
    ensures open { IfOk result (λ next. IsOpen (D.history disk.new) next) }
    ensures keeps { (first : ℕ) (saved : Saved) → HoldsScript first saved (D.history disk.old) script
        → KeepsTurns first saved (turns (scan lines.old piece.now)) script (D.history disk.old) (D.history disk.new) (K.given out.old)
        (K.given out.new) result }
    ensures store { script.store ≡ None → IfOk result (λ next. next.store ≡ None) }
    ensures untouched { script.store ≡ None → disk.new ≡ disk.old }
    ensures taken { IfOk result (λ _. IsTaken (scan lines.old piece.now) lines.new) }
    ensures sink { K.faults out.old ≤ K.faults out.new }
    ensures disk { IfOk result (λ _. (D.history disk.old).faults ≤ (D.history disk.new).faults) }
    ensures cause { IfErr result (λ stop. IsCause stop (Rose (K.faults out.old) (K.faults out.new)) (IsSomeAnd script.store
        (λ _. Rose (D.history disk.old).faults (D.history disk.new).faults))) }
{
    match lines.feed(piece) {
        Ok(done) => each_line(rt, alloc, script, &done, out, disk, pace),
        Err(LinesRefused::Memory) => Err(Stop::NoMemory),
        Err(LinesRefused::Line(refusal)) => match lines.before(piece) {
            Ok(done) => refuse_behind(rt, alloc, script, &done, &refusal, out, disk, pace),
            Err(Memory) => Err(Stop::NoMemory),
        },
    }
}

/// The lines, and then the refusal of the next one.
fn refuse_behind<K: Sink, D: Disk, P: Pace + Sync, R: Threads + Sync>(
    rt: &R,
    alloc: Global,
    script: Script,
    lines: &[Bytes],
    refusal: &Refusal,
    out: &mut K,
    disk: &mut D,
    pace: &P,
) -> Result<Script, Stop>
    requires open { IsOpen (D.history disk.old) script }
    requires short { All (λ line. length line ≤ LONGEST_LINE) lines.now }
    ensures serves { Serves (with_fault (with_lines on_line (Goes [] script.doing) lines.now) (Some refusal.now)) (K.given out.old) (K.given out.new)
        (doing_result result) }
    ensures keeps { (first : ℕ) (saved : Saved) → HoldsScript first saved (D.history disk.old) script
        → KeepsTurns first saved (map Line lines.now ++ past (Some refusal.now)) script (D.history disk.old) (D.history disk.new) (K.given out.old)
        (K.given out.new) result }
    ensures untouched { script.store ≡ None → disk.new ≡ disk.old }
    ensures stops { IsErr result }
    ensures sink { K.faults out.old ≤ K.faults out.new }
    ensures cause { IfErr result (λ stop. IsCause stop (Rose (K.faults out.old) (K.faults out.new)) (IsSomeAnd script.store
        (λ _. Rose (D.history disk.old).faults (D.history disk.new).faults))) }
{
    match each_line(rt, alloc, script, lines, out, disk, pace) {
        Ok(_) => return refuse(alloc, refusal, out),
        Err(stop) => return Err(stop),
    }
}

/// The last line, where no line feed completes it.
fn finish<K: Sink, D: Disk, P: Pace + Sync, R: Threads + Sync>(
    rt: &R,
    alloc: Global,
    script: Script,
    lines: Lines,
    out: &mut K,
    disk: &mut D,
    pace: &P,
) -> Result<Script, Stop>
    requires open { IsOpen (D.history disk.old) script }
    requires longest { lines.longest ≤ LONGEST_LINE }
    requires begun { length lines.begun ≤ lines.longest }
    ensures serves { Serves (with_last on_line (Goes [] script.doing) (last_line lines)) (K.given out.old) (K.given out.new) (doing_result result) }
    ensures open { IfOk result (λ next. IsOpen (D.history disk.new) next) }
    ensures keeps { (first : ℕ) (saved : Saved) → HoldsScript first saved (D.history disk.old) script
        → KeepsTurns first saved (last (last_line lines)) script (D.history disk.old) (D.history disk.new) (K.given out.old) (K.given out.new) result }
    ensures store { script.store ≡ None → IfOk result (λ next. next.store ≡ None) }
    ensures untouched { script.store ≡ None → disk.new ≡ disk.old }
    ensures disk { IfOk result (λ _. (D.history disk.old).faults ≤ (D.history disk.new).faults) }
    ensures sink { K.faults out.old ≤ K.faults out.new }
    ensures cause { IfErr result (λ stop. IsCause stop (Rose (K.faults out.old) (K.faults out.new)) (IsSomeAnd script.store
        (λ _. Rose (D.history disk.old).faults (D.history disk.new).faults))) }
{
    match lines.finish() {
        None => Ok(script),
        Some(last) => script.serve(rt, alloc, last.as_slice(), out, disk, pace),
    }
}

/// The lines, one after the other.
fn each_line<K: Sink, D: Disk, P: Pace + Sync, R: Threads + Sync>(
    rt: &R,
    alloc: Global,
    start: Script,
    lines: &[Bytes],
    out: &mut K,
    disk: &mut D,
    pace: &P,
) -> Result<Script, Stop>
    requires open { IsOpen (D.history disk.old) start }
    requires short { All (λ line. length line ≤ LONGEST_LINE) lines.now }
    ensures serves { Serves (with_lines on_line (Goes [] start.doing) lines.now) (K.given out.old) (K.given out.new) (doing_result result) }
    ensures open { IfOk result (λ next. IsOpen (D.history disk.new) next) }
    ensures keeps { (first : ℕ) (saved : Saved) → HoldsScript first saved (D.history disk.old) start
        → KeepsTurns first saved (map Line lines.now) start (D.history disk.old) (D.history disk.new) (K.given out.old) (K.given out.new) result }
    ensures store { start.store ≡ None → IfOk result (λ next. next.store ≡ None) }
    ensures untouched { start.store ≡ None → disk.new ≡ disk.old }
    ensures sink { K.faults out.old ≤ K.faults out.new }
    ensures disk { IfOk result (λ _. (D.history disk.old).faults ≤ (D.history disk.new).faults) }
    ensures cause { IfErr result (λ stop. IsCause stop (Rose (K.faults out.old) (K.faults out.new)) (IsSomeAnd start.store
        (λ _. Rose (D.history disk.old).faults (D.history disk.new).faults))) }
{
    let mut script = start;
    for line in lines {
        match script.serve(rt, alloc, line.as_slice(), out, disk, pace) {
            Ok(next) => script = next,
            Err(stop) => return Err(stop),
        }
    }
    Ok(script)
}
