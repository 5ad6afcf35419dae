// The loop of every command that reads.
ghost use Rattle.std.specs.Prelude.{◌≡◌, ◌≤◌, [], Some, IfOk, IfErr, IsErr};
ghost use Rattle.std.specs.Io.KnownBytes.{IsAtEnd};
ghost use Rattle.aria_base.specs.Faults.{Rose};
ghost use Rattle.script_text.specs.Lines.{blank, scan, last_line};
ghost use Rattle.script_course.specs.Courses.{Goes, with_lines, with_fault, with_scan, with_last, told, told_whole};
ghost use Rattle.script_course.specs.Served.{Serves, Comes};
ghost use Rattle.script_course.specs.Causes.{IsCause, IsReadCause, IsTaken};

use crate::courses::Reads;
use crate::gives::refuse;
use crate::stops::Stop;
use aria_base::{Bytes, Memory, Sink, Source};
use script_text::{Lines, LinesRefused, Refusal};
use std::alloc::Global;

/// The most bytes of an input.
pub const MOST_BYTES: u64 = 2_147_483_648;

/// How many bytes are asked for at a time.
pub const PIECE: usize = 65_536;

/// Reads the source to its end, at most `limit` bytes in lines of at most `longest`, and does with each line
/// what the command does, as soon as the line is whole. The answer is the state behind the last line, the
/// one at the end that no line feed completes included.
///
/// What comes first decides: a refused line, a fault, or being out of memory ends all, and nothing is
/// printed behind it but the line of a refusal. Where the source fails, just the lines that were whole are
/// answered.
pub fn read_through<S: Source, K: Sink, C: Reads>(
    alloc: Global,
    limit: u64,
    longest: u32,
    start: C,
    input: &mut S,
    out: &mut K,
) -> Result<C, Stop>
    requires { C.held start }

    // What was printed is what the text prints; where it was cut off, a prefix of it. Where the source
    // failed, it is all that the bytes that were taken tell, and no line of them was refused.
    ensures comes { Comes (told C.on_line (blank limit longest) start) (told_whole C.on_line (blank limit longest) start)
        (S.left input.old) (S.left input.new) (K.given out.old) (K.given out.new) result }
    ensures end { IfOk result (λ _. IsAtEnd (S.left input.new)) }
    ensures held { IfOk result C.held }

    // Each stop for a fault has its cause.
    ensures source { S.faults input.old ≤ S.faults input.new }
    ensures sink { K.faults out.old ≤ K.faults out.new }
    ensures cause { IfErr result (λ stop. IsReadCause stop (Rose (S.faults input.old) (S.faults input.new))
        (Rose (K.faults out.old) (K.faults out.new)) ⊥) }
{
    let mut lines = Lines::new(alloc, limit, longest);
    let mut course = start;
    let mut buffer = [0; PIECE];
    loop {
        let Ok(count) = input.take(&mut buffer) else {
            return Err(Stop::NoRead);
        };
        if count == 0 {
            return finish(alloc, course, lines, out);
        }
        match take_piece(alloc, course, &mut lines, &buffer[..count], out) {
            Ok(next) => course = next,
            Err(stop) => return Err(stop),
        }
    }
}

/// Takes the next bytes.
fn take_piece<K: Sink, C: Reads>(
    alloc: Global,
    course: C,
    lines: &mut Lines,
    piece: &[u8],
    out: &mut K,
) -> Result<C, Stop>
    requires { C.held course }
    ensures serves { Serves (with_scan C.on_line (Goes [] course) (scan lines.old piece.now)) (K.given out.old) (K.given out.new) result }
    ensures taken { IfOk result (λ _. IsTaken (scan lines.old piece.now) lines.new) }
    ensures held { IfOk result C.held }
    ensures sink { K.faults out.old ≤ K.faults out.new }
    ensures cause { IfErr result (λ stop. IsCause stop (Rose (K.faults out.old) (K.faults out.new)) ⊥) }
{
    match lines.feed(piece) {
        Ok(done) => each_line(alloc, course, &done, out),
        Err(LinesRefused::Memory) => Err(Stop::NoMemory),
        Err(LinesRefused::Line(refusal)) => match lines.before(piece) {
            Ok(done) => refuse_behind(alloc, course, &done, &refusal, out),
            Err(Memory) => Err(Stop::NoMemory),
        },
    }
}

/// The lines, and then the refusal of the next one.
fn refuse_behind<K: Sink, C: Reads>(
    alloc: Global,
    course: C,
    lines: &[Bytes],
    refusal: &Refusal,
    out: &mut K,
) -> Result<C, Stop>
    requires { C.held course }
    ensures serves { Serves (with_fault (with_lines C.on_line (Goes [] course) lines.now) (Some refusal.now)) (K.given out.old) (K.given out.new) result }
    ensures stops { IsErr result }
    ensures sink { K.faults out.old ≤ K.faults out.new }
    ensures cause { IfErr result (λ stop. IsCause stop (Rose (K.faults out.old) (K.faults out.new)) ⊥) }
{
    match each_line(alloc, course, lines, out) {
        Ok(_) => return refuse(alloc, refusal, out),
        Err(stop) => return Err(stop),
    }
}

/// The last line, where no line feed completes it.
fn finish<K: Sink, C: Reads>(alloc: Global, course: C, lines: Lines, out: &mut K) -> Result<C, Stop>
    requires { C.held course }
    ensures serves { Serves (with_last C.on_line (Goes [] course) (last_line lines)) (K.given out.old) (K.given out.new) result }
    ensures held { IfOk result C.held }
    ensures sink { K.faults out.old ≤ K.faults out.new }
    ensures cause { IfErr result (λ stop. IsCause stop (Rose (K.faults out.old) (K.faults out.new)) ⊥) }
{
    match lines.finish() {
        None => Ok(course),
        Some(last) => course.line(alloc, last.as_slice(), out),
    }
}

/// The lines, one after the other.
fn each_line<K: Sink, C: Reads>(
    alloc: Global,
    start: C,
    lines: &[Bytes],
    out: &mut K,
) -> Result<C, Stop>
    requires { C.held start }
    ensures serves { Serves (with_lines C.on_line (Goes [] start) lines.now) (K.given out.old) (K.given out.new) result }
    ensures held { IfOk result C.held }
    ensures sink { K.faults out.old ≤ K.faults out.new }
    ensures cause { IfErr result (λ stop. IsCause stop (Rose (K.faults out.old) (K.faults out.new)) ⊥) }
{
    let mut course = start;
    for line in lines {
        match course.line(alloc, line.as_slice(), out) {
            Ok(next) => course = next,
            Err(stop) => return Err(stop),
        }
    }
    Ok(course)
}
