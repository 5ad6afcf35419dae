// What a script comes to.
ghost use Rattle.std.specs.Prelude.{◌<◌};

use crate::echoes::Echo;
use answer_text::print_refusal;
use aria_base::{MemSink, MemSource};
use cat_builtin::builtin;
use script_course::{MOST_BYTES, Stop, read_through};
use script_places::{Counts, Mode, ScriptPlace};
use script_text::{LinesRefused, Refusal};
use std::alloc::Global;
use std::test::Fail;

/// Before the first batch.
pub const FIRST: Counts = Counts {
    batches: 0,
    requests: 0,
    waiting: 0,
};

/// A script of this command of which nothing was read. That of `run` is read with the bank.
pub fn start(alloc: Global, mode: Mode, counts: Counts) -> Result<Echo, Fail> {
    if mode != Mode::Run {
        let place = ScriptPlace::start(mode);
        return Ok(Echo { place, counts });
    }
    let Some(bank) = builtin(alloc, b"bank")? else {
        return Err(Fail::new("there is a bank"));
    };
    let place = ScriptPlace::start_with(mode, bank);
    Ok(Echo { place, counts })
}

/// What the script prints, where source and sink fail at these calls, and then how it ends.
pub fn outcome(
    alloc: Global,
    echo: Echo,
    text: &[u8],
    piece: usize,
    source_fails: &[u64],
    sink_fails: &[u64],
) -> Result<Vec<u8>, Fail>
    requires { 0 < piece }
{
    let text = Vec::from_slice(alloc, text)?;
    let mut input = MemSource::new(text, piece, Vec::from_slice(alloc, source_fails)?);
    let mut out = MemSink::new(alloc, 100_000, Vec::from_slice(alloc, sink_fails)?)?;
    read_within(alloc, MOST_BYTES, echo, &mut input, &mut out)
}

/// What a script of at most so many bytes prints, and then how it ends.
pub fn outcome_within(
    alloc: Global,
    limit: u64,
    echo: Echo,
    text: &[u8],
    piece: usize,
) -> Result<Vec<u8>, Fail>
    requires { 0 < piece }
{
    let mut input = MemSource::new(Vec::from_slice(alloc, text)?, piece, Vec::new(alloc));
    let mut out = MemSink::new(alloc, 100_000, Vec::new(alloc))?;
    read_within(alloc, limit, echo, &mut input, &mut out)
}

fn read_within(
    alloc: Global,
    limit: u64,
    echo: Echo,
    input: &mut MemSource,
    out: &mut MemSink,
) -> Result<Vec<u8>, Fail> {
    let longest = longest_of(echo.place.mode);
    let read = read_through(alloc, limit, longest, echo, input, out);
    let mut found = Vec::from_slice(alloc, out.bytes())?;
    add_end(alloc, read, &mut found)?;
    Ok(found)
}

/// The most bytes of a line.
fn longest_of(mode: Mode) -> u32 {
    match mode {
        Mode::Check => 262_144,
        _ => 4096,
    }
}

/// Adds how the script ends.
fn add_end(alloc: Global, read: Result<Echo, Stop>, found: &mut Vec<u8>) -> Result<(), Fail> {
    match read {
        Ok(echo) => {
            let Echo { place, .. } = echo;
            add_closing(alloc, place, found)
        }
        Err(stop) => {
            found.extend_from_slice(word_of(stop))?;
            Ok(())
        }
    }
}

fn add_closing(alloc: Global, place: ScriptPlace, found: &mut Vec<u8>) -> Result<(), Fail> {
    match place.close(alloc).err() {
        None => {
            found.extend_from_slice(b"end")?;
            Ok(())
        }
        Some(LinesRefused::Memory) => Err(Fail::new("there is memory")),
        Some(LinesRefused::Line(refusal)) => add_refusal(alloc, &refusal, found),
    }
}

fn add_refusal(alloc: Global, refusal: &Refusal, found: &mut Vec<u8>) -> Result<(), Fail> {
    let text = print_refusal(alloc, refusal)?;
    found.extend_from_slice(text.as_slice())?;
    Ok(())
}

fn word_of(stop: Stop) -> &'static [u8] {
    match stop {
        Stop::Refused => b"",
        Stop::NoMemory => b"no memory",
        Stop::NoWrite => b"no write",
        Stop::NoDisk => b"no disk",
        Stop::NoRead => b"no read",
    }
}
