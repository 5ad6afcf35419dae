// Lines that have to stand at a place of a report.
ghost use Rattle.std.specs.Prelude.{◌≡◌, ◌+◌, ◌≤◌, ◌<◌, ◌^◌, length, nat_eq, IfOk, unwrap_or, []};
ghost use Rattle.std.specs.List.{slice_get, starts_with};
ghost use Rattle.std.specs.Str.{bytes_eq};
ghost use Rattle.serial_check.specs.Halts.{Decides};
ghost use Rattle.serial_check.specs.Lines.{wait_line, wait_front};
ghost use Rattle.serial_check.specs.Reports.{is_line, stands, failing, pass, expect, expect_end};

use crate::findings::Flaw;
use crate::halts::Halt;
use crate::lines::{wait_front, wait_line};
use aria_base::{Bytes, Memory};
use std::alloc::Global;

/// Whether this line stands at the place, from 0. No memory.
pub(crate) fn is_line(report: &[Bytes], wanted: &[u8], at: usize) -> bool
    ensures { result ≡ is_line report.now wanted.now at }
{
    match report.get(at) {
        Some(line) => line.as_slice() == wanted,
        None => false,
    }
}

/// Whether a line that begins so stands at the place. No memory.
fn begins(report: &[Bytes], front: &[u8], at: usize) -> bool
    ensures { result ≡ stands report.now (λ line. starts_with nat_eq line front.now) at }
{
    match report.get(at) {
        Some(line) => line.as_slice().starts_with(front),
        None => false,
    }
}

/// That the line at the place cannot stand.
pub(crate) fn failing(
    alloc: Global,
    report: &[Bytes],
    wanted: Vec<u8>,
    at: usize,
) -> Result<Flaw, Memory>
    requires { at + 1 < 2 ^ 64 }
    ensures { IfOk result (λ flaw. flaw ≡ failing report.now at wanted.items) }
{
    Ok(Flaw::Fails {
        line: at as u64 + 1,
        wanted: Bytes::from_vec(wanted),
        found: found_at(alloc, report, at)?,
    })
}

/// The line at the place, and nothing where there is none.
fn found_at(alloc: Global, report: &[Bytes], at: usize) -> Result<Bytes, Memory>
    ensures { IfOk result (λ found. found ≡ unwrap_or (slice_get report.now at) []) }
{
    match report.get(at) {
        Some(line) => Ok(Bytes::from_vec(Vec::from_slice(alloc, line.as_slice())?)),
        None => Ok(Bytes::from_vec(Vec::new(alloc))),
    }
}

/// The place behind this line, which has to stand at the place.
pub(crate) fn expect(
    alloc: Global,
    report: &[Bytes],
    wanted: Vec<u8>,
    at: usize,
) -> Result<usize, Halt>
    requires { at + 1 < 2 ^ 64 }
    ensures says { Decides result (expect report.now wanted.items at) }
    ensures next { IfOk result (λ next. next ≡ at + 1) }
    ensures within { IfOk result (λ next. next ≤ length report.now) }
{
    if is_line(report, &wanted, at) {
        return Ok(at + 1);
    }
    Err(Halt::Flaw(failing(alloc, report, wanted, at)?))
}

/// The place behind a line that has to say that this request waits, whatever the cause.
pub(crate) fn expect_wait(alloc: Global, report: &[Bytes], q: u64, at: usize) -> Result<usize, Halt>
    requires { at + 1 < 2 ^ 64 }
    ensures says { Decides result (pass report.now (λ line. starts_with nat_eq line (wait_front q)) (wait_line q) at) }
    ensures next { IfOk result (λ next. next ≡ at + 1) }
    ensures within { IfOk result (λ next. next ≤ length report.now) }
{
    if begins(report, &wait_front(alloc, q)?, at) {
        return Ok(at + 1);
    }
    let wanted = wait_line(alloc, q)?;
    Err(Halt::Flaw(failing(alloc, report, wanted, at)?))
}

/// The place, at which the report has to end.
pub(crate) fn expect_end(alloc: Global, report: &[Bytes], at: usize) -> Result<usize, Halt>
    requires { at + 1 < 2 ^ 64 }
    ensures { Decides result (expect_end report.now at) }
{
    if at < report.len() {
        let wanted = Vec::new(alloc);
        return Err(Halt::Flaw(failing(alloc, report, wanted, at)?));
    }
    Ok(at)
}
