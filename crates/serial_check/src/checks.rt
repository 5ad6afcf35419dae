// The check of a whole report.
ghost use Rattle.std.specs.Prelude.{◌≡◌, ℕ, List, [], map, length, IfOk};
ghost use Rattle.serial_check.specs.Halts.{Decides};
ghost use Rattle.serial_check.specs.Reports.{IsWithin, answered, batch, batches, begun, closed, ended, drained, finding, is_drained, kept, run, whole};

use crate::answers::expect_answer;
use crate::findings::{Finding, Flaw};
use crate::halts::Halt;
use crate::lines::{batch_line, kept_line};
use crate::listings::{expect_listing, may_list};
use crate::reports::{expect, expect_end, is_line};
use crate::standings::{Reading, Standing};
use aria_base::{Bytes, Call, Items, MOST_REQUESTS, Memory};
use proc_lang::Catalog;
use std::alloc::Global;
use tbl_rows::Tables;

/// Whether this is a report on the script of these rows and these batches, each with its number and its calls.
/// Its lines are compared byte for byte, and have no line feeds. The rows and the calls need not fit the
/// catalogue: a call of no procedure does nothing, and a batch whose number is no more than that of the batches
/// that were run before it is one that was run; each other one is to be run, as the next one.
pub fn check(
    alloc: Global,
    catalog: Catalog,
    start: Tables,
    script: Vec<(u64, Vec<Call>)>,
    report: &[Bytes],
) -> Result<Finding, Memory>
    ensures { IfOk result (λ found. found ≡ finding catalog report.now start (map (λ batch. (batch.0, batch.1.items)) script.items)) }
{
    match read_all(alloc, &catalog, start, script, report) {
        Ok(_) => Ok(Finding::Holds),
        Err(Halt::Flaw(flaw)) => Ok(flaw.into_finding()),
        Err(Halt::Memory) => Err(Memory),
    }
}

/// The place at which the report ends, read from its first line.
fn read_all(
    alloc: Global,
    catalog: &Catalog,
    start: Tables,
    script: Vec<(u64, Vec<Call>)>,
    report: &[Bytes],
) -> Result<usize, Halt>
    ensures { Decides result (whole catalog.now report.now start (map (λ batch. (batch.0, batch.1.items)) script.items)) }
{
    let reading = read_batches(alloc, catalog, report, begin(alloc, start), script)?;
    read_end(alloc, catalog, report, reading)
}

/// The reading behind what answers these batches.
fn read_batches(
    alloc: Global,
    catalog: &Catalog,
    report: &[Bytes],
    reading: Reading,
    script: Vec<(u64, Vec<Call>)>,
) -> Result<Reading, Halt>
    requires { IsWithin report.now reading }
    ensures says { Decides result (batches catalog.now report.now reading (map (λ batch. (batch.0, batch.1.items)) script.items)) }
    ensures within { IfOk result (λ next. IsWithin report.now next) }
{
    let mut reading = reading;
    for (number, calls) in script {
        reading = read_batch(alloc, catalog, report, reading, number, calls)?;
    }
    Ok(reading)
}

/// The place at which the report ends, read from behind the script's last batch.
fn read_end(
    alloc: Global,
    catalog: &Catalog,
    report: &[Bytes],
    reading: Reading,
) -> Result<usize, Halt>
    requires { IsWithin report.now reading }
    ensures { Decides result (ended catalog.now report.now reading) }
{
    let reading = read_drained(alloc, catalog, report, reading)?;
    close(alloc, catalog, report, reading)
}

/// The reading before the first line.
fn begin(alloc: Global, start: Tables) -> Reading
    ensures { result ≡ begun start }
{
    Reading {
        at: 0,
        standing: Standing {
            tables: start,
            carried: Items::from_vec(Vec::new(alloc)),
            batches: 0,
            requests: 0,
        },
        listed: false,
    }
}

/// The reading behind what answers the batch with this number and these calls.
fn read_batch(
    alloc: Global,
    catalog: &Catalog,
    report: &[Bytes],
    reading: Reading,
    number: u64,
    calls: Vec<Call>,
) -> Result<Reading, Halt>
    requires { IsWithin report.now reading }
    ensures says { Decides result (batch catalog.now report.now reading (number, calls.items)) }
    ensures within { IfOk result (λ next. IsWithin report.now next) }
{
    if number <= reading.standing.batches {
        return read_kept(alloc, report, reading, number);
    }
    read_run(alloc, catalog, report, reading, calls)
}

/// The reading behind what answers a batch that is to be run.
fn read_run(
    alloc: Global,
    catalog: &Catalog,
    report: &[Bytes],
    reading: Reading,
    calls: Vec<Call>,
) -> Result<Reading, Halt>
    requires { IsWithin report.now reading }
    ensures says { Decides result (run catalog.now report.now reading calls.items) }
    ensures within { IfOk result (λ next. IsWithin report.now next) }
{
    if reading.standing.carried.as_slice().len() + calls.len() > MOST_REQUESTS {
        let number = reading.standing.batches + 1;
        return Err(Halt::Flaw(Flaw::Crowded { number }));
    }
    read_answer(alloc, catalog, report, reading, calls)
}

/// The reading behind the line of a batch that was run before.
fn read_kept(
    alloc: Global,
    report: &[Bytes],
    reading: Reading,
    number: u64,
) -> Result<Reading, Halt>
    requires { IsWithin report.now reading }
    ensures says { Decides result (kept report.now reading number) }
    ensures within { IfOk result (λ next. IsWithin report.now next) }
{
    let at = expect(alloc, report, kept_line(alloc, number)?, reading.at)?;
    Ok(Reading {
        at,
        listed: false,
        ..reading
    })
}

/// The reading behind an answer to these calls and the listing that may stand behind it.
fn read_answer(
    alloc: Global,
    catalog: &Catalog,
    report: &[Bytes],
    reading: Reading,
    calls: Vec<Call>,
) -> Result<Reading, Halt>
    requires { IsWithin report.now reading }
    ensures says { Decides result (answered catalog.now report.now reading calls.items) }
    ensures within { IfOk result (λ next. IsWithin report.now next) }
{
    let Reading {
        at,
        standing,
        listed: _,
    } = reading;
    let reading = expect_answer(alloc, catalog, report, standing, calls, at)?;
    may_list(alloc, catalog, report, reading)
}

/// The reading behind the answers to no calls.
fn read_drained(
    alloc: Global,
    catalog: &Catalog,
    report: &[Bytes],
    reading: Reading,
) -> Result<Reading, Halt>
    requires { IsWithin report.now reading }
    ensures says { Decides result (drained catalog.now report.now (length report.now) reading) }
    ensures within { IfOk result (λ next. IsWithin report.now next) }
{
    let mut reading = reading;
    for _ in 0..report.len() {
        let more = is_drained(alloc, report, &reading)?;
        if more {
            reading = drain(alloc, catalog, report, reading)?;
        } else {
            return Ok(reading);
        }
    }
    Ok(reading)
}

/// The reading behind an answer to no calls and the listing that may stand behind it.
fn drain(
    alloc: Global,
    catalog: &Catalog,
    report: &[Bytes],
    reading: Reading,
) -> Result<Reading, Halt>
    requires { IsWithin report.now reading }
    ensures says { Decides result (answered catalog.now report.now reading []) }
    ensures within { IfOk result (λ next. IsWithin report.now next) }
{
    read_answer(alloc, catalog, report, reading, Vec::new(alloc))
}

/// Whether something is carried and an answer begins here.
fn is_drained(alloc: Global, report: &[Bytes], reading: &Reading) -> Result<bool, Memory>
    requires { IsWithin report.now reading.now }
    ensures { IfOk result (λ drained. drained ≡ is_drained report.now reading.now) }
{
    if reading.standing.carried.as_slice().is_empty() {
        return Ok(false);
    }
    let first = batch_line(alloc, reading.standing.batches + 1)?;
    Ok(is_line(report, &first, reading.at))
}

/// The place at which the report ends: here where a listing stands before it, and else behind one.
fn close(
    alloc: Global,
    catalog: &Catalog,
    report: &[Bytes],
    reading: Reading,
) -> Result<usize, Halt>
    requires { IsWithin report.now reading }
    ensures { Decides result (closed catalog.now report.now reading) }
{
    if reading.listed {
        return expect_end(alloc, report, reading.at);
    }
    let at = expect_listing(alloc, catalog, report, &reading.standing, reading.at)?;
    expect_end(alloc, report, at)
}
