// The listings of a report, each against the rows that its batches leave.
ghost use Rattle.std.specs.Prelude.{◌≡◌, ◌+◌, ◌≤◌, ◌<◌, ◌^◌, length, map, IfOk};
ghost use Rattle.std.specs.Map.Iter.{deref_pair};
ghost use Rattle.script_text.specs.Written.{row_line};
ghost use Rattle.serial_check.specs.Halts.{Decides};
ghost use Rattle.serial_check.specs.Reports.{expect_all, listing, may_list, row_lines};

use crate::halts::Halt;
use crate::lines::{end_state_line, row_line, state_line};
use crate::reports::{expect, is_line};
use crate::standings::{Reading, Standing};
use aria_base::{Bytes, Key, Row, Schema};
use proc_lang::Catalog;
use std::alloc::Global;
use tbl_rows::Tables;

/// The place behind the listing of these rows, which has to begin at the place.
pub(crate) fn expect_listing(
    alloc: Global,
    catalog: &Catalog,
    report: &[Bytes],
    standing: &Standing,
    at: usize,
) -> Result<usize, Halt>
    requires { at ≤ length report.now }
    ensures says { Decides result (listing catalog.now report.now standing.now at) }
    ensures from { IfOk result (λ next. at ≤ next) }
    ensures within { IfOk result (λ next. next ≤ length report.now) }
{
    let at = expect(alloc, report, state_line(alloc, standing.batches)?, at)?;
    let at = expect_tables(alloc, catalog, report, &standing.tables, at)?;
    expect(alloc, report, end_state_line(alloc)?, at)
}

/// The place behind the lines of all rows, in the order of their keys.
fn expect_tables(
    alloc: Global,
    catalog: &Catalog,
    report: &[Bytes],
    tables: &Tables,
    at: usize,
) -> Result<usize, Halt>
    requires { at ≤ length report.now }
    ensures says { Decides result (expect_all report.now (row_lines catalog.now tables.now) at) }
    ensures from { IfOk result (λ next. at ≤ next) }
    ensures within { IfOk result (λ next. next ≤ length report.now) }
{
    let rows = tables.rows()?;
    expect_rows(alloc, catalog.schema(), report, &rows, at)
}

/// The place behind the lines of these rows.
fn expect_rows(
    alloc: Global,
    tables: &Schema,
    report: &[Bytes],
    rows: &[(&Key, &Row)],
    at: usize,
) -> Result<usize, Halt>
    requires { at ≤ length report.now }
    ensures says { Decides result (expect_all report.now (map (λ row. row_line tables.now row.0 row.1) (map deref_pair rows.now)) at) }
    ensures from { IfOk result (λ next. at ≤ next) }
    ensures within { IfOk result (λ next. next ≤ length report.now) }
{
    let mut at = at;
    for (key, row) in rows {
        at = expect(alloc, report, row_line(alloc, tables, key, row)?, at)?;
    }
    Ok(at)
}

/// Behind an answer: the listing, where one begins here.
pub(crate) fn may_list(
    alloc: Global,
    catalog: &Catalog,
    report: &[Bytes],
    reading: Reading,
) -> Result<Reading, Halt>
    requires { reading.at ≤ length report.now }
    ensures says { Decides result (may_list catalog.now report.now reading) }
    ensures from { IfOk result (λ next. reading.at ≤ next.at) }
    ensures within { IfOk result (λ next. next.at ≤ length report.now) }
{
    let first = state_line(alloc, reading.standing.batches)?;
    if !is_line(report, &first, reading.at) {
        return Ok(reading);
    }
    let at = expect_listing(alloc, catalog, report, &reading.standing, reading.at)?;
    Ok(Reading {
        at,
        listed: true,
        ..reading
    })
}
