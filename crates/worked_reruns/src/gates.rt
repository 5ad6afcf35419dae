// The requests of a wave run at once, and each is told. What a long list comes to.
ghost use Rattle.std.specs.Prelude.{◌≤◌, length};
ghost use Rattle.aria_base.specs.declared.limits.TheConstants.{MOST_REQUESTS};

use crate::makings::{ADD, Again, catalog, crowd, tables, waiting};
use crate::words::{late_words, rows_words, same};
use aria_base::{Free, Memory, Place};
use fallback_locks::{rerun, waves};
use proc_exec::{Late, Waiting};
use std::alloc::Global;
use std::process::Abort;
use std::test::Fail;
use tbl_rows::Tables;
use test_paces::Gate;

/// Requests that do not conflict, so many that two workers run their wave.
const APART: [Again; 8] = [
    (ADD, [1, 1], &[1], &[1]),
    (ADD, [2, 1], &[2], &[2]),
    (ADD, [3, 1], &[3], &[3]),
    (ADD, [4, 1], &[4], &[4]),
    (ADD, [5, 1], &[5], &[5]),
    (ADD, [6, 1], &[6], &[6]),
    (ADD, [7, 1], &[7], &[7]),
    (ADD, [8, 1], &[8], &[8]),
];

/// The accounts to which they add.
const ACCOUNTS: [(i64, i64); 8] = [
    (1, 10),
    (2, 20),
    (3, 30),
    (4, 40),
    (5, 50),
    (6, 60),
    (7, 70),
    (8, 80),
];

/// Asserts that both workers were there, and that eight runs were told.
fn met(rt: &impl Abort, gate: &Gate) {
    let (missed, runs) = (gate.was_missed(), gate.steps());
    assert!(rt; !missed && runs == 8, "missed {missed}, runs {runs}");
}

#[test]
fn two_requests_of_one_wave_meet(rt: HostRuntime) -> Result<(), Fail> {
    let alloc = rt.alloc();
    let gate = Gate::before(Place::Rerun);
    let catalog = catalog(alloc)?;
    let tables = tables(alloc, &ACCOUNTS)?;
    let waiting = waiting(alloc, &APART)?;
    if waiting.len() > 10_000 {
        return Err(Fail::new("a list has at most 10,000 requests"));
    }
    let (tables, _lates) = rerun(&rt, alloc, &catalog, tables, &waiting, 2, &gate)?;
    let left = rows_words(alloc, &tables.rows()?)?;
    let wanted = "1 = 11; 2 = 21; 3 = 31; 4 = 41; 5 = 51; 6 = 61; 7 = 71; 8 = 81; ";
    same(&rt, 2, false, &left, wanted);
    met(&rt, &gate);
    Ok(())
}

/// Whether the requests have the waves 1, 2, 3 and so on.
fn in_turn(alloc: Global, waiting: &[Waiting]) -> Result<bool, Memory>
    requires { length waiting.now ≤ MOST_REQUESTS }
{
    let waves = waves(alloc, waiting)?;
    Ok(
        waves
            .iter()
            .enumerate()
            .all(|(at, wave)| at.wrapping_add(1) == *wave as usize),
    )
}

/// The accounts, and what became of the last request, in words.
fn left_and_last(alloc: Global, tables: &Tables, lates: &[Late]) -> Result<String, Memory> {
    let mut words = rows_words(alloc, &tables.rows()?)?;
    if let Some(late) = lates.last() {
        words.push_str(&late_words(alloc, late)?)?;
    }
    Ok(words)
}

#[test]
fn ten_thousand_on_one_account_run_one_by_one(rt: HostRuntime) -> Result<(), Fail> {
    let alloc = rt.alloc();
    let catalog = catalog(alloc)?;
    let waiting = crowd(alloc, 10_000)?;
    if waiting.len() > 10_000 {
        return Err(Fail::new("a list has at most 10,000 requests"));
    }
    assert!(rt; in_turn(alloc, &waiting)?, "waves 1 to 10,000");
    let tables = tables(alloc, &[(1, 10)])?;
    let (tables, lates) = rerun(&rt, alloc, &catalog, tables, &waiting, 4, &Free)?;
    let left = left_and_last(alloc, &tables, &lates)?;
    same(&rt, 4, false, &left, "1 = 10010; done 10010");
    Ok(())
}
