// Tests as steps on a database.
use crate::databases::{Line, MEMORY, key, put, put_customer, row, sold};
use crate::runs::{Wanted, is_wanted, run};
use std::alloc::Global;
use std::process::Abort;
use tbl_rows::Tables;
use tpcc_routines::{Soundness, first_failure};

/// What a test does next.
#[derive(Clone, Copy, Debug)]
pub enum Step {
    /// Puts a row of numbers.
    Put(Line),
    /// Puts a customer of this number, with this balance.
    Customer(i64, i64),
    /// Puts so many lines of order 2, each of amount 5.
    Lines(u32),
    /// Deletes the row of this table at this key.
    Delete(u16, &'static [i64]),
    /// Calls a routine with these numbers, which is to end so.
    Call(u16, &'static [i64], Wanted),
    /// Looks for failures, and is to find this condition in the one district, or none where it is 0.
    Finds(u8),
}

/// Asserts that this holds. An assertion in place costs its function several seconds of proof, and a call of this one next to none.
pub fn holds(rt: &impl Abort, what: &str, at: usize, found: bool) {
    assert!(rt; found, "{what} at {at}");
}

/// The tables of one sold order, after these steps.
pub fn after(rt: &impl Abort, alloc: Global, steps: &[Step]) -> Tables {
    let mut tables = sold(rt, alloc);
    for (at, step) in steps.iter().enumerate() {
        go(rt, alloc, &mut tables, step, at);
    }
    tables
}

/// Does one step.
fn go(rt: &impl Abort, alloc: Global, tables: &mut Tables, step: &Step, at: usize) {
    match step {
        Step::Put(line) => put(rt, alloc, tables, line),
        Step::Customer(c, balance) => put_customer(rt, alloc, tables, *c, *balance),
        Step::Lines(count) => put_lines(rt, alloc, tables, *count),
        Step::Delete(table, parts) => delete(rt, alloc, tables, *table, parts, at),
        Step::Call(kind, numbers, wanted) => {
            let end = run(rt, alloc, tables, *kind, numbers);
            holds(rt, "the end", at, is_wanted(&end, wanted));
        }
        Step::Finds(condition) => finds(rt, alloc, tables, *condition, at),
    }
}

/// Puts lines of order 2.
fn put_lines(rt: &impl Abort, alloc: Global, tables: &mut Tables, count: u32) {
    for line in 0..count {
        let key = key(rt, alloc, 6, &[1, 1, 2, i64::from(line) + 1]);
        let row = row(rt, alloc, &[1, 1, 0, 5, 5]);
        tables.put(key, row).expect(rt, MEMORY);
    }
}

/// Deletes a row, which is to be there.
fn delete(
    rt: &impl Abort,
    alloc: Global,
    tables: &mut Tables,
    table: u16,
    parts: &[i64],
    at: usize,
) {
    let there = tables.delete(&key(rt, alloc, table, parts));
    holds(rt, "a row to delete", at, there);
}

/// Asserts what fails first, in district 1 of warehouse 1.
fn finds(rt: &impl Abort, alloc: Global, tables: &Tables, condition: u8, at: usize) {
    let found = first_failure(alloc, tables).expect(rt, MEMORY);
    let wanted = if condition == 0 {
        Soundness::Sound
    } else {
        Soundness::Fails {
            condition,
            w: 1,
            d: 1,
        }
    };
    holds(rt, "the finding", at, found == wanted);
}

/// Asserts that two tables have the same rows.
pub fn same_rows(rt: &impl Abort, found: &Tables, wanted: &Tables) {
    let found = found.rows().expect(rt, MEMORY);
    let wanted = wanted.rows().expect(rt, MEMORY);
    holds(rt, "the rows", found.len(), found == wanted);
}
