// Runs of a routine in place.
use crate::databases::MEMORY;
use aria_base::{Duplicate, Items, Key, Row, Value};
use proc_lang::{End, Trap};
use range_rules::{Action, MOST_ACTIONS, Nums, Pairs, Prefix, Routine, RoutineCall, Seen};
use std::alloc::Global;
use std::process::Abort;
use tbl_rows::Tables;
use tpcc_routines::More;

/// How a run is to end.
#[derive(Clone, Copy, Debug)]
pub enum Wanted {
    /// It gives these numbers.
    Gives(&'static [i64]),
    /// It gives so many values.
    Many(usize),
    /// It fails with this code.
    Fails(u16),
    /// It traps.
    Traps(Trap),
}

/// A call of a routine.
pub fn call(rt: &impl Abort, alloc: Global, kind: u16, numbers: &[i64]) -> RoutineCall {
    RoutineCall {
        kind,
        nums: Nums::from_vec(numbers.to_vec(alloc).expect(rt, MEMORY)),
    }
}

/// Whether the key is under the prefix.
fn is_under(prefix: &Prefix, key: &Key) -> bool {
    let front = prefix.parts.as_slice();
    let parts = key.parts.as_slice();
    key.table == prefix.table && parts.len() >= front.len() && front == &parts[..front.len()]
}

/// The rows under the prefix.
fn scan(rt: &impl Abort, alloc: Global, tables: &Tables, prefix: &Prefix) -> Pairs {
    let mut found = Vec::new(alloc);
    let rows = tables.rows().expect(rt, MEMORY);
    for (key, row) in &rows {
        if is_under(prefix, key) {
            let pair = copied(rt, alloc, key, row);
            found.push(pair).expect(rt, MEMORY);
        }
    }
    Items::from_vec(found)
}

/// A copy of the key and the row.
fn copied(rt: &impl Abort, alloc: Global, key: &Key, row: &Row) -> (Key, Row) {
    let key = key.duplicate(alloc).expect(rt, MEMORY);
    let row = row.duplicate(alloc).expect(rt, MEMORY);
    (key, row)
}

/// A copy of the row, if there is one.
fn copied_row(rt: &impl Abort, alloc: Global, row: Option<&Row>) -> Option<Row> {
    match row {
        Some(row) => Some(row.duplicate(alloc).expect(rt, MEMORY)),
        None => None,
    }
}

/// Puts the row, or deletes what stands there.
fn set(rt: &impl Abort, tables: &mut Tables, key: Key, row: Option<Row>) {
    match row {
        Some(row) => tables.put(key, row).expect(rt, MEMORY),
        None => {
            let _there = tables.delete(&key);
        }
    }
}

/// Does what the routine asks for, and answers it, or how it stops.
fn perform(
    rt: &impl Abort,
    alloc: Global,
    tables: &mut Tables,
    action: Action,
) -> Result<Seen, End> {
    match action {
        Action::Read(key) => Ok(Seen::One(copied_row(rt, alloc, tables.get(&key)))),
        Action::Write(key, row) => {
            set(rt, tables, key, row);
            Ok(Seen::Wrote)
        }
        Action::Scan(prefix) => Ok(Seen::Many(scan(rt, alloc, tables, &prefix))),
        Action::Stop(end) => Err(end),
    }
}

/// The end of a run in place. Of a run that is not done the writes stay, which no batch would let stay.
pub fn run(rt: &impl Abort, alloc: Global, tables: &mut Tables, kind: u16, numbers: &[i64]) -> End {
    let call = call(rt, alloc, kind, numbers);
    let mut seen = Vec::new(alloc);
    for _ in 0..MOST_ACTIONS {
        let action = More.next(alloc, 1, &call, &seen).expect(rt, MEMORY);
        match perform(rt, alloc, tables, action) {
            Ok(answer) => seen.push(answer).expect(rt, MEMORY),
            Err(end) => return end,
        }
    }
    End::Trap(Trap::Many)
}

/// Whether the end is the one that is wanted.
pub fn is_wanted(end: &End, wanted: &Wanted) -> bool {
    match (end, wanted) {
        (End::Done(given), Wanted::Gives(numbers)) => are(given.as_slice(), numbers),
        (End::Done(given), Wanted::Many(count)) => given.as_slice().len() == *count,
        (End::Back(code), Wanted::Fails(other)) => code == other,
        (End::Trap(trap), Wanted::Traps(other)) => trap == other,
        _ => false,
    }
}

/// Whether the values are these numbers.
fn are(values: &[Value], numbers: &[i64]) -> bool {
    if values.len() != numbers.len() {
        return false;
    }
    for (value, number) in values.iter().zip(numbers) {
        if *value != Value::Int(*number) {
            return false;
        }
    }
    true
}
