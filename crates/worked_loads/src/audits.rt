// Audits of databases of a few rows. What is wanted was worked out by hand.
use aria_base::{Key, Memory, Part, Parts, Row, Value};
use std::alloc::Global;
use std::fmt::Debug;
use std::process::Abort;
use std::test::Fail;
use tbl_rows::Tables;
use tpcc_audit::{Audit, audit};
use tpcc_load::{Tpcc, head};

/// A row: its table, the parts of its key, and its columns.
type Line = (u16, &'static [i64], &'static [i64]);

/// A database that agrees: one district, which had one order of one line that is still open, and one
/// payment.
const AGREES: [Line; 7] = [
    (0, &[1], &[500, 32_500]),
    (1, &[1, 1], &[700, 32_500, 3]),
    (4, &[1, 1, 2], &[]),
    (5, &[1, 1, 2], &[1, 0, 0, 1, 1]),
    (6, &[1, 1, 2, 1], &[1, 1, 0, 5, 5_000]),
    (7, &[1], &[1_000, 1]),
    (8, &[1, 1], &[100, 5, 1, 0, 1]),
];

/// What is put into that database, in the place of what stands at its key, and what is then found.
const CHANGES: [(Line, Found); 9] = [
    ((7, &[1], &[2_000, 0]), None),
    ((0, &[1], &[500, 32_501]), Some((1, 1, 0, 32_500, 32_501))),
    ((1, &[1, 2], &[0, 7, 1]), Some((1, 1, 0, 32_507, 32_500))),
    ((1, &[1, 1], &[700, 32_500, 4]), Some((2, 1, 1, 3, 2))),
    ((4, &[1, 1, 3], &[]), Some((2, 1, 1, 2, 3))),
    ((5, &[1, 1, 5], &[1, 0, 3, 0, 1]), Some((2, 1, 1, 2, 5))),
    ((4, &[1, 1, -1], &[]), Some((3, 1, 1, 4, 2))),
    ((5, &[1, 1, 2], &[1, 0, 0, 2, 1]), Some((4, 1, 1, 2, 1))),
    ((6, &[1, 1, 2, 2], &[1, 1, 0, 5, 1]), Some((4, 1, 1, 1, 2))),
];

/// Two warehouses whose districts were paid more than a number of 64 bits holds. The second one's
/// district has had no order, though its next one is to be the third.
const LARGE: [Line; 5] = [
    (0, &[1], &[0, 5]),
    (0, &[2], &[0, i64::MIN]),
    (1, &[1, 1], &[0, i64::MAX, 1]),
    (1, &[1, 2], &[0, i64::MAX, 1]),
    (1, &[2, 1], &[0, i64::MIN, 3]),
];

/// No rows.
const NONE: [Line; 0] = [];

/// Both warehouses were paid what their districts were.
const PAID: [Line; 2] = [(1, &[1, 1], &[0, 0, 1]), (1, &[1, 2], &[0, 5, 1])];

/// Each district has the orders that it is to have. One has open orders with a gap, and one before it has a
/// line too many.
const ORDERED: [Line; 6] = [
    (1, &[1, 2], &[0, 5, 3]),
    (5, &[1, 2, 2], &[1, 0, 0, 0, 1]),
    (5, &[2, 1, 2], &[1, 0, 0, 3, 1]),
    (4, &[1, 2, 0], &[]),
    (4, &[1, 2, 2], &[]),
    (6, &[1, 1, 1, 1], &[1, 1, 0, 5, 1]),
];

/// The gap is closed.
const CLOSED: [Line; 1] = [(4, &[1, 2, 1], &[])];

/// What is put into the database behind what was put before, and what is then found.
const STEPS: [(&[Line], Found); 4] = [
    (&NONE, Some((1, 1, 0, 18_446_744_073_709_551_614, 5))),
    (&PAID, Some((2, 2, 1, 2, 0))),
    (&ORDERED, Some((3, 1, 2, 3, 2))),
    (&CLOSED, Some((4, 1, 1, 0, 1))),
];

/// What is to be found: nothing, or the condition, the warehouse, the district, what is wanted and what
/// is found.
type Found = Option<(u8, i64, i64, i128, i128)>;

/// The finding of an audit of the tables.
fn found(alloc: Global, tables: &Tables) -> Result<Found, Memory> {
    match audit(alloc, tables)? {
        Audit::Holds => Ok(None),
        Audit::Fails {
            condition,
            w,
            d,
            wanted,
            found,
        } => Ok(Some((condition, w, d, wanted, found))),
    }
}

/// Puts a row.
fn put(alloc: Global, tables: &mut Tables, line: &Line) -> Result<(), Memory> {
    let mut parts = Vec::new(alloc);
    for number in line.1 {
        parts.push(Part::Int(*number))?;
    }
    if parts.is_empty() || parts.len() > 5 {
        return Ok(());
    }
    let mut columns = Vec::new(alloc);
    for number in line.2 {
        columns.push(Value::Int(*number))?;
    }
    if columns.len() > 16 {
        return Ok(());
    }
    let key = Key {
        table: line.0,
        parts: Parts::from_vec(parts),
    };
    tables.put(key, Row::from_vec(columns))?;
    Ok(())
}

/// Puts these rows.
fn put_all(alloc: Global, tables: &mut Tables, lines: &[Line]) -> Result<(), Memory> {
    for line in lines {
        put(alloc, tables, line)?;
    }
    Ok(())
}

/// The tables of these rows.
fn tables_of(alloc: Global, lines: &[Line]) -> Result<Tables, Memory> {
    let mut tables = Tables::new(alloc)?;
    put_all(alloc, &mut tables, lines)?;
    Ok(tables)
}

/// Asserts what is found in the tables.
fn finds(
    rt: &impl Abort,
    alloc: Global,
    case: &impl Debug,
    tables: &Tables,
    wanted: &Found,
) -> Result<(), Memory> {
    let found = found(alloc, tables)?;
    assert_eq!(rt; &found, wanted, "at {case:?}");
    Ok(())
}

#[test]
fn a_database_that_agrees_holds(rt: HostRuntime) -> Result<(), Fail> {
    let alloc = rt.alloc();
    finds(&rt, alloc, &"no rows", &tables_of(alloc, &NONE)?, &None)?;
    finds(&rt, alloc, &"agrees", &tables_of(alloc, &AGREES)?, &None)?;
    Ok(())
}

#[test]
fn each_changed_number_is_found(rt: HostRuntime) -> Result<(), Fail> {
    let alloc = rt.alloc();
    for (line, wanted) in &CHANGES {
        let mut tables = tables_of(alloc, &AGREES)?;
        put(alloc, &mut tables, line)?;
        finds(&rt, alloc, line, &tables, wanted)?;
    }
    Ok(())
}

#[test]
fn the_least_condition_comes_first(rt: HostRuntime) -> Result<(), Fail> {
    let alloc = rt.alloc();
    let mut tables = tables_of(alloc, &LARGE)?;
    for (lines, wanted) in &STEPS {
        put_all(alloc, &mut tables, lines)?;
        finds(&rt, alloc, lines, &tables, wanted)?;
    }
    Ok(())
}

/// The least workload has 30 customers in each district, so that its orders 22 to 30 are open. One more
/// open order leaves a gap before them.
#[test]
fn what_is_loaded_holds(rt: HostRuntime) -> Result<(), Fail> {
    let alloc = rt.alloc();
    let settings = Tpcc {
        number: 1,
        warehouses: 1,
        customers: 30,
        items: 100,
    };
    let (_, mut tables) = head(alloc, &settings)?;
    finds(&rt, alloc, &"loaded", &tables, &None)?;
    put(alloc, &mut tables, &(4, &[1, 10, 20], &[]))?;
    let gap = Some((3, 1, 10, 11, 10));
    finds(&rt, alloc, &"with a gap", &tables, &gap)?;
    Ok(())
}
