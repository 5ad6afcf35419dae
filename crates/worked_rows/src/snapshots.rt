// What no clause shows: that each call succeeds where there is memory, and that the two lists of an
// overlay are what was meant. The expected values were worked by hand.
use aria_base::{Changes, Key, Keys, Memory, Part, Parts, Row, Value};
use proc_lang::Access;
use std::alloc::Global;
use std::test::Fail;
use std::thread;
use tbl_rows::Tables;
use tbl_snapshot::{Overlay, Snapshot};

// What a run does at a key.
#[derive(Clone, Copy)]
enum Step {
    Read,
    Put(i64),
    Delete,
}

// A run over the rows 1, 2 and 3: at which key it does what, and what a read finds.
const RUN: &[(i64, Step, Option<i64>)] = &[
    (3, Step::Read, Some(30)),
    (1, Step::Put(11), None),
    (2, Step::Delete, None),
    (9, Step::Put(90), None),
    (7, Step::Delete, None),
    (1, Step::Put(12), None),
    (1, Step::Read, Some(12)),
    (2, Step::Read, None),
    (9, Step::Read, Some(90)),
    (8, Step::Read, None),
    (7, Step::Read, None),
    (3, Step::Read, Some(30)),
    (3, Step::Delete, None),
];

fn key(alloc: Global, number: i64) -> Result<Key, Memory> {
    let mut parts = Vec::new(alloc);
    parts.push(Part::Int(number))?;
    let parts = Parts::from_vec(parts);
    Ok(Key { table: 0, parts })
}

fn row(alloc: Global, number: i64) -> Result<Row, Memory> {
    let mut values = Vec::new(alloc);
    values.push(Value::Int(number))?;
    Ok(Row::from_vec(values))
}

// The number that a row of one number holds.
fn number_in(row: Option<&Row>) -> Option<i64> {
    match row?.as_slice() {
        [Value::Int(number)] => Some(*number),
        _ => None,
    }
}

fn keys(alloc: Global, numbers: &[i64]) -> Result<Keys, Memory> {
    let mut keys = Vec::new(alloc);
    for &number in numbers {
        keys.push(key(alloc, number)?)?;
    }
    Ok(Keys::from_vec(keys))
}

fn change(alloc: Global, number: i64, to: Option<i64>) -> Result<(Key, Option<Row>), Memory> {
    let key = key(alloc, number)?;
    match to {
        Some(to) => Ok((key, Some(row(alloc, to)?))),
        None => Ok((key, None)),
    }
}

fn changes(alloc: Global, rows: &[(i64, Option<i64>)]) -> Result<Changes, Memory> {
    let mut changes = Vec::new(alloc);
    for &(number, to) in rows {
        changes.push(change(alloc, number, to)?)?;
    }
    Ok(Changes::from_vec(changes))
}

// The rows 1, 2 and 3, each with ten times its number.
fn three(alloc: Global) -> Result<Tables, Memory> {
    let mut tables = Tables::new(alloc)?;
    for number in 1..4_i64 {
        let tenfold = row(alloc, number.saturating_mul(10))?;
        tables.put(key(alloc, number)?, tenfold)?;
    }
    Ok(tables)
}

fn read<A: Access>(alloc: Global, access: &mut A, number: i64) -> Result<Option<i64>, Memory> {
    let found = access.read(&key(alloc, number)?)?;
    Ok(number_in(found.as_ref()))
}

fn write<A: Access>(
    alloc: Global,
    access: &mut A,
    number: i64,
    to: Option<i64>,
) -> Result<Option<i64>, Memory> {
    let (key, row) = change(alloc, number, to)?;
    access.write(key, row)?;
    Ok(None)
}

// What a read finds; a write finds nothing.
fn perform<A: Access>(
    alloc: Global,
    access: &mut A,
    number: i64,
    step: Step,
) -> Result<Option<i64>, Memory> {
    match step {
        Step::Read => read(alloc, access, number),
        Step::Put(to) => write(alloc, access, number, Some(to)),
        Step::Delete => write(alloc, access, number, None),
    }
}

#[test]
fn an_overlay_answers_from_its_writes_first(rt: HostRuntime) -> Result<(), Fail> {
    let alloc = rt.alloc();
    let tables = three(alloc)?;
    let mut overlay = Overlay::over(alloc, Snapshot::of(&tables));
    for &(number, step, wanted) in RUN {
        let found = perform(alloc, &mut overlay, number, step)?;
        assert!(rt; found == wanted, "at {number}");
    }
    let (reads, writes) = overlay.parts();
    assert!(rt;
        reads == keys(alloc, &[3, 8])?,
        "in the order of first reads"
    );
    let wanted = changes(
        alloc,
        &[
            (1, Some(12)),
            (2, None),
            (9, Some(90)),
            (7, None),
            (3, None),
        ],
    )?;
    assert!(rt; writes == wanted, "in the order of first writes");
    Ok(())
}

// What a snapshot finds at a key.
fn found_in(alloc: Global, snapshot: Snapshot, number: i64) -> Result<Option<i64>, Memory> {
    let key = key(alloc, number)?;
    Ok(number_in(snapshot.get(&key)))
}

#[test]
fn a_snapshot_gives_the_rows_of_its_tables(rt: HostRuntime) -> Result<(), Fail> {
    let alloc = rt.alloc();
    let tables = three(alloc)?;
    let snapshot = Snapshot::of(&tables);
    assert!(rt; found_in(alloc, snapshot.copy(), 0)? == None);
    assert!(rt; found_in(alloc, snapshot, 3)? == Some(30));
    Ok(())
}

// What is found at 2 before it is written, and after.
fn read_and_write(
    alloc: Global,
    snapshot: Snapshot,
    to: i64,
) -> Result<(Option<i64>, Option<i64>), Memory> {
    let mut overlay = Overlay::over(alloc, snapshot);
    let before = read(alloc, &mut overlay, 2)?;
    write(alloc, &mut overlay, 2, Some(to))?;
    let after = read(alloc, &mut overlay, 2)?;
    Ok((before, after))
}

#[test]
fn workers_share_a_snapshot(rt: HostRuntime) -> Result<(), Fail> {
    let alloc = rt.alloc();
    let tables = three(alloc)?;
    let snapshot = Snapshot::of(&tables);
    let written = [50, 51, 52, 53_i64];
    let found = thread::map_indices(
        &rt,
        alloc,
        4,
        &|at| { read_and_write(alloc, snapshot.copy(), written[at]) },
    )?;
    for (found, to) in found.into_iter().zip(&written) {
        assert_eq!(rt; found?, (Some(20), Some(*to)));
    }
    Ok(())
}
