// Lists of events, legal ones and others.
use crate::machines::{Said, amounts, machine};
use aria_base::{Draws, Memory};
use core_machine::Event::{Decide, Execute, Install, MarkRead, MarkWrite, Turn};
use core_machine::{Core, CoreRefused, Event, run};
use dep_rules::{Cause, Rule, Verdict};
use std::alloc::Global;
use std::process::Abort;
use std::test::Fail;

/// Three copies in a ring: the second reads what the first writes, and the third both reads what the
/// second writes and writes what the first reads.
const RING: [Said; 3] = [("copy", &[1, 2]), ("copy", &[2, 3]), ("copy", &[3, 1])];

/// The ring's events in two orders.
const ORDERS: [[Event; 18]; 2] = [
    [
        Execute(3),
        Execute(1),
        Execute(2),
        Turn,
        MarkRead(1, 0),
        MarkWrite(1, 0),
        MarkRead(2, 0),
        MarkWrite(2, 0),
        MarkRead(3, 0),
        MarkWrite(3, 0),
        Turn,
        Decide(1),
        Decide(2),
        Decide(3),
        Turn,
        Install(2, 0),
        Install(1, 0),
        Turn,
    ],
    [
        Execute(1),
        Execute(2),
        Execute(3),
        Turn,
        MarkWrite(3, 0),
        MarkWrite(2, 0),
        MarkRead(3, 0),
        MarkRead(1, 0),
        MarkWrite(1, 0),
        MarkRead(2, 0),
        Turn,
        Decide(3),
        Decide(1),
        Decide(2),
        Turn,
        Install(1, 0),
        Install(2, 0),
        Turn,
    ],
];

/// Asserts that this holds of these events. An assertion in place costs its function several seconds of proof, a
/// generic one more, and a call of this one next to none.
fn holds(rt: &impl Abort, what: &str, events: &[Event], found: bool) {
    assert!(rt; found, "{what} at {events:?}");
}

/// Whether the machine has settled by these verdicts, and the accounts have these amounts.
fn is_settled(
    alloc: Global,
    core: &Core,
    verdicts: &[Verdict],
    rows: &[(i64, i64)],
) -> Result<bool, Memory> {
    let left = amounts(alloc, core.tables())?;
    Ok(core.settled() && core.verdicts() == verdicts && left.as_slice() == rows)
}

/// Asserts that these calls settle so by these events.
fn settles(
    rt: &impl Abort,
    alloc: Global,
    calls: &[Said],
    events: &[Event],
    verdicts: &[Verdict],
    rows: &[(i64, i64)],
) -> Result<(), Fail> {
    let core = run(alloc, machine(alloc, calls, Rule::Reorder)?, events)?;
    let right = is_settled(alloc, &core, verdicts, rows)?;
    holds(rt, "the batch settles", events, right);
    Ok(())
}

#[test]
fn the_ring_settles_alike_in_two_orders(rt: HostRuntime) -> Result<(), Fail> {
    let verdicts = [
        Verdict::Finish { raw: false },
        Verdict::Finish { raw: true },
        Verdict::Wait(Cause::Both(2, 1)),
    ];
    let rows = [(1, 10), (2, 10), (3, 20)];
    for events in &ORDERS {
        settles(&rt, rt.alloc(), &RING, events, &verdicts, &rows)?;
    }
    Ok(())
}

/// Events that end in one that is not due, where those before it are. The last one would install a row of
/// the third request, which waits.
const NOT_DUE: [(&[Event], usize); 10] = [
    (&[Turn], 0),
    (&[Execute(0)], 0),
    (&[Execute(4)], 0),
    (&[MarkRead(1, 0)], 0),
    (&[Execute(1), Execute(1)], 1),
    (&[Execute(1), Execute(2), Turn], 2),
    (
        &[Execute(1), Execute(2), Execute(3), Turn, MarkRead(1, 1)],
        4,
    ),
    (
        &[
            Execute(1),
            Execute(2),
            Execute(3),
            Turn,
            MarkRead(1, 0),
            Decide(1),
        ],
        5,
    ),
    (
        &[
            Execute(1),
            Execute(2),
            Execute(3),
            Turn,
            MarkRead(1, 0),
            MarkRead(1, 0),
            Turn,
        ],
        5,
    ),
    (
        &[
            Execute(1),
            Execute(2),
            Execute(3),
            Turn,
            MarkRead(1, 0),
            MarkRead(2, 0),
            MarkRead(3, 0),
            MarkWrite(1, 0),
            MarkWrite(2, 0),
            MarkWrite(3, 0),
            Turn,
            Decide(1),
            Decide(2),
            Decide(3),
            Turn,
            Install(3, 0),
        ],
        15,
    ),
];

/// Whether a run ends in the event at this place, which is not due.
fn is_not_due(alloc: Global, core: Core, events: &[Event], place: usize) -> Result<bool, Memory> {
    match run(alloc, core, events) {
        Ok(_) => Ok(false),
        Err(CoreRefused::NotDue { at }) => Ok(at == place),
        Err(CoreRefused::Memory) => Err(Memory),
    }
}

/// Asserts that the ring ends in the event at this place.
fn ring_ends(rt: &impl Abort, alloc: Global, events: &[Event], place: usize) -> Result<(), Fail> {
    let core = machine(alloc, &RING, Rule::Reorder)?;
    let right = is_not_due(alloc, core, events, place)?;
    holds(rt, "the event is named", events, right);
    Ok(())
}

#[test]
fn the_first_event_that_is_not_due_is_named(rt: HostRuntime) -> Result<(), Fail> {
    for (events, at) in NOT_DUE {
        ring_ends(&rt, rt.alloc(), events, at)?;
    }
    Ok(())
}

#[test]
fn a_turn_too_many_is_not_due(rt: HostRuntime) -> Result<(), Fail> {
    let alloc = rt.alloc();
    for order in &ORDERS {
        let mut events = Vec::from_slice(alloc, order)?;
        events.push(Turn)?;
        ring_ends(&rt, alloc, &events, 18)?;
    }
    Ok(())
}

/// Turns, and whether a batch without requests has settled by them.
const TURNS: [(&[Event], bool); 2] = [
    (&[Turn, Turn, Turn], false),
    (&[Turn, Turn, Turn, Turn], true),
];

#[test]
fn a_batch_without_requests_settles_by_four_turns(rt: HostRuntime) -> Result<(), Fail> {
    let alloc = rt.alloc();
    for (turns, wanted) in TURNS {
        let core = run(alloc, machine(alloc, &[], Rule::Plain)?, turns)?;
        holds(&rt, "it settles or not", turns, core.settled() == wanted);
    }
    Ok(())
}

/// Twelve requests, of which four read past an earlier one and three overwrite what an earlier one writes.
const TWELVE: [Said; 12] = [
    ("add", &[1, 5]),
    ("set", &[2, 7]),
    ("add", &[2, 1]),
    ("copy", &[3, 4]),
    ("sum", &[1, 2]),
    ("set", &[5, 50]),
    ("set", &[5, 51]),
    ("copy", &[5, 6]),
    ("drop", &[3]),
    ("set", &[3, 9]),
    ("sum", &[3, 4]),
    ("hop", &[3, 1]),
];

/// What is decided of them by the rule that reorders, and what the accounts have after them.
const DECIDED: [Verdict; 12] = [
    Verdict::Finish { raw: false },
    Verdict::Finish { raw: false },
    Verdict::Wait(Cause::Waw(2)),
    Verdict::Finish { raw: false },
    Verdict::Finish { raw: true },
    Verdict::Finish { raw: false },
    Verdict::Wait(Cause::Waw(6)),
    Verdict::Finish { raw: true },
    Verdict::Finish { raw: false },
    Verdict::Wait(Cause::Waw(9)),
    Verdict::Finish { raw: true },
    Verdict::Finish { raw: true },
];

const AFTER: [(i64, i64); 5] = [(1, 15), (2, 7), (4, 30), (5, 50), (30, 1)];

/// Their marks: the eighth finds no account 5 and fails, so that it writes nothing.
const MARKS: [Event; 18] = [
    MarkRead(1, 0),
    MarkWrite(1, 0),
    MarkWrite(2, 0),
    MarkRead(3, 0),
    MarkWrite(3, 0),
    MarkRead(4, 0),
    MarkWrite(4, 0),
    MarkRead(5, 0),
    MarkRead(5, 1),
    MarkWrite(6, 0),
    MarkWrite(7, 0),
    MarkRead(8, 0),
    MarkWrite(9, 0),
    MarkWrite(10, 0),
    MarkRead(11, 0),
    MarkRead(11, 1),
    MarkRead(12, 0),
    MarkWrite(12, 0),
];

const INSTALLS: [Event; 6] = [
    Install(1, 0),
    Install(2, 0),
    Install(4, 0),
    Install(6, 0),
    Install(9, 0),
    Install(12, 0),
];

const RUNS: [Event; 12] = [
    Execute(1),
    Execute(2),
    Execute(3),
    Execute(4),
    Execute(5),
    Execute(6),
    Execute(7),
    Execute(8),
    Execute(9),
    Execute(10),
    Execute(11),
    Execute(12),
];

const DECISIONS: [Event; 12] = [
    Decide(1),
    Decide(2),
    Decide(3),
    Decide(4),
    Decide(5),
    Decide(6),
    Decide(7),
    Decide(8),
    Decide(9),
    Decide(10),
    Decide(11),
    Decide(12),
];

/// The events in an order that is drawn, and a turn behind them.
fn add_shuffled(
    alloc: Global,
    draws: &mut Draws,
    events: &[Event],
    all: &mut Vec<Event>,
) -> Result<(), Memory> {
    let mut drawn = Vec::new(alloc);
    for event in events {
        let place = draws.word() as usize % (drawn.len() + 1);
        drawn.insert(place, *event)?;
    }
    all.append(&mut drawn)?;
    all.push(Turn)?;
    Ok(())
}

/// A legal list of the events of the twelve.
fn drawn(alloc: Global, draws: &mut Draws) -> Result<Vec<Event>, Memory> {
    let mut events = Vec::new(alloc);
    add_shuffled(alloc, draws, &RUNS, &mut events)?;
    add_shuffled(alloc, draws, &MARKS, &mut events)?;
    add_shuffled(alloc, draws, &DECISIONS, &mut events)?;
    add_shuffled(alloc, draws, &INSTALLS, &mut events)?;
    Ok(events)
}

#[test]
fn ten_drawn_orders_of_twelve_requests_settle_alike(rt: HostRuntime) -> Result<(), Fail> {
    let alloc = rt.alloc();
    let mut draws = Draws::of(1, 0);
    for _ in 0..10 {
        let events = drawn(alloc, &mut draws)?;
        settles(&rt, alloc, &TWELVE, &events, &DECIDED, &AFTER)?;
    }
    Ok(())
}
