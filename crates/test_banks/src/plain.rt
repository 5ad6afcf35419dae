// The rules of a batch in their plainest form: one list, one worker, no numbers and no words.
use aria_base::{Call, Changes, Duplicate, Items, Keys, MOST_REQUESTS, Memory, Request};
use batch_core::{Answer, Line, Reply, Wait};
use batch_rules::verdicts::{Cause, Rule, Verdict};
use dep_rules::{Config, Sets, decide_listed};
use exec_phase::{execute, execute_within};
use proc_exec::{Declared, Outcome, Within};
use proc_lang::Catalog;
use std::alloc::Global;
use tbl_rows::Tables;
use tbl_snapshot::Snapshot;

/// A database between two batches.
#[derive(Drop)]
pub struct Plain {
    pub tables: Tables,
    pub waiting: Vec<Request>,
    pub batches: u64,
    pub requests: u64,
}

impl Plain {
    /// One with these rows, before its first batch.
    pub fn begin(alloc: Global, tables: Tables) -> Plain {
        Plain {
            tables,
            waiting: Vec::new(alloc),
            batches: 0,
            requests: 0,
        }
    }
}

/// What is said of a batch so far.
#[derive(Drop)]
struct Told {
    lines: Vec<Line>,
    /// Those that finish and read past an earlier write.
    past: Vec<u64>,
    /// The others that the rule lets finish.
    others: Vec<u64>,
    /// Those that finish when they are run again.
    late: Vec<u64>,
}

/// Runs the next batch. There is none where its list has more than 10,000 requests.
pub fn run_plainly(
    alloc: Global,
    catalog: &Catalog,
    plain: Plain,
    calls: Vec<Call>,
    config: &Config,
) -> Result<Option<(Plain, Answer)>, Memory> {
    let Plain {
        mut tables,
        waiting,
        batches,
        requests,
    } = plain;
    let number = batches.wrapping_add(1);
    let total = requests.wrapping_add(calls.len() as u64);
    let list = number_calls(waiting, calls, requests)?;
    let outcomes = execute_all(alloc, catalog, &list, &tables)?;
    let sets = sets_of(alloc, &outcomes)?;
    let Some(verdicts) = decide_all(alloc, &sets, config.rule)? else {
        return Ok(None);
    };
    let mut told = settle(alloc, &list, outcomes, &verdicts, &mut tables)?;
    if is_due(&told.lines, config.fallback) {
        run_late(alloc, catalog, &mut tables, &mut told, &list, sets)?;
    }
    let plain = Plain {
        tables,
        waiting: still_waiting(alloc, list, &told.lines)?,
        batches: number,
        requests: total,
    };
    Ok(Some((plain, answer_of(number, told)?)))
}

/// What waits, then the new calls with the next request numbers.
fn number_calls(
    waiting: Vec<Request>,
    calls: Vec<Call>,
    requests: u64,
) -> Result<Vec<Request>, Memory> {
    let mut list = waiting;
    let mut q = requests;
    for call in calls {
        q = q.wrapping_add(1);
        list.push(Request { q, call })?;
    }
    Ok(list)
}

/// What each request comes to on these tables.
fn execute_all(
    alloc: Global,
    catalog: &Catalog,
    list: &[Request],
    tables: &Tables,
) -> Result<Vec<Outcome>, Memory> {
    let mut outcomes = Vec::new(alloc);
    for request in list {
        outcomes.push(execute(alloc, catalog, request, Snapshot::of(tables))?)?;
    }
    Ok(outcomes)
}

fn keys_of(alloc: Global, changes: &Changes) -> Result<Keys, Memory> {
    let mut keys = Vec::new(alloc);
    for change in changes.as_slice() {
        keys.push(change.0.duplicate(alloc)?)?;
    }
    Ok(Items::from_vec(keys))
}

/// The keys that each request read and wrote.
fn sets_of(alloc: Global, outcomes: &[Outcome]) -> Result<Vec<Sets>, Memory> {
    let mut sets = Vec::new(alloc);
    for outcome in outcomes {
        sets.push(Sets {
            reads: outcome.reads.duplicate(alloc)?,
            writes: keys_of(alloc, &outcome.writes)?,
        })?;
    }
    Ok(sets)
}

/// The verdict on each request, where there are no more than a batch has.
fn decide_all(alloc: Global, sets: &[Sets], rule: Rule) -> Result<Option<Vec<Verdict>>, Memory> {
    if sets.len() > MOST_REQUESTS {
        return Ok(None);
    }
    let mut verdicts = Vec::new(alloc);
    for place in 0..sets.len() as u32 {
        verdicts.push(decide_listed(sets, place + 1, rule))?;
    }
    Ok(Some(verdicts))
}

/// The line of each request that has a verdict. What finishes is installed.
fn settle(
    alloc: Global,
    list: &[Request],
    outcomes: Vec<Outcome>,
    verdicts: &[Verdict],
    tables: &mut Tables,
) -> Result<Told, Memory> {
    let mut told = Told {
        lines: Vec::new(alloc),
        past: Vec::new(alloc),
        others: Vec::new(alloc),
        late: Vec::new(alloc),
    };
    for outcome in outcomes {
        let place = told.lines.len();
        let q = number_at(list, place);
        let Some(verdict) = verdicts.get(place) else {
            return Ok(told);
        };
        let reply = match *verdict {
            Verdict::Finish { raw } => {
                let finished = if raw {
                    &mut told.past
                } else {
                    &mut told.others
                };
                finished.push(q)?;
                finish(outcome, tables)?
            }
            Verdict::Wait(cause) => Reply::Waits(wait(list, cause)),
        };
        told.lines.push(Line { q, reply })?;
    }
    Ok(told)
}

/// Makes the writes of a request, and answers its end.
fn finish(outcome: Outcome, tables: &mut Tables) -> Result<Reply, Memory> {
    install(tables, outcome.writes)?;
    Ok(Reply::Ended(outcome.end))
}

/// The number of the request at this place of the list, and 0 where there is none.
fn number_at(list: &[Request], place: usize) -> u64 {
    match list.get(place) {
        Some(request) => request.q,
        None => 0,
    }
}

/// The cause by request numbers.
fn wait(list: &[Request], cause: Cause) -> Wait {
    match cause {
        Cause::Waw(waw) => Wait::Waw(number_of(list, waw)),
        Cause::Raw(raw) => Wait::Raw(number_of(list, raw)),
        Cause::Both(raw, war) => Wait::Both(number_of(list, raw), number_of(list, war)),
    }
}

/// The number of the request at this place, counted from 1.
fn number_of(list: &[Request], tid: u32) -> u64 {
    number_at(list, (tid as usize).wrapping_sub(1))
}

/// Makes the writes of one request, each of another key.
fn install(tables: &mut Tables, changes: Changes) -> Result<(), Memory> {
    for (key, row) in changes.into_vec() {
        match row {
            Some(row) => tables.put(key, row)?,
            None => {
                tables.delete(&key);
            }
        }
    }
    Ok(())
}

fn is_waiting(line: &Line) -> bool {
    match &line.reply {
        Reply::Ended(_) => false,
        Reply::Waits(_) => true,
    }
}

/// Whether at least one waits, and of a hundred at least `percent`.
fn is_due(lines: &[Line], percent: u32) -> bool {
    let mut waiting = 0_u64;
    for line in lines {
        waiting = waiting.wrapping_add(u64::from(is_waiting(line)));
    }
    let size = lines.len() as u64;
    waiting > 0 && waiting.wrapping_mul(100) >= size.wrapping_mul(u64::from(percent))
}

/// Runs what waits again, one request after the other, each within the keys of its first run.
fn run_late(
    alloc: Global,
    catalog: &Catalog,
    tables: &mut Tables,
    told: &mut Told,
    list: &[Request],
    sets: Vec<Sets>,
) -> Result<(), Memory> {
    let mut rest = list;
    let mut place = 0_usize;
    for Sets { reads, writes } in sets {
        let Some((request, later)) = rest.split_first() else {
            return Ok(());
        };
        rest = later;
        if waits_at(&told.lines, place) {
            let declared = Declared { reads, writes };
            let reply = run_again(alloc, catalog, tables, request, &declared)?;
            tell_late(told, place, reply)?;
        }
        place = place.wrapping_add(1);
    }
    Ok(())
}

/// Whether the request at this place waits.
fn waits_at(lines: &[Line], place: usize) -> bool {
    match lines.get(place) {
        Some(line) => is_waiting(line),
        None => false,
    }
}

/// What a request that waited comes to on the tables as they now stand, and installs it.
fn run_again(
    alloc: Global,
    catalog: &Catalog,
    tables: &mut Tables,
    request: &Request,
    declared: &Declared,
) -> Result<Reply, Memory> {
    match execute_within(alloc, catalog, request, Snapshot::of(tables), declared)? {
        Within::Ended(outcome) => finish(outcome, tables),
        Within::Moved(key) => Ok(Reply::Waits(Wait::Moved(key))),
    }
}

/// Puts the reply of a late run into the line at this place.
fn tell_late(told: &mut Told, place: usize, reply: Reply) -> Result<(), Memory> {
    let Some(line) = told.lines.get_mut(place) else {
        return Ok(());
    };
    line.reply = reply;
    if !is_waiting(line) {
        told.late.push(line.q)?;
    }
    Ok(())
}

/// Those of the list that wait for the next batch.
fn still_waiting(
    alloc: Global,
    list: Vec<Request>,
    lines: &[Line],
) -> Result<Vec<Request>, Memory> {
    let mut still = Vec::new(alloc);
    let mut place = 0_usize;
    for request in list {
        if waits_at(lines, place) {
            still.push(request)?;
        }
        place = place.wrapping_add(1);
    }
    Ok(still)
}

/// The answer of the batch with this number. Those that read past an earlier write stand first, the last
/// one foremost, then the others, and then those that finished late.
fn answer_of(number: u64, told: Told) -> Result<Answer, Memory> {
    let Told {
        lines,
        past: mut order,
        mut others,
        mut late,
    } = told;
    order.reverse();
    order.append(&mut others)?;
    order.append(&mut late)?;
    Ok(Answer {
        number,
        lines: Items::from_vec(lines),
        order: Items::from_vec(order),
    })
}
