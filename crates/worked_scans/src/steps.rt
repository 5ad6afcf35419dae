// The routine of the tests. Its numbers are steps of three: what to do, and two numbers for it.
ghost use Rattle.std.specs.Prelude.{◌≡◌, ◌++◌, [], IfOk, OnOk};
ghost use Rattle.worked_scans.specs.Steps.{after, asked, at_step, behind, count_of, done, longest, noted, number_row, pair, scanned, stop, told};

use aria_base::{Duplicate, Key, LONGEST_TEXT, Memory, Part, Parts, Row, Txt, Value};
use proc_lang::{End, Gives, MOST_GIVEN, Trap};
use range_resv::{Action, Front, Prefix, Routine, RoutineCall, Seen};
use std::alloc::Global;

/// Reads the pair of its two numbers.
pub const READ: i64 = 1;

/// Puts at that pair how many values were found so far.
pub const PUT: i64 = 2;

/// Puts its second number at the pair of its first one and of how many values were found so far.
pub const PUT_AT: i64 = 3;

/// Deletes the pair.
pub const DELETE: i64 = 4;

/// Scans the pairs under its first number.
pub const SCAN: i64 = 6;

/// Scans all pairs.
pub const SCAN_PAIRS: i64 = 7;

/// Scans the rows under the longest text.
pub const SCAN_LONGEST: i64 = 8;

/// Scans all rows under texts.
pub const SCAN_TEXTS: i64 = 9;

/// Traps.
pub const TRAP: i64 = 10;

/// The routine that takes one step after the other, and gives the values that it found, and how many. Where `fails_after` is told, there
/// is no memory for the action after so many answers.
#[derive(Drop)]
pub struct Steps {
    pub fails_after: Option<usize>,
}

impl Routine for Steps {
    ghost use Rattle.worked_scans.specs.Steps.{act_of, takes_any};

    ghost taken = { λ _ call. takes_any call };

    ghost act = { λ _ q call. act_of call };

    fn takes(&self, _call: &RoutineCall) -> bool {
        true
    }

    fn next(
        &self,
        alloc: Global,
        _q: u64,
        call: &RoutineCall,
        seen: &[Seen],
    ) -> Result<Action, Memory> {
        if self.fails_after == Some(seen.len()) {
            return Err(Memory);
        }
        follow(alloc, call.nums.as_slice(), seen)
    }
}

/// The action after these answers.
fn follow(alloc: Global, nums: &[i64], seen: &[Seen]) -> Result<Action, Memory>
    ensures { IfOk result (λ action. action ≡ after nums.now [] seen.now) }
{
    let mut steps = nums;
    let mut found = Vec::new(alloc);
    for one in seen {
        note(alloc, &mut found, one)?;
        steps = behind(steps);
    }
    act(alloc, steps, found)
}

/// The steps behind the first one.
fn behind(steps: &[i64]) -> &[i64]
    ensures { result.now ≡ behind steps.now }
{
    steps.split_at(steps.len().min(3)).1
}

/// Adds what was answered: the values of a row, or of rows.
fn note(alloc: Global, found: &mut Vec<Value>, seen: &Seen) -> Result<(), Memory>
    ensures { OnOk result (found.new.items ≡ noted found.old.items seen.now) }
{
    match seen {
        Seen::One(None) => Ok(()),
        Seen::One(Some(row)) => add(alloc, found, row),
        Seen::Wrote => Ok(()),
        Seen::Many(rows) => add_all(alloc, found, rows.as_slice()),
    }
}

fn add(alloc: Global, found: &mut Vec<Value>, row: &Row) -> Result<(), Memory>
    ensures { OnOk result (found.new.items ≡ found.old.items ++ row.now) }
{
    found.append(&mut row.duplicate(alloc)?.into_vec())?;
    Ok(())
}

fn add_all(alloc: Global, found: &mut Vec<Value>, rows: &[(Key, Row)]) -> Result<(), Memory>
    ensures { OnOk result (found.new.items ≡ found.old.items ++ told rows.now) }
{
    for entry in rows {
        add(alloc, found, &entry.1)?;
    }
    Ok(())
}

/// How many values these are.
fn count_of(found: &[Value]) -> i64
    ensures { result ≡ count_of found.now }
{
    found.len().min(1_000) as i64
}

/// What the first of these steps asks for, where so much was found.
fn act(alloc: Global, steps: &[i64], found: Vec<Value>) -> Result<Action, Memory>
    ensures { IfOk result (λ action. action ≡ at_step steps.now found.items) }
{
    match steps {
        [] => stop(found),
        [_] => stop(found),
        [_, _] => stop(found),
        [op, a, b, ..] => ask(alloc, op, a, b, &found),
    }
}

fn stop(mut found: Vec<Value>) -> Result<Action, Memory>
    ensures { IfOk result (λ action. action ≡ stop found.items) }
{
    let count = count_of(&found);
    found.push(Value::Int(count))?;
    Ok(Action::Stop(done(found)))
}

/// The end that gives these values, of which a run gives 256 at most.
pub fn done(found: Vec<Value>) -> End
    ensures { result ≡ done found.items }
{
    if found.len() > MOST_GIVEN {
        return End::Trap(Trap::Many);
    }
    End::Done(Gives::from_vec(found))
}

fn ask(alloc: Global, op: &i64, a: &i64, b: &i64, found: &[Value]) -> Result<Action, Memory>
    ensures { IfOk result (λ action. action ≡ asked op.now a.now b.now found.now) }
{
    if *op == READ {
        return Ok(Action::Read(pair(a, b)));
    }
    if *op == PUT {
        let count = count_of(found);
        return Ok(Action::Write(pair(a, b), Some(row(alloc, &count)?)));
    }
    if *op == PUT_AT {
        let count = count_of(found);
        return Ok(Action::Write(pair(a, &count), Some(row(alloc, b)?)));
    }
    if *op == DELETE {
        return Ok(Action::Write(pair(a, b), None));
    }
    ask_scan(alloc, op, a)
}

fn ask_scan(alloc: Global, op: &i64, a: &i64) -> Result<Action, Memory>
    ensures { IfOk result (λ action. action ≡ scanned op.now a.now) }
{
    if *op == SCAN {
        let parts = Front::one(Part::Int(*a));
        return Ok(Action::Scan(Prefix { table: 0, parts }));
    }
    if *op == SCAN_PAIRS {
        let parts = Front::none();
        return Ok(Action::Scan(Prefix { table: 0, parts }));
    }
    if *op == SCAN_LONGEST {
        let parts = Front::one(Part::Text(longest(alloc)?));
        return Ok(Action::Scan(Prefix { table: 1, parts }));
    }
    if *op == SCAN_TEXTS {
        let parts = Front::none();
        return Ok(Action::Scan(Prefix { table: 1, parts }));
    }
    Ok(Action::Stop(End::Trap(Trap::Absent)))
}

/// The key of a pair.
pub fn pair(a: &i64, b: &i64) -> Key
    ensures { result ≡ pair a.now b.now }
{
    Key {
        table: 0,
        parts: Parts::two(Part::Int(*a), Part::Int(*b)),
    }
}

/// A row of one number.
pub fn row(alloc: Global, number: &i64) -> Result<Row, Memory>
    ensures { IfOk result (λ row. row ≡ number_row number.now) }
{
    let mut values = Vec::with_capacity(alloc, 1)?;
    values.push(Value::Int(*number))?;
    Ok(Row::from_vec(values))
}

/// A text of 500 letters.
#[tactic(auto, unfolding(crate::specs::Steps::longest))]
pub fn longest(alloc: Global) -> Result<Txt, Memory>
    ensures { IfOk result (λ text. text ≡ longest) }
{
    let letters = vec![in alloc; b'z'; LONGEST_TEXT]?;
    match Txt::of(alloc, &letters) {
        Ok(text) => Ok(text),
        Err(_) => Err(Memory),
    }
}
