//! A routine of one's own on the engine as a library: the open orders of a customer. Two batches enter orders and ask for them, and each
//! answer is printed.
#![tactic(auto)]

ghost use Rattle.std.specs.Prelude.{◌≡◌, IfOk};
ghost use Rattle.range_rules.specs.Walks.{follow};
ghost use Rattle.example_scans.specs.Orders.{MayRun, done, orders_of, told};

use answer_text::print_answer;
use anyhow::{Error, Result, ensure};
use aria_base::{
    Arg, Args, Call, Duplicate, FileSink, Free, GREATEST_NUMBER, Items, Key, Memory, Part, Parts,
    Row, Sink, Value,
};
use cat_read::read_catalog;
use dep_rules::{Config, Rule};
use proc_lang::{End, Gives, MOST_GIVEN, Trap};
use range_resv::{Action, Front, Prefix, Routine, RoutineCall, ScanEngine, Seen, Work};
use std::alloc::Global;
use std::io::{Print, writer};
use std::thread::Threads;
use tbl_rows::Tables;

/// Open orders by their customers and numbers, each with an amount.
const CATALOG: &str =
    r#"{"tables":[{"name":"open_order","key":["int","int"],"cols":["int"]}],"procs":[
{"name":"enter","args":["int","int","int"],"regs":[],"body":[["put","open_order",[["arg",0],["arg",1]],[["arg",2]]]]}]}"#;

/// Three numbers enter an order, with its customer, its number and its amount; one asks for a customer's orders. In the second batch an order
/// comes while they are asked for. They are those of the batch's start, so that the work which asks counts as run before the one that enters.
const BATCHES: [&[&[i64]]; 2] = [
    &[&[7, 1, 250], &[8, 1, 99], &[7, 2, 40]],
    &[&[7, 3, 15], &[7], &[8]],
];

/// Gives the amounts of a customer's open orders, in the order of their numbers.
#[derive(Drop)]
struct OpenOrders;

impl Routine for OpenOrders {
    ghost use Rattle.range_rules.specs.Walks.{follow};
    ghost use Rattle.example_scans.specs.Orders.{has_customer, open_orders};

    ghost taken = { λ _ call. has_customer call };

    ghost act = { λ _ q call. follow (open_orders call.nums) };

    fn takes(&self, call: &RoutineCall) -> bool {
        call.nums.as_slice().len() == 1
    }

    fn next(
        &self,
        alloc: Global,
        _q: u64,
        call: &RoutineCall,
        seen: &[Seen],
    ) -> Result<Action, Memory> {
        match call.nums.as_slice() {
            [customer] => look(alloc, customer, seen),
            _ => Ok(Action::Stop(End::Trap(Trap::Absent))),
        }
    }
}

/// Scans the orders of a customer, and then tells them.
fn look(alloc: Global, customer: &i64, seen: &[Seen]) -> Result<Action, Memory>
    ensures { IfOk result (λ action. action ≡ follow (orders_of customer.now) seen.now) }
{
    match seen {
        [] => Ok(Action::Scan(Prefix {
            table: 0,
            parts: Front::one(Part::Int(*customer)),
        })),
        [Seen::Many(rows), ..] => Ok(Action::Stop(tell(alloc, rows.as_slice())?)),
        _ => Ok(Action::Stop(End::Trap(Trap::Absent))),
    }
}

/// The end that tells what the rows hold. A run gives 256 values at most.
fn tell(alloc: Global, rows: &[(Key, Row)]) -> Result<End, Memory>
    ensures { IfOk result (λ end. end ≡ done (told rows.now)) }
{
    let mut values = Vec::new(alloc);
    for order in rows {
        values.append(&mut order.1.duplicate(alloc)?.into_vec())?;
    }
    if values.len() > MOST_GIVEN {
        return Ok(End::Trap(Trap::Many));
    }
    Ok(End::Done(Gives::from_vec(values)))
}

fn main(rt: HostRuntime) -> Result<()> {
    run(&rt)
}

#[tactic(auto, using(aria_base::proofs::Fitting::none_fit, crate::proofs::Suiting::none_waits, crate::proofs::Suiting::taken_on))]
fn run<R: AllocGlobal + Print + Threads + Sync>(rt: &R) -> Result<()> {
    let alloc = rt.alloc();
    let mut out = FileSink::new(writer(rt));
    let catalog = read_catalog(alloc, CATALOG.as_bytes())?;
    // No row is put here. The routine asks for the rows of table 0: that this one would fit shows a table with a key of two numbers and
    // rows of one, which the engine wants to know before it runs the routine.
    let key = Key {
        table: 0,
        parts: Parts::two(Part::Int(7), Part::Int(1)),
    };
    let row = Row::from_vec(vec![in alloc; Value::Int(250)]?);
    ensure!(catalog.schema().fits(&key, &row), "no open orders");
    let config = Config {
        rule: Rule::Reorder,
        fallback: 101,
        workers: 2,
        batons: false,
    };
    let mut engine = ScanEngine::begin(alloc, catalog, Tables::new(alloc)?);
    for asked in BATCHES {
        let works = works_for(alloc, &engine, asked)?;
        let (next, answer) = engine.run_batch(rt, alloc, &OpenOrders, works, &config, &Free)?;
        engine = next;
        let text = print_answer(alloc, engine.catalog(), &answer)?;
        out.give(&text).map_err(|_| Error::msg("no output"))?;
    }
    Ok(())
}

/// The works that are asked for, where the engine may run them as its next batch.
fn works_for(alloc: Global, engine: &ScanEngine, asked: &[&[i64]]) -> Result<Vec<Work>>
    ensures { IfOk result (λ works. MayRun engine.now works.items) }
{
    engine.ready();
    let mut works = Vec::new(alloc);
    for numbers in asked {
        let work = work(alloc, numbers)?;
        ensure!(engine.takes(&OpenOrders, &work), "nobody takes the work");
        works.push(work)?;
    }
    ensure!(
        works.len() <= engine.room() as usize,
        "the batch has no room for the works"
    );
    ensure!(
        engine.batches() < GREATEST_NUMBER,
        "no number is left for the batch"
    );
    let most = GREATEST_NUMBER - works.len() as u64;
    ensure!(
        engine.requests() <= most,
        "no numbers are left for the works"
    );
    Ok(works)
}

/// A call of the routine for one number, and of the procedure for three.
fn work(alloc: Global, numbers: &[i64]) -> Result<Work, Memory> {
    let [customer, order, amount] = numbers else {
        let nums = Items::from_vec(numbers.to_vec(alloc)?);
        return Ok(Work::Routine(RoutineCall { kind: 0, nums }));
    };
    let args = vec![in alloc; Arg::Int(*customer), Arg::Int(*order), Arg::Int(*amount)]?;
    let args = Args::from_vec(args);
    Ok(Work::Proc(Call { proc: 0, args }))
}
