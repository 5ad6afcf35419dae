// The settings of a line, from its matches.
ghost use Rattle.std.specs.Prelude.{◌≡◌, ◌<◌, length, map, option_and_then, option_map, string_bytes, IfOk};
ghost use Rattle.command_words.specs.Lines.{Line, line_of};
ghost use Rattle.command_words.specs.Rows.{IsRead, choice_of, cmd_of, range_of};
ghost use Rattle.command_words.specs.Settings.{accesses_of, amount_of, bench_of, command_of, init_of, mix_of, nodes_of, once_of, replay_of, run_of, settings_named, stock_of, workload_of};
ghost use Rattle.command_words.specs.Values.{choice_in, flag_in, number_in};

use crate::findings::{matches, text};
use crate::options::{
    BATCHES, BATONS, CHECKPOINT, CUSTOMERS, Choice, DRAIN, FALLBACK, HOT, ITEMS, KEYS, KIND,
    LISTING, NODES, NUMBER, Number, OPS, OVER, READS, REPLICAS, RULE, SIZE, UPDATES, WAREHOUSES,
    WORKERS,
};
use crate::rows::CommandRow;
use crate::settings::{
    Accesses, Amount, Bench, Command, Init, Mix, Nodes, Once, Replay, Run, Stock, Workload,
};
use crate::values::{choice_or, is_on, number_or};
use aria_base::Memory;
use clap::ArgMatches;
use std::alloc::Global;

const MOST_CALLS: u32 = 1_000_000;

const ALL_ACCESSES: u32 = 100;

/// What the arguments ask for, where they are a line of these commands with values in range; else none.
pub fn read_settings(
    alloc: Global,
    rows: &[CommandRow<'_>],
    words: &[String],
) -> Result<Option<Command>, Memory>
    requires { 0 < length rows.now }
    ensures { IfOk result (λ found. found ≡ option_and_then command_of (line_of (map cmd_of rows.now) (map string_bytes words.now))) }
{
    match matches(alloc, rows, words)? {
        Some(found) => Ok(command(&found)),
        None => Ok(None),
    }
}

fn number_in(found: &ArgMatches<'_>, option: &Number<'_>) -> Option<u32>
    ensures { (l : Line) → IsRead l found.now → result ≡ number_in l (range_of option.now) }
{
    number_or(text(found, option.name), option)
}

fn choice_in<T: Copy>(found: &ArgMatches<'_>, option: &Choice<'_, T>) -> Option<T>
    ensures { (l : Line) → IsRead l found.now → result ≡ choice_in l (choice_of option.now) }
{
    choice_or(text(found, option.name), option)
}

fn flag_in(found: &ArgMatches<'_>, name: &str) -> bool
    ensures { (l : Line) → IsRead l found.now → result ≡ flag_in l name.now }
{
    is_on(text(found, name))
}

fn amount(found: &ArgMatches<'_>) -> Option<Amount>
    ensures { (l : Line) → IsRead l found.now → result ≡ amount_of l }
{
    let number = number_in(found, &NUMBER)?;
    let batches = number_in(found, &BATCHES)?;
    let size = number_in(found, &SIZE)?;
    if batches.checked_mul(size)? > MOST_CALLS {
        return None;
    }
    Some(Amount {
        number,
        batches,
        size,
    })
}

fn accesses(found: &ArgMatches<'_>) -> Option<Accesses>
    ensures { (l : Line) → IsRead l found.now → result ≡ accesses_of l }
{
    let keys = number_in(found, &KEYS)?;
    let ops = number_in(found, &OPS)?;
    let reads = number_in(found, &READS)?;
    let updates = number_in(found, &UPDATES)?;
    let hot = number_in(found, &HOT)?;
    if reads.checked_add(updates)? > ALL_ACCESSES {
        return None;
    }
    Some(Accesses {
        keys,
        ops,
        reads,
        updates,
        hot,
    })
}

fn stock(found: &ArgMatches<'_>) -> Option<Stock>
    ensures { (l : Line) → IsRead l found.now → result ≡ stock_of l }
{
    Some(Stock {
        warehouses: number_in(found, &WAREHOUSES)?,
        customers: number_in(found, &CUSTOMERS)?,
        items: number_in(found, &ITEMS)?,
    })
}

fn workload(found: &ArgMatches<'_>) -> Option<Workload>
    ensures { (l : Line) → IsRead l found.now → result ≡ workload_of l }
{
    Some(Workload {
        kind: choice_in(found, &KIND)?,
        amount: amount(found)?,
        accesses: accesses(found)?,
        stock: stock(found)?,
    })
}

fn once(found: &ArgMatches<'_>) -> Option<Once>
    ensures { (l : Line) → IsRead l found.now → result ≡ once_of l }
{
    Some(Once {
        workers: number_in(found, &WORKERS)?,
        replicas: number_in(found, &REPLICAS)?,
        rule: choice_in(found, &RULE)?,
        fallback: number_in(found, &FALLBACK)?,
        listing: choice_in(found, &LISTING)?,
        drain: flag_in(found, DRAIN),
        batons: flag_in(found, BATONS),
    })
}

fn init(found: &ArgMatches<'_>) -> Option<Init>
    ensures { (l : Line) → IsRead l found.now → result ≡ init_of l }
{
    Some(Init {
        rule: choice_in(found, &RULE)?,
        fallback: number_in(found, &FALLBACK)?,
        over: flag_in(found, OVER),
    })
}

fn run(found: &ArgMatches<'_>) -> Option<Run>
    ensures { (l : Line) → IsRead l found.now → result ≡ run_of l }
{
    Some(Run {
        workers: number_in(found, &WORKERS)?,
        replicas: number_in(found, &REPLICAS)?,
        checkpoint: number_in(found, &CHECKPOINT)?,
        listing: choice_in(found, &LISTING)?,
        drain: flag_in(found, DRAIN),
        batons: flag_in(found, BATONS),
    })
}

fn replay(found: &ArgMatches<'_>) -> Option<Replay>
    ensures { (l : Line) → IsRead l found.now → result ≡ replay_of l }
{
    Some(Replay {
        workers: number_in(found, &WORKERS)?,
        replicas: number_in(found, &REPLICAS)?,
        listing: choice_in(found, &LISTING)?,
        batons: flag_in(found, BATONS),
    })
}

fn bench(found: &ArgMatches<'_>) -> Option<Bench>
    ensures { (l : Line) → IsRead l found.now → result ≡ bench_of l }
{
    Some(Bench {
        workload: workload(found)?,
        workers: number_in(found, &WORKERS)?,
        replicas: number_in(found, &REPLICAS)?,
        rule: choice_in(found, &RULE)?,
        fallback: number_in(found, &FALLBACK)?,
        drain: flag_in(found, DRAIN),
        batons: flag_in(found, BATONS),
    })
}

fn mix(found: &ArgMatches<'_>) -> Option<Mix>
    ensures { (l : Line) → IsRead l found.now → result ≡ mix_of l }
{
    Some(Mix {
        amount: amount(found)?,
        stock: stock(found)?,
        workers: number_in(found, &WORKERS)?,
        rule: choice_in(found, &RULE)?,
    })
}

fn nodes(found: &ArgMatches<'_>) -> Option<Nodes>
    ensures { (l : Line) → IsRead l found.now → result ≡ nodes_of l }
{
    Some(Nodes {
        nodes: number_in(found, &NODES)?,
        rule: choice_in(found, &RULE)?,
        listing: choice_in(found, &LISTING)?,
        drain: flag_in(found, DRAIN),
    })
}

fn command(found: &ArgMatches<'_>) -> Option<Command>
    ensures { (l : Line) → IsRead l found.now → result ≡ command_of l }
{
    let (name, _) = found.subcommand()?;
    settings(name, found)
}

fn settings(name: &str, found: &ArgMatches<'_>) -> Option<Command>
    ensures { (l : Line) → IsRead l found.now → result ≡ settings_named name.now l }
{
    if name == "once" {
        return once(found).map(Command::Once);
    }
    if name == "init" {
        return init(found).map(Command::Init);
    }
    if name == "run" {
        return run(found).map(Command::Run);
    }
    if name == "replay" {
        return replay(found).map(Command::Replay);
    }
    if name == "check" {
        return Some(Command::Check);
    }
    if name == "gen" {
        return workload(found).map(Command::Gen);
    }
    if name == "bench" {
        return bench(found).map(Command::Bench);
    }
    if name == "audit" {
        return Some(Command::Audit);
    }
    if name == "mix" {
        return mix(found).map(Command::Mix);
    }
    if name == "nodes" {
        return nodes(found).map(Command::Nodes);
    }
    None
}
