// Command lines of every command, what is usual in each, and lines that are refused.
use aria_base::Memory;
use batch_rules::verdicts::Rule;
use command_words::{
    Accesses, Amount, Bench, Command, Init, Listing, Load, Mix, Nodes, Once, Replay, Run, Stock,
    Workload, commands, read_settings,
};
use std::alloc::Global;
use std::process::Abort;
use std::test::Fail;

const ONCE: Once = Once {
    workers: 1,
    replicas: 1,
    rule: Rule::Reorder,
    fallback: 101,
    listing: Listing::Last,
    drain: false,
    batons: false,
};

const INIT: Init = Init {
    rule: Rule::Reorder,
    fallback: 101,
    over: false,
};

const RUN: Run = Run {
    workers: 1,
    replicas: 1,
    checkpoint: 0,
    listing: Listing::Last,
    drain: false,
    batons: false,
};

const REPLAY: Replay = Replay {
    workers: 1,
    replicas: 1,
    listing: Listing::Last,
    batons: false,
};

const AMOUNT: Amount = Amount {
    number: 1,
    batches: 10,
    size: 100,
};

const ACCESSES: Accesses = Accesses {
    keys: 1000,
    ops: 10,
    reads: 50,
    updates: 0,
    hot: 0,
};

const STOCK: Stock = Stock {
    warehouses: 1,
    customers: 30,
    items: 100,
};

const WORKLOAD: Workload = Workload {
    kind: Load::Ycsb,
    amount: AMOUNT,
    accesses: ACCESSES,
    stock: STOCK,
};

const BENCH: Bench = Bench {
    workload: WORKLOAD,
    workers: 1,
    replicas: 1,
    rule: Rule::Reorder,
    fallback: 101,
    drain: false,
    batons: false,
};

const MIX: Mix = Mix {
    amount: AMOUNT,
    stock: STOCK,
    workers: 1,
    rule: Rule::Reorder,
};

const NODES: Nodes = Nodes {
    nodes: 2,
    rule: Rule::Reorder,
    listing: Listing::Last,
    drain: false,
};

// Lines that are refused. Their arguments are what stands between spaces.
const REFUSED: [&str; 58] = [
    "",
    " once",
    "once ",
    "walk",
    "help",
    "-h",
    "--help",
    "--version",
    "Once",
    "onc",
    "once -h",
    "once --help",
    "once help",
    "once --",
    "once -- --drain",
    "--drain once",
    "once once",
    "once --workers",
    "once --workers 65",
    "once --workers 0",
    "once --workers=65",
    "once --workers=",
    "once --workers -1",
    "once --workers=-1",
    "once --workers +1",
    "once --workers 01",
    "once --workers 00",
    "once --workers 1x",
    "once --workers 10000001",
    "once --workers 1 1",
    "once --workers 1 --workers 1",
    "once --workers=1 --workers=1",
    "once --work 1",
    "once --Workers 1",
    "once -workers 1",
    "once workers 1",
    "once --replicas 9",
    "once --fallback 102",
    "once --fallback 00000101",
    "once --rule",
    "once --rule serial",
    "once --rule=Plain",
    "once --state none",
    "once --drain=true",
    "once --drain true",
    "once --drain --drain",
    "once --over",
    "init --workers 1",
    "run --checkpoint 1000001",
    "replay --drain",
    "check --drain",
    "gen --batches 1000 --size 1001",
    "gen --kind tpcc --reads 50 --updates 51",
    "gen --keys 99",
    "bench --items 99",
    "bench --number 10000000",
    "mix --batches 101 --size 10000",
    "nodes --nodes 9",
];

fn split(alloc: Global, line: &str) -> Result<Vec<String>, Memory> {
    let mut words = Vec::new(alloc);
    for word in line.split(' ') {
        words.push(String::from_str(alloc, word)?)?;
    }
    Ok(words)
}

fn read(alloc: Global, line: &str) -> Result<Option<Command>, Memory> {
    let words = split(alloc, line)?;
    let rows = commands();
    read_settings(alloc, rows.as_slice(), words.as_slice())
}

fn is_read(
    rt: &impl Abort,
    alloc: Global,
    line: &str,
    wanted: &Option<Command>,
) -> Result<(), Memory> {
    let found = read(alloc, line)?;
    assert_eq!(rt; &found, wanted, "{line}");
    Ok(())
}

#[test]
fn other_words_are_refused(rt: HostRuntime) -> Result<(), Fail> {
    let alloc = rt.alloc();
    for line in REFUSED {
        is_read(&rt, alloc, line, &None)?;
    }
    Ok(())
}

#[test]
fn no_words_and_commands_that_are_not_offered_are_refused(rt: HostRuntime) -> Result<(), Fail> {
    let alloc = rt.alloc();
    let rows = commands();
    let none = read_settings(alloc, rows.as_slice(), &[])?;
    let words = split(alloc, "audit")?;
    let audit = read_settings(alloc, &rows[..5], words.as_slice())?;
    assert!(rt; none.is_none() && audit.is_none());
    Ok(())
}

#[test]
fn lines_without_options_have_what_is_usual(rt: HostRuntime) -> Result<(), Fail> {
    let alloc = rt.alloc();
    let lines = [
        ("once", Command::Once(ONCE)),
        ("init", Command::Init(INIT)),
        ("run", Command::Run(RUN)),
        ("replay", Command::Replay(REPLAY)),
        ("check", Command::Check),
        ("gen", Command::Gen(WORKLOAD)),
        ("bench", Command::Bench(BENCH)),
        ("audit", Command::Audit),
        ("mix", Command::Mix(MIX)),
        ("nodes", Command::Nodes(NODES)),
    ];
    for (line, wanted) in lines {
        is_read(&rt, alloc, line, &Some(wanted))?;
    }
    Ok(())
}

#[test]
fn scripts_are_run_as_the_options_say(rt: HostRuntime) -> Result<(), Fail> {
    let alloc = rt.alloc();
    let two = Once {
        workers: 2,
        rule: Rule::Plain,
        ..ONCE
    };
    let all = Once {
        workers: 64,
        replicas: 8,
        rule: Rule::Plain,
        fallback: 0,
        listing: Listing::Each,
        drain: true,
        batons: true,
    };
    let lines = [
        ("once --workers 2 --rule=plain", two),
        ("once --rule plain --workers=2", two),
        (
            "once --batons --state=each --fallback 0 --rule plain --drain --replicas 8 --workers 64",
            all,
        ),
        ("once --rule=reorder --state last --fallback=101", ONCE),
    ];
    for (line, wanted) in lines {
        is_read(&rt, alloc, line, &Some(Command::Once(wanted)))?;
    }
    Ok(())
}

#[test]
fn stores_are_used_as_the_options_say(rt: HostRuntime) -> Result<(), Fail> {
    let alloc = rt.alloc();
    let over = Init {
        rule: Rule::Plain,
        fallback: 7,
        over: true,
    };
    let often = Run {
        checkpoint: 1_000_000,
        drain: true,
        ..RUN
    };
    let each = Replay {
        workers: 3,
        listing: Listing::Each,
        batons: true,
        ..REPLAY
    };
    let eight = Nodes {
        nodes: 8,
        drain: true,
        ..NODES
    };
    let lines = [
        ("init --over --rule=plain --fallback 7", Command::Init(over)),
        ("run --checkpoint=1000000 --drain", Command::Run(often)),
        (
            "replay --state each --batons --workers 3",
            Command::Replay(each),
        ),
        ("nodes --drain --nodes 8", Command::Nodes(eight)),
    ];
    for (line, wanted) in lines {
        is_read(&rt, alloc, line, &Some(wanted))?;
    }
    Ok(())
}

#[test]
fn accesses_are_as_the_options_say(rt: HostRuntime) -> Result<(), Fail> {
    let alloc = rt.alloc();
    let most = Workload {
        amount: Amount {
            number: 9_999_999,
            batches: 1000,
            size: 1000,
        },
        accesses: Accesses {
            keys: 1_000_000,
            ops: 16,
            reads: 40,
            updates: 60,
            hot: 100,
        },
        ..WORKLOAD
    };
    let line =
        "gen --number=9999999 --batches 1000 --size 1000 --keys 1000000 --ops 16 --reads 40 --updates 60 --hot=100";
    is_read(&rt, alloc, line, &Some(Command::Gen(most)))?;
    Ok(())
}

#[test]
fn order_entry_is_as_the_options_say(rt: HostRuntime) -> Result<(), Fail> {
    let alloc = rt.alloc();
    let orders = Workload {
        kind: Load::Tpcc,
        stock: Stock {
            warehouses: 4,
            customers: 3000,
            items: 100_000,
        },
        ..WORKLOAD
    };
    let drained = Bench {
        workload: orders,
        drain: true,
        ..BENCH
    };
    let by_gen = "gen --items 100000 --customers 3000 --warehouses 4 --kind tpcc";
    is_read(&rt, alloc, by_gen, &Some(Command::Gen(orders)))?;
    let by_bench = "bench --kind=tpcc --warehouses=4 --customers=3000 --items=100000 --drain";
    is_read(&rt, alloc, by_bench, &Some(Command::Bench(drained)))?;
    Ok(())
}

#[test]
fn a_mix_is_as_the_options_say(rt: HostRuntime) -> Result<(), Fail> {
    let alloc = rt.alloc();
    let wide = Mix {
        amount: Amount {
            number: 0,
            batches: 1,
            size: 10_000,
        },
        workers: 9,
        ..MIX
    };
    let line = "mix --number 0 --batches 1 --size 10000 --workers 9";
    is_read(&rt, alloc, line, &Some(Command::Mix(wide)))?;
    Ok(())
}
