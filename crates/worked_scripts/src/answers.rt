// What a batch answers.
use crate::catalogs::{catalog, placed};
use crate::checks::same;
use answer_text::{append_answer, print_answer};
use aria_base::{Memory, Txt, Value};
use batch_core::{Answer, Line, Order, Replies, Reply, Wait};
use proc_lang::{Catalog, End, Gives, Trap};
use std::alloc::Global;
use std::test::Fail;

/// Ends of requests that gave nothing.
const ENDS: [(u64, End); 6] = [
    (9, End::Back(999)),
    (10, End::Trap(Trap::Overflow)),
    (10, End::Trap(Trap::Zero)),
    (10, End::Trap(Trap::Absent)),
    (10, End::Trap(Trap::Long)),
    (10, End::Trap(Trap::Many)),
];

/// Waits for other requests.
const WAITS: [(u64, Wait); 3] = [
    (11, Wait::Waw(7)),
    (12, Wait::Raw(8)),
    (u64::MAX, Wait::Both(9, 7)),
];

/// Rows whose keys are outside of those of a request's first run.
const MOVED: [(u64, &str); 2] = [(14, "row acct -3 = 0"), (15, "row seat 4 \"c d\" = \"\" 0")];

/// What all of them print.
const REPLIES: &str = r#"batch 20
7 ok -9223372036854775808 "a b" 0
8 ok
9 back 999
10 trap overflow
10 trap zero
10 trap absent
10 trap long
10 trap many
11 wait waw 7
12 wait raw 8
18446744073709551615 wait both 9 7
14 wait moved acct -3
15 wait moved seat 4 "c d"
order 9 7 8
end 20
"#;

fn ended(q: u64, end: End) -> Line {
    let reply = Reply::Ended(end);
    Line { q, reply }
}

fn waits(q: u64, wait: Wait) -> Line {
    let reply = Reply::Waits(wait);
    Line { q, reply }
}

/// The lines of a request that gave three values and of one that gave none.
fn given(alloc: Global) -> Result<Vec<Line>, Fail> {
    let text = Value::Text(Txt::of(alloc, b"a b")?);
    let three = Gives::from_vec(vec![in alloc; Value::Int(i64::MIN), text, Value::Int(0)]?);
    let none = Gives::from_vec(Vec::new(alloc));
    Ok(vec![in alloc; ended(7, End::Done(three)), ended(8, End::Done(none))]?)
}

fn add_ends(lines: &mut Vec<Line>) -> Result<(), Memory> {
    for (q, end) in ENDS {
        lines.push(ended(q, end))?;
    }
    Ok(())
}

fn add_waits(lines: &mut Vec<Line>) -> Result<(), Memory> {
    for (q, wait) in WAITS {
        lines.push(waits(q, wait))?;
    }
    Ok(())
}

fn add_moved(alloc: Global, catalog: &Catalog, lines: &mut Vec<Line>) -> Result<(), Fail> {
    for (q, row) in MOVED {
        let (key, _) = placed(alloc, catalog, row)?;
        lines.push(waits(q, Wait::Moved(key)))?;
    }
    Ok(())
}

fn replies(alloc: Global, catalog: &Catalog) -> Result<Vec<Line>, Fail> {
    let mut lines = given(alloc)?;
    add_ends(&mut lines)?;
    add_waits(&mut lines)?;
    add_moved(alloc, catalog, &mut lines)?;
    Ok(lines)
}

fn answer(number: u64, lines: Vec<Line>, order: Vec<u64>) -> Answer {
    Answer {
        number,
        lines: Replies::from_vec(lines),
        order: Order::from_vec(order),
    }
}

#[test]
fn each_reply_has_its_line(rt: HostRuntime) -> Result<(), Fail> {
    let alloc = rt.alloc();
    let catalog = catalog(alloc)?;
    let order = vec![in alloc; 9, 7, 8]?;
    let answer = answer(20, replies(alloc, &catalog)?, order);
    let found = print_answer(alloc, &catalog, &answer)?;
    same(&rt, "all", &found, REPLIES);
    Ok(())
}

#[test]
fn an_empty_order_stands_alone(rt: HostRuntime) -> Result<(), Fail> {
    let alloc = rt.alloc();
    let answer = answer(1, Vec::new(alloc), Vec::new(alloc));
    let mut out = Vec::from_slice(alloc, b"before\n")?;
    append_answer(&mut out, &catalog(alloc)?, &answer)?;
    same(&rt, "empty", &out, "before\nbatch 1\norder\nend 1\n");
    Ok(())
}
