// What a bank's batches print, written by itself and not by the code that the program prints with.
use crate::outcomes::MEMORY;
use aria_base::{Key, Part, Row, Value};
use batch_core::{Answer, Reply, Wait};
use proc_lang::{End, Trap};
use std::process::Abort;
use test_banks::{Ask, DROP, Plain};

/// The procedures of the bank, in the order of their numbers.
const PROCS: [&str; 6] = ["add", "copy", "set", "sum", "hop", "drop"];

/// The number in a column; the bank has no text.
fn number_of(value: Option<&Value>) -> i64 {
    match value {
        Some(Value::Int(number)) => *number,
        _ => -1,
    }
}

fn account_of(key: &Key) -> i64 {
    match key.parts.as_slice().first() {
        Some(Part::Int(number)) => *number,
        _ => -1,
    }
}

fn trap_word(trap: Trap) -> &'static str {
    match trap {
        Trap::Overflow => "overflow",
        Trap::Zero => "zero",
        Trap::Absent => "absent",
        Trap::Long => "long",
        Trap::Many => "many",
    }
}

/// Appends the line of a request.
pub fn append_ask(rt: &impl Abort, text: &mut String, (proc, first, second): Ask) {
    let name = PROCS.get(usize::from(proc)).unwrap_or(&"?");
    if proc == DROP {
        write!(text, "tx {name} {first}").expect(rt, MEMORY);
    } else {
        write!(text, "tx {name} {first} {second}").expect(rt, MEMORY);
    }
}

fn append_end(rt: &impl Abort, text: &mut String, end: &End) {
    match end {
        End::Done(given) => {
            text.push_str(" ok").expect(rt, MEMORY);
            for value in given.as_slice() {
                let number = number_of(Some(value));
                write!(text, " {number}").expect(rt, MEMORY);
            }
        }
        End::Back(code) => write!(text, " back {code}").expect(rt, MEMORY),
        End::Trap(trap) => {
            let trap = trap_word(*trap);
            write!(text, " trap {trap}").expect(rt, MEMORY);
        }
    }
}

fn append_wait(rt: &impl Abort, text: &mut String, wait: &Wait) {
    match wait {
        Wait::Waw(waw) => write!(text, " wait waw {waw}").expect(rt, MEMORY),
        Wait::Raw(raw) => write!(text, " wait raw {raw}").expect(rt, MEMORY),
        Wait::Both(raw, war) => write!(text, " wait both {raw} {war}").expect(rt, MEMORY),
        Wait::Moved(key) => {
            let account = account_of(key);
            write!(text, " wait moved acct {account}").expect(rt, MEMORY);
        }
    }
}

/// Appends an answer.
pub fn append_answer(rt: &impl Abort, text: &mut String, answer: &Answer) {
    let number = answer.number;
    write!(text, "batch {number}\n").expect(rt, MEMORY);
    for line in answer.lines.as_slice() {
        let q = line.q;
        write!(text, "{q}").expect(rt, MEMORY);
        match &line.reply {
            Reply::Ended(end) => append_end(rt, text, end),
            Reply::Waits(wait) => append_wait(rt, text, wait),
        }
        text.push_str("\n").expect(rt, MEMORY);
    }
    text.push_str("order").expect(rt, MEMORY);
    for q in answer.order.as_slice() {
        write!(text, " {q}").expect(rt, MEMORY);
    }
    write!(text, "\nend {number}\n").expect(rt, MEMORY);
}

/// Appends the rows as they stand behind the last batch.
pub fn append_state(rt: &impl Abort, text: &mut String, plain: &Plain) {
    let batches = plain.batches;
    write!(text, "state {batches}\n").expect(rt, MEMORY);
    for (key, row) in plain.tables.rows().expect(rt, MEMORY) {
        append_row(rt, text, key, row);
    }
    text.push_str("end state\n").expect(rt, MEMORY);
}

/// Appends the line of an account.
fn append_row(rt: &impl Abort, text: &mut String, key: &Key, row: &Row) {
    let account = account_of(key);
    let amount = number_of(row.as_slice().first());
    write!(text, "row acct {account} = {amount}\n").expect(rt, MEMORY);
}
