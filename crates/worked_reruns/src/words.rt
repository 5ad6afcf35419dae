// What the runs come to, in words.
use aria_base::{Key, Part, Row, Value};
use proc_exec::Late;
use proc_lang::End;
use std::alloc::{AllocError, Global};
use std::process::Abort;

/// Asserts that these words were found by so many workers, in waves or by handed rows. An assertion in place costs its
/// function several seconds of proof, and a call of this one next to none.
pub fn same(rt: &impl Abort, workers: u32, batons: bool, found: &str, wanted: &str) {
    let alike = found == wanted;
    assert!(rt;
        alike,
        "{found}, and not {wanted}, by {workers}, batons: {batons}"
    );
}

fn number_of(value: Option<&Value>) -> i64 {
    match value {
        Some(Value::Int(number)) => *number,
        _ => -1,
    }
}

fn account_of(key: &Key) -> i64 {
    match key.parts.as_slice().first() {
        Some(Part::Int(number)) => *number,
        _ => -1,
    }
}

/// What became of one request.
pub fn late_words(alloc: Global, late: &Late) -> Result<String, AllocError> {
    match late {
        Late::Moved(key) => {
            let account = account_of(key);
            format!(in alloc; "moved {account}")
        }
        Late::Finished(End::Done(given)) => {
            let number = number_of(given.as_slice().first());
            format!(in alloc; "done {number}")
        }
        Late::Finished(End::Back(code)) => format!(in alloc; "back {code}"),
        Late::Finished(End::Trap(_)) => String::from_str(alloc, "trap"),
    }
}

/// What became of each.
pub fn lates_words(alloc: Global, lates: &[Late]) -> Result<String, AllocError> {
    let mut words = String::new(alloc);
    for late in lates {
        let late = late_words(alloc, late)?;
        write!(words, "{late}; ")?;
    }
    Ok(words)
}

/// The numbers with a space behind each.
pub fn numbers_words(alloc: Global, numbers: &[u32]) -> Result<String, AllocError> {
    let mut words = String::new(alloc);
    for number in numbers {
        write!(words, "{number} ")?;
    }
    Ok(words)
}

fn row_words(alloc: Global, key: &Key, row: &Row) -> Result<String, AllocError> {
    let account = account_of(key);
    let amount = number_of(row.as_slice().first());
    format!(in alloc; "{account} = {amount}; ")
}

/// The accounts with what they hold.
pub fn rows_words(alloc: Global, rows: &[(&Key, &Row)]) -> Result<String, AllocError> {
    let mut words = String::new(alloc);
    for (key, row) in rows {
        words.push_str(&row_words(alloc, key, row)?)?;
    }
    Ok(words)
}
