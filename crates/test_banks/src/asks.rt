// Rows of the catalogue `bank`, and calls on it.
ghost use Rattle.std.specs.Prelude.{◌≤◌};

use aria_base::{Arg, Args, Call, Draws, Key, Memory, Part, Parts, Row, Value};
use batch_rules::verdicts::Rule;
use std::alloc::Global;

/// Adds the second number to the account of the first.
pub const ADD: u16 = 0;

/// Puts what the first account holds into the second.
pub const COPY: u16 = 1;

/// Puts the second number into the account of the first.
pub const SET: u16 = 2;

/// Gives what two accounts hold together.
pub const SUM: u16 = 3;

/// Puts the second number into the account that the account of the first names.
pub const HOP: u16 = 4;

/// Deletes the account of the first number. The second is not handed over.
pub const DROP: u16 = 5;

/// A call: the procedure, and two numbers.
pub type Ask = (u16, i64, i64);

/// An account, and what it holds.
pub type Account = (i64, i64);

/// The row of an account, and its key.
pub fn row_of(alloc: Global, (number, amount): Account) -> Result<(Key, Row), Memory> {
    let key = Key {
        table: 0,
        parts: Parts::one(Part::Int(number)),
    };
    let row = Row::from_vec(vec![in alloc; Value::Int(amount)]?);
    Ok((key, row))
}

fn call(alloc: Global, ask: Ask) -> Result<Call, Memory> {
    let (proc, first, second) = ask;
    let mut args = vec![in alloc; Arg::Int(first)]?;
    if proc != DROP {
        args.push(Arg::Int(second))?;
    }
    Ok(Call {
        proc,
        args: Args::from_vec(args),
    })
}

/// These calls.
pub fn calls(alloc: Global, asks: &[Ask]) -> Result<Vec<Call>, Memory> {
    let mut calls = Vec::new(alloc);
    for &ask in asks {
        calls.push(call(alloc, ask)?)?;
    }
    Ok(calls)
}

/// A number from 1 to `most`.
pub fn drawn(draws: &mut Draws, most: u32) -> u32
    requires { (1 ≤ most) × (most ≤ 1000) }
    ensures { (1 ≤ result) × (result ≤ most) }
{
    draws.word() % most + 1
}

/// A call of one of the six procedures on accounts from 1 to 7, which mostly hold such numbers.
pub fn drawn_ask(draws: &mut Draws) -> Ask {
    let proc = (drawn(draws, 6) - 1) as u16;
    let first = i64::from(drawn(draws, 7));
    (proc, first, i64::from(drawn(draws, 7)))
}

/// Either rule.
pub fn drawn_rule(draws: &mut Draws) -> Rule {
    if drawn(draws, 2) == 1 {
        Rule::Plain
    } else {
        Rule::Reorder
    }
}
