// Accounts: one table, whose keys and rows are whole numbers.
ghost use Rattle.std.specs.Prelude.{◌≤◌, length, IfOk};

use aria_base::{Arg, Args, Call, Changes, Key, Keys, Memory, Part, Parts, Request, Row, Value};
use cat_builtin::builtin;
use dep_rules::Sets;
use proc_lang::Catalog;
use std::alloc::Global;
use std::process::Abort;
use std::test::Fail;
use tbl_rows::Tables;

/// Asserts that this holds at this TID, place or number of workers. An assertion in place costs its function several
/// seconds of proof, a generic one more, and a call of this one next to none.
pub fn holds(rt: &impl Abort, what: &str, at: u32, found: bool) {
    assert!(rt; found, "{what} at {at}");
}

/// The key of an account.
pub fn account(number: u32) -> Key {
    Key {
        table: 0,
        parts: Parts::one(Part::Int(i64::from(number))),
    }
}

/// The keys of these accounts.
pub fn accounts(alloc: Global, numbers: &[u32]) -> Result<Keys, Memory> {
    let mut keys = Vec::new(alloc);
    for &number in numbers {
        keys.push(account(number))?;
    }
    Ok(Keys::from_vec(keys))
}

/// The sets of a request by the accounts that it reads and writes.
pub fn sets(alloc: Global, reads: &[u32], writes: &[u32]) -> Result<Sets, Memory> {
    Ok(Sets {
        reads: accounts(alloc, reads)?,
        writes: accounts(alloc, writes)?,
    })
}

/// The row of an account with this amount.
pub fn amount(alloc: Global, amount: u32) -> Result<Row, Memory> {
    Ok(Row::from_vec(vec![in alloc; Value::Int(i64::from(amount))]?))
}

/// The write of an amount to an account.
pub fn change(alloc: Global, number: u32, after: u32) -> Result<Changes, Memory> {
    let row = amount(alloc, after)?;
    Ok(Changes::from_vec(vec![in alloc; (account(number), Some(row))]?))
}

/// The accounts below `count`, each with ten times its number.
pub fn tables(alloc: Global, count: u32) -> Result<Tables, Fail> {
    let mut tables = Tables::new(alloc)?;
    for number in 0..count {
        tables.put(account(number), amount(alloc, number.saturating_mul(10))?)?;
    }
    Ok(tables)
}

/// The catalogue of accounts.
pub fn bank(alloc: Global) -> Result<Catalog, Fail> {
    match builtin(alloc, b"bank")? {
        Some(catalog) => Ok(catalog),
        None => Err(Fail::new("no bank")),
    }
}

/// Of three accounts the one that the request at this place copies.
pub fn source(place: u32) -> u32
    ensures { result ≤ 3 }
{
    place % 3 + 1
}

/// Calls that each copy one of the accounts 1, 2 and 3 to an account of its own, from 10 on.
pub fn copies(alloc: Global, catalog: &Catalog, count: u32) -> Result<Vec<Request>, Fail>
    ensures { IfOk result (λ list. length list.items ≤ count) }
{
    let Some(copy) = catalog.proc(b"copy") else {
        return Err(Fail::new("no such procedure"));
    };
    let mut list = Vec::new(alloc);
    for place in 0..count {
        list.push(copy_at(alloc, copy, place)?)?;
    }
    Ok(list)
}

/// The call of `copy` at this place.
fn copy_at(alloc: Global, copy: u16, place: u32) -> Result<Request, Memory> {
    let from = Arg::Int(i64::from(source(place)));
    let to = Arg::Int(i64::from(place.saturating_add(10)));
    let args = Args::from_vec(vec![in alloc; from, to]?);
    Ok(Request {
        q: u64::from(place).saturating_add(1),
        call: Call { proc: copy, args },
    })
}
