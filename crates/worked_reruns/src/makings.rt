// What an example is run on: a catalogue with one table of accounts, their rows, and requests that wait.
use aria_base::{Arg, Args, Call, Key, Keys, Memory, Part, Parts, Request, Row, Value};
use cat_read::read_catalog;
use proc_exec::{Declared, Waiting};
use proc_lang::Catalog;
use std::alloc::Global;
use std::test::Fail;
use tbl_rows::Tables;

/// Adds to an account that is there.
pub const ADD: u16 = 0;

/// Puts what the first account holds into the second.
pub const COPY: u16 = 1;

/// Puts a number into an account.
pub const SET: u16 = 2;

/// Puts a number into the account that the first one names.
pub const HOP: u16 = 3;

const TEXT: &str = concat!(
    r#"{"tables":[{"name":"acct","key":["int"],"cols":["int"]}],"procs":["#,
    r#"{"name":"add","args":["int","int"],"regs":["int"],"body":["#,
    r#"["need","acct",[["arg",0]],[0],1],"#,
    r#"["put","acct",[["arg",0]],[["add",["reg",0],["arg",1]]]],"#,
    r#"["give",["add",["reg",0],["arg",1]]]]},"#,
    r#"{"name":"copy","args":["int","int"],"regs":["int"],"body":["#,
    r#"["need","acct",[["arg",0]],[0],1],"#,
    r#"["put","acct",[["arg",1]],[["reg",0]]],"#,
    r#"["give",["reg",0]]]},"#,
    r#"{"name":"set","args":["int","int"],"regs":[],"body":["#,
    r#"["put","acct",[["arg",0]],[["arg",1]]],"#,
    r#"["give",["arg",1]]]},"#,
    r#"{"name":"hop","args":["int","int"],"regs":["int"],"body":["#,
    r#"["need","acct",[["arg",0]],[0],1],"#,
    r#"["put","acct",[["reg",0]],[["arg",1]]],"#,
    r#"["give",["arg",1]]]}"#,
    r#"]}"#,
);

/// The procedure, its two arguments, and the accounts that are declared for reading and for writing.
pub type Again = (u16, [i64; 2], &'static [i64], &'static [i64]);

pub fn catalog(alloc: Global) -> Result<Catalog, Fail> {
    Ok(read_catalog(alloc, TEXT.as_bytes())?)
}

fn key(alloc: Global, account: i64) -> Result<Key, Memory> {
    let parts = Parts::from_vec(vec![in alloc; Part::Int(account)]?);
    Ok(Key { table: 0, parts })
}

fn keys(alloc: Global, accounts: &[i64]) -> Result<Keys, Memory> {
    let mut keys = Vec::new(alloc);
    for &account in accounts {
        keys.push(key(alloc, account)?)?;
    }
    Ok(Keys::from_vec(keys))
}

/// Accounts with what they hold.
pub fn tables(alloc: Global, rows: &[(i64, i64)]) -> Result<Tables, Memory> {
    let mut tables = Tables::new(alloc)?;
    for &(account, amount) in rows {
        let row = Row::from_vec(vec![in alloc; Value::Int(amount)]?);
        tables.put(key(alloc, account)?, row)?;
    }
    Ok(tables)
}

fn call(alloc: Global, proc: u16, [first, second]: [i64; 2]) -> Result<Call, Memory> {
    let args = Args::from_vec(vec![in alloc; Arg::Int(first), Arg::Int(second)]?);
    Ok(Call { proc, args })
}

fn one(alloc: Global, q: u64, again: &Again) -> Result<Waiting, Memory> {
    let (proc, args, reads, writes) = *again;
    let call = call(alloc, proc, args)?;
    let declared = Declared {
        reads: keys(alloc, reads)?,
        writes: keys(alloc, writes)?,
    };
    Ok(Waiting {
        request: Request { q, call },
        declared,
    })
}

/// Requests that wait, with the numbers from 1.
pub fn waiting(alloc: Global, list: &[Again]) -> Result<Vec<Waiting>, Memory> {
    let mut waiting = Vec::new(alloc);
    let mut q = 0_u64;
    for again in list {
        q = q.wrapping_add(1);
        waiting.push(one(alloc, q, again)?)?;
    }
    Ok(waiting)
}

/// So many requests that each wait to add 1 to account 1.
pub fn crowd(alloc: Global, count: u64) -> Result<Vec<Waiting>, Memory> {
    let mut waiting = Vec::new(alloc);
    for q in 0..count {
        waiting.push(one(alloc, q, &(ADD, [1, 1], &[1], &[1]))?)?;
    }
    Ok(waiting)
}
