// A machine of calls on a few accounts.
use aria_base::{
    Arg, Args, Call, Key, MOST_ARGS, MOST_REQUESTS, Memory, Part, Parts, Request, Row, Value,
};
use cat_builtin::builtin;
use core_machine::Core;
use dep_rules::Rule;
use proc_lang::Catalog;
use std::alloc::Global;
use std::test::Fail;
use tbl_rows::Tables;

/// A call: the name of the procedure, and its arguments.
pub type Said<'a> = (&'a str, &'a [i64]);

/// The machine before the first event of these calls, on the accounts 1, 2 and 3 with 10, 20 and 30.
pub fn machine(alloc: Global, calls: &[Said], rule: Rule) -> Result<Core, Fail> {
    let Some(catalog) = builtin(alloc, b"bank")? else {
        return Err(Fail::new("no bank"));
    };
    let list = requests(alloc, &catalog, calls)?;
    if list.len() > MOST_REQUESTS {
        return Err(Fail::new("too many requests"));
    }
    let core = Core::begin(alloc, catalog, accounts(alloc)?, list, rule)?;
    Ok(core)
}

/// The accounts and what each has.
pub fn amounts(alloc: Global, tables: &Tables) -> Result<Vec<(i64, i64)>, Memory> {
    let mut amounts = Vec::new(alloc);
    for (key, row) in tables.rows()? {
        if let ([Part::Int(account)], [Value::Int(amount)]) = (
            key.parts.as_slice(),
            row.as_slice(),
        ) {
            amounts.push((*account, *amount))?;
        }
    }
    Ok(amounts)
}

fn accounts(alloc: Global) -> Result<Tables, Memory> {
    let mut tables = Tables::new(alloc)?;
    for (account, amount) in [(1, 10), (2, 20), (3, 30)] {
        let parts = Parts::from_vec(vec![in alloc; Part::Int(account)]?);
        let row = Row::from_vec(vec![in alloc; Value::Int(amount)]?);
        tables.put(Key { table: 0, parts }, row)?;
    }
    Ok(tables)
}

fn requests(alloc: Global, catalog: &Catalog, calls: &[Said]) -> Result<Vec<Request>, Fail> {
    let mut list = Vec::new(alloc);
    let mut q = 0u64;
    for (name, numbers) in calls {
        q = q.saturating_add(1);
        let Some(proc) = catalog.proc(name.as_bytes()) else {
            return Err(Fail::new("no such procedure"));
        };
        let args = arguments(alloc, numbers)?;
        list.push(Request {
            q,
            call: Call { proc, args },
        })?;
    }
    Ok(list)
}

fn arguments(alloc: Global, numbers: &[i64]) -> Result<Args, Fail> {
    let mut args = Vec::new(alloc);
    for number in numbers {
        args.push(Arg::Int(*number))?;
    }
    if args.len() > MOST_ARGS {
        return Err(Fail::new("too many arguments"));
    }
    Ok(Args::from_vec(args))
}
