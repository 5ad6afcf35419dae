// The database that a workload begins with.
ghost use Rattle.std.specs.Prelude.{◌≡◌, ◌≤◌, ◌<◌, ◌^◌, IfOk, replicate, length};
ghost use Rattle.std.specs.FinMap as fin;
ghost use Rattle.aria_base.specs.Orders.{key_cmp};
ghost use Rattle.aria_base.specs.declared.values.Value.TheVariants as value;
ghost use Rattle.cat_builtin.specs.Ycsb.{ycsb};
ghost use Rattle.load_gen.specs.Ycsb.{IsWithin, key_of, rows_from, zeros};

use crate::settings::Ycsb;
use aria_base::{Key, Memory, Part, Parts, Row, Value};
use cat_builtin::builtin;
use proc_lang::Catalog;
use std::alloc::Global;
use tbl_rows::Tables;

/// How many columns a row has.
const COLUMNS: usize = 10;

/// The catalogue `ycsb`, and its one table with the keys below `keys`, each with ten zeros.
pub fn head(alloc: Global, settings: &Ycsb) -> Result<(Catalog, Tables), Memory>
    requires { IsWithin settings.now }
    ensures catalog { IfOk result (λ head. head.0 ≡ ycsb) }
    ensures tables { IfOk result (λ head. head.1 ≡ fin.from_entries {R = key_cmp} (rows_from 0 settings.now.keys)) }
{
    let Some(catalog) = builtin(alloc, b"ycsb")? else {
        unreachable!();
    };
    Ok((catalog, rows(alloc, settings.keys)?))
}

/// The tables with so many keys.
fn rows(alloc: Global, keys: u32) -> Result<Tables, Memory>
    ensures { IfOk result (λ tables. tables ≡ fin.from_entries {R = key_cmp} (rows_from 0 keys)) }
{
    let mut tables = Tables::new(alloc)?;
    tables.reserve(keys as usize);
    let mut left = keys;
    while left > 0 {
        left -= 1;
        tables.put(key(left), row(alloc)?)?;
    }
    Ok(tables)
}

/// The key of this number.
fn key(number: u32) -> Key
    ensures { result ≡ key_of number }
{
    Key {
        table: 0,
        parts: Parts::one(Part::Int(i64::from(number))),
    }
}

/// A row of zeros.
fn row(alloc: Global) -> Result<Row, Memory>
    ensures { IfOk result (λ row. row ≡ zeros) }
{
    let mut columns = Vec::with_capacity(alloc, COLUMNS)?;
    for _ in 0..COLUMNS {
        columns.push(Value::Int(0))?;
    }
    Ok(Row::from_vec(columns))
}
