// Statements and blocks read from JSON.
ghost use Rattle.std.specs.Prelude.{◌≡◌, ◌≤◌, length, IfOk};
ghost use Rattle.serde_json.specs.View.{view};
ghost use Rattle.cat_forms.specs.StepWalks.{number_of, table_in, code, indexes, terms_at};
ghost use Rattle.cat_read.specs.Places.{path_of};
ghost use Rattle.cat_read.specs.Faults.{Reads};

use crate::faults::Fault;
use crate::places::{JsonPlace, fault_at};
use crate::terms::{index, number_between, read_expr};
use aria_base::{Memory, Table};
use cat_forms::NO_TABLE;
use proc_lang::{Exprs, GREATEST_CODE, MOST_TABLES, Regs, table_named};
use serde_json::Value;
use std::alloc::Global;

/// The number of the table with the name that the value says; `NO_TABLE` where no table has it.
pub fn table_number(tables: &[Table], value: &Value) -> Option<u16>
    requires { length tables.now ≤ MOST_TABLES }
    ensures { result ≡ table_in tables.now (view value.now) }
{
    let name = value.as_str()?;
    Some(number_of(tables, name.as_bytes()))
}

/// The number of the table with this name, or `NO_TABLE`.
fn number_of(tables: &[Table], name: &[u8]) -> u16
    requires { length tables.now ≤ MOST_TABLES }
    ensures { result ≡ number_of tables.now name.now }
{
    match table_named(tables, name) {
        Some(place) => place as u16,
        None => NO_TABLE,
    }
}

/// The code of a failure.
pub fn code(value: &Value) -> Option<u16>
    ensures { result ≡ code (view value.now) }
{
    match number_between(1, u32::from(GREATEST_CODE), value) {
        Some(number) => Some(number as u16),
        None => None,
    }
}

/// The numbers of an array.
pub fn indexes(alloc: Global, value: &Value) -> Result<Option<Regs>, Memory>
    ensures { IfOk result (λ o. o ≡ indexes (view value.now)) }
{
    let Some(items) = value.as_array() else {
        return Ok(None);
    };
    let mut numbers = Vec::with_capacity(alloc, items.len())?;
    for item in items {
        match index(item) {
            Some(number) => numbers.push(number)?,
            None => return Ok(None),
        }
    }
    Ok(Some(Regs::from_vec(numbers)))
}

/// The expressions of the operand at this place.
pub fn read_exprs(
    alloc: Global,
    place: &JsonPlace<'_>,
    at: usize,
    value: &Value,
) -> Result<Exprs, Fault>
    ensures { Reads (λ ts. ts) result (terms_at (path_of place.now) at (view value.now)) }
{
    let Some(items) = value.as_array() else {
        return Err(fault_at(alloc, place));
    };
    let list = JsonPlace::Item(place, at);
    let mut exprs = Vec::with_capacity(alloc, items.len())?;
    for (count, item) in items.iter().enumerate() {
        exprs.push(read_expr(alloc, &JsonPlace::Item(&list, count), 1, item)?)?;
    }
    Ok(Exprs::from_vec(exprs))
}
