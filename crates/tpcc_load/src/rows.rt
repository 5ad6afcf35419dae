// How a row is laid into the tables.
ghost use Rattle.std.specs.Prelude.{◌≡◌, ◌≤◌, length, map, [], ◌∷◌, pos, IfOk, OnOk};
ghost use Rattle.aria_base.specs.declared.limits.TheConstants.{MOST_PARTS, MOST_COLUMNS};
ghost use Rattle.aria_base.specs.declared.keys.Part.TheVariants as part;
ghost use Rattle.aria_base.specs.declared.values.Value.TheVariants as value;
ghost use Rattle.tpcc_load.specs.Rows.{laid, row_of, key_of};

use aria_base::{Key, Memory, Part, Parts, Row, Value};
use std::alloc::Global;
use tbl_rows::Tables;

/// Sets the row of a table at these parts to these columns.
pub(crate) fn put(
    alloc: Global,
    tables: &mut Tables,
    table: u16,
    parts: &[u32],
    columns: &[i64],
) -> Result<(), Memory>
    requires some { 1 ≤ length parts.now }
    requires few { length parts.now ≤ MOST_PARTS }
    requires columns { length columns.now ≤ MOST_COLUMNS }
    ensures { OnOk result (tables.new ≡ laid tables.old (row_of table parts.now columns.now ∷ [])) }
{
    let row = Row::from_vec(values(alloc, columns)?);
    tables.put(key(alloc, table, parts)?, row)?;
    Ok(())
}

/// The key of a table with these parts.
pub(crate) fn key(alloc: Global, table: u16, parts: &[u32]) -> Result<Key, Memory>
    requires some { 1 ≤ length parts.now }
    requires few { length parts.now ≤ MOST_PARTS }
    ensures { IfOk result (λ key. key ≡ key_of table parts.now) }
{
    let mut numbers = Vec::with_capacity(alloc, parts.len())?;
    for part in parts {
        numbers.push(Part::Int(i64::from(*part)))?;
    }
    Ok(Key {
        table,
        parts: Parts::from_vec(numbers),
    })
}

/// These numbers as values.
pub(crate) fn values(alloc: Global, columns: &[i64]) -> Result<Vec<Value>, Memory>
    ensures { IfOk result (λ values. values.items ≡ map value.Int columns.now) }
{
    let mut values = Vec::with_capacity(alloc, columns.len() + 1)?;
    for column in columns {
        values.push(Value::Int(*column))?;
    }
    Ok(values)
}
