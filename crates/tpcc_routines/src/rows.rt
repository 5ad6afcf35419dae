// Keys, prefixes and rows of the tables.
ghost use Rattle.std.specs.Prelude.{◌≡◌, [], ◌∷◌, IfOk};
ghost use Rattle.cat_builtin.specs.Warehouses as table;
ghost use Rattle.tpcc_routines.specs.Answers.{key_at, prefix_at};
ghost use Rattle.tpcc_routines.specs.Routines.{with_number};

use aria_base::{Duplicate, Key, Memory, Part, Parts, Row, Value};
use range_rules::{Front, Prefix};
use std::alloc::Global;
use tpcc_audit::District;
use tpcc_load::tables::{DISTRICTS, NAME_PLACES, ORDER_LINES, STOCKS};

/// The key of a district's row.
pub(crate) fn district_key(at: District) -> Key
    ensures { result ≡ key_at table.districts (at.w ∷ at.d ∷ []) }
{
    Key {
        table: DISTRICTS,
        parts: Parts::two(Part::Int(at.w), Part::Int(at.d)),
    }
}

/// The key of a table whose rows are told by the district and one number more. An error: there was no memory.
pub(crate) fn key_in(alloc: Global, table: u16, at: District, number: i64) -> Result<Key, Memory>
    ensures { IfOk result (λ key. key ≡ key_at table (at.w ∷ at.d ∷ number ∷ [])) }
{
    let (w, d) = (Part::Int(at.w), Part::Int(at.d));
    let parts = Parts::three(alloc, w, d, Part::Int(number))?;
    Ok(Key { table, parts })
}

/// The key of a place among those of a name. An error: there was no memory.
pub(crate) fn place_key(alloc: Global, at: District, name: i64, place: i64) -> Result<Key, Memory>
    ensures { IfOk result (λ key. key ≡ key_at table.name_places (at.w ∷ at.d ∷ name ∷ place ∷ [])) }
{
    let parts = Parts::four(
        alloc,
        Part::Int(at.w),
        Part::Int(at.d),
        Part::Int(name),
        Part::Int(place),
    )?;
    Ok(Key {
        table: NAME_PLACES,
        parts,
    })
}

/// The key of an item's stock in a warehouse.
pub(crate) fn stock_key(w: i64, item: i64) -> Key
    ensures { result ≡ key_at table.stocks (w ∷ item ∷ []) }
{
    Key {
        table: STOCKS,
        parts: Parts::two(Part::Int(w), Part::Int(item)),
    }
}

/// What the keys of a district's rows in a table begin with.
pub(crate) fn district_prefix(table: u16, at: District) -> Prefix
    ensures { result ≡ prefix_at table (at.w ∷ at.d ∷ []) }
{
    Prefix {
        table,
        parts: Front::two(Part::Int(at.w), Part::Int(at.d)),
    }
}

/// What the keys of an order's lines begin with.
pub(crate) fn line_prefix(at: District, order: i64) -> Prefix
    ensures { result ≡ prefix_at table.order_lines (at.w ∷ at.d ∷ order ∷ []) }
{
    Prefix {
        table: ORDER_LINES,
        parts: Front::three(Part::Int(at.w), Part::Int(at.d), Part::Int(order)),
    }
}

/// The row with another number in this column, from 0, if it has that column.
pub(crate) fn with_number(
    alloc: Global,
    row: &Row,
    column: usize,
    number: i64,
) -> Result<Row, Memory>
    ensures { IfOk result (λ changed. changed ≡ with_number column number row.now) }
{
    let mut values = row.duplicate(alloc)?.into_vec();
    if column < values.len() {
        values[column] = Value::Int(number);
    }
    Ok(Row::from_vec(values))
}
