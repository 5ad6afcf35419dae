// What consistent tables of order entry may answer. None takes memory.
ghost use Rattle.std.specs.Prelude.{◌≡◌, [], ◌∷◌};
ghost use Rattle.std.specs.List.{list_all};
ghost use Rattle.cat_builtin.specs.Warehouses as table;
ghost use Rattle.tpcc_routines.specs.Answers as answers;

use crate::columns::{
    CUSTOMER_COLUMNS, CUSTOMER_NUMBERS, LINE_COLUMNS, OPEN_ORDER_COLUMNS, ORDER_COLUMNS,
};
use crate::rows::{district_prefix, line_prefix};
use aria_base::{Key, Part, Row, Value};
use range_rules::Prefix;
use tpcc_audit::{District, part_at};
use tpcc_load::tables::{OPEN_ORDERS, ORDERS};

fn is_number(value: &Value) -> bool
    ensures { result ≡ answers.is_number value.now }
{
    match value {
        Value::Int(_) => true,
        Value::Text(_) => false,
    }
}

fn is_text(value: &Value) -> bool
    ensures { result ≡ answers.is_text value.now }
{
    match value {
        Value::Int(_) => false,
        Value::Text(_) => true,
    }
}

fn is_number_part(part: &Part) -> bool
    ensures { result ≡ answers.is_number_part part.now }
{
    match part {
        Part::Int(_) => true,
        Part::Text(_) => false,
    }
}

/// Whether all values are numbers.
fn all_numbers(values: &[Value]) -> bool
    ensures { result ≡ list_all answers.is_number values.now }
{
    for value in values {
        if !is_number(value) {
            return false;
        }
    }
    true
}

/// Whether all values are texts.
fn all_texts(values: &[Value]) -> bool
    ensures { result ≡ list_all answers.is_text values.now }
{
    for value in values {
        if !is_text(value) {
            return false;
        }
    }
    true
}

/// Whether all parts are numbers.
fn all_number_parts(parts: &[Part]) -> bool
    ensures { result ≡ list_all answers.is_number_part parts.now }
{
    for part in parts {
        if !is_number_part(part) {
            return false;
        }
    }
    true
}

/// Whether the row has so many columns, all of them numbers.
pub(crate) fn are_numbers(columns: usize, row: &Row) -> bool
    ensures { result ≡ answers.are_numbers columns row.now }
{
    let values = row.as_slice();
    if values.len() != columns {
        return false;
    }
    all_numbers(values)
}

/// Whether the row has the columns of a customer.
pub(crate) fn is_customer(row: &Row) -> bool
    ensures { result ≡ answers.is_customer row.now }
{
    let values = row.as_slice();
    if values.len() != CUSTOMER_COLUMNS {
        return false;
    }
    if !all_numbers(&values[..CUSTOMER_NUMBERS]) {
        return false;
    }
    all_texts(&values[CUSTOMER_NUMBERS..])
}

/// Whether the key is under the prefix and has one number more, and the row so many columns, all of them numbers.
fn is_row_under(prefix: &Prefix, columns: usize, key: &Key, row: &Row) -> bool
    ensures { result ≡ answers.is_row_under prefix.now columns key.now row.now }
{
    if !prefix.covers(key) {
        return false;
    }
    let parts = key.parts.as_slice();
    if parts.len() != prefix.parts.as_slice().len() + 1 {
        return false;
    }
    if !all_number_parts(parts) {
        return false;
    }
    are_numbers(columns, row)
}

fn is_behind(before: Option<i64>, number: i64) -> bool
    ensures { result ≡ answers.is_behind before number }
{
    match before {
        Some(before) => before < number,
        None => true,
    }
}

/// Whether a scan of the prefix may find these rows, where rows have so many columns, all of them numbers. Their keys
/// have one number more than the prefix, and each is behind the one before.
fn are_rows(prefix: &Prefix, columns: usize, rows: &[(Key, Row)]) -> bool
    ensures { result ≡ answers.are_rows prefix.now columns rows.now }
{
    let mut before = None;
    for (key, row) in rows {
        let number = part_at(key, prefix.parts.as_slice().len());
        if !is_row_under(prefix, columns, key, row) {
            return false;
        }
        if !is_behind(before, number) {
            return false;
        }
        before = Some(number);
    }
    true
}

/// Whether a scan of a district's open orders may find these rows.
pub(crate) fn are_open_orders(at: District, rows: &[(Key, Row)]) -> bool
    ensures { result ≡ answers.are_rows (answers.prefix_at table.open_orders (at.w ∷ at.d ∷ [])) 0 rows.now }
{
    are_rows(&district_prefix(OPEN_ORDERS, at), OPEN_ORDER_COLUMNS, rows)
}

/// Whether a scan of a district's orders may find these rows.
pub(crate) fn are_orders(at: District, rows: &[(Key, Row)]) -> bool
    ensures { result ≡ answers.are_rows (answers.prefix_at table.orders (at.w ∷ at.d ∷ [])) 5 rows.now }
{
    are_rows(&district_prefix(ORDERS, at), ORDER_COLUMNS, rows)
}

/// Whether a scan of an order's lines may find these rows.
pub(crate) fn are_lines(at: District, order: i64, rows: &[(Key, Row)]) -> bool
    ensures { result ≡ answers.are_rows (answers.prefix_at table.order_lines (at.w ∷ at.d ∷ order ∷ [])) 5 rows.now }
{
    are_rows(&line_prefix(at, order), LINE_COLUMNS, rows)
}
