// Databases of a few rows.
use aria_base::{Key, Part, Parts, Row, Txt, Value};
use std::alloc::Global;
use std::process::Abort;
use tbl_rows::Tables;

/// What a test says that finds no memory.
pub const MEMORY: &str = "memory";

/// A row of numbers: its table, the parts of its key, and its columns.
pub type Line = (u16, &'static [i64], &'static [i64]);

/// One district, which had one order of one line that is still open. Its customer, of number 1, made two payments.
const SOLD: [Line; 8] = [
    (0, &[1], &[500, 32_500]),
    (1, &[1, 1], &[700, 32_500, 3]),
    (3, &[2], &[1, 1, 1, 1, 1, 0, 2_500]),
    (4, &[1, 1, 2], &[]),
    (5, &[1, 1, 2], &[1, 0, 0, 1, 1]),
    (6, &[1, 1, 2, 1], &[1, 1, 0, 5, 5_000]),
    (7, &[1], &[1_000, 1]),
    (8, &[1, 1], &[100, 5, 1, 0, 1]),
];

/// The key of a table with these parts, of which there are 1 to 5.
pub fn key(rt: &impl Abort, alloc: Global, table: u16, numbers: &[i64]) -> Key {
    let mut parts = Vec::new(alloc);
    for number in numbers {
        parts.push(Part::Int(*number)).expect(rt, MEMORY);
    }
    assert!(rt; !parts.is_empty() && parts.len() <= 5, "so many parts");
    Key {
        table,
        parts: Parts::from_vec(parts),
    }
}

/// The row of these columns, of which there are at most 16.
pub fn row(rt: &impl Abort, alloc: Global, numbers: &[i64]) -> Row {
    let mut values = Vec::new(alloc);
    for number in numbers {
        values.push(Value::Int(*number)).expect(rt, MEMORY);
    }
    assert!(rt; values.len() <= 16, "so many columns");
    Row::from_vec(values)
}

/// The row of a customer with this balance, who made two payments and of whom a text is known.
fn customer(rt: &impl Abort, alloc: Global, balance: i64) -> Row {
    let mut values = Vec::new(alloc);
    for number in &[7, 1, 1, 1_000, balance, 3_500, 2] {
        values.push(Value::Int(*number)).expect(rt, MEMORY);
    }
    let text = Txt::of(alloc, b"1 1 1 1 1 2500 ").expect(rt, "a text");
    values.push(Value::Text(text)).expect(rt, MEMORY);
    assert!(rt; values.len() <= 16, "so many columns");
    Row::from_vec(values)
}

/// Puts a row.
pub fn put(rt: &impl Abort, alloc: Global, tables: &mut Tables, line: &Line) {
    let key = key(rt, alloc, line.0, line.1);
    let row = row(rt, alloc, line.2);
    tables.put(key, row).expect(rt, MEMORY);
}

/// Puts a customer of the one district.
pub fn put_customer(rt: &impl Abort, alloc: Global, tables: &mut Tables, c: i64, balance: i64) {
    let key = key(rt, alloc, 2, &[1, 1, c]);
    let row = customer(rt, alloc, balance);
    tables.put(key, row).expect(rt, MEMORY);
}

/// The tables of [`SOLD`], whose customer has a balance of -3,500.
pub fn sold(rt: &impl Abort, alloc: Global) -> Tables {
    let mut tables = Tables::new(alloc).expect(rt, MEMORY);
    for line in &SOLD {
        put(rt, alloc, &mut tables, line);
    }
    put_customer(rt, alloc, &mut tables, 1, -3_500);
    tables
}
