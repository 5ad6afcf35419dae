// What a row tells an audit.
ghost use Rattle.std.specs.Prelude.{◌≡◌};
ghost use Rattle.tpcc_audit.specs.Facts as facts;

use aria_base::{Key, Part, Row, Value};
use tpcc_load::tables::{DISTRICTS, OPEN_ORDERS, ORDER_LINES, ORDERS, WAREHOUSES};

/// A district, by its warehouse's number and its own.
#[derive(Clone, Copy, Debug, PartialEq, Eq, PartialOrd, Ord)]
pub struct District {
    /// The warehouse's number.
    pub w: i64,
    /// The district's own number.
    pub d: i64,
}

/// A warehouse's row.
#[derive(Clone, Copy, Debug, PartialEq, Eq)]
pub struct WarehouseRow {
    /// The warehouse's number.
    pub w: i64,
    /// What was paid to it this year, in cents.
    pub ytd: i64,
}

/// A district's row.
#[derive(Clone, Copy, Debug, PartialEq, Eq)]
pub struct DistrictRow {
    /// Which district it is.
    pub at: District,
    /// What was paid to it this year, in cents.
    pub ytd: i64,
    /// The number that its next order gets.
    pub next: i64,
}

/// What a row tells.
#[derive(Clone, Copy, Debug, PartialEq, Eq)]
pub enum Fact {
    /// There is a warehouse.
    Warehouse(WarehouseRow),
    /// There is a district.
    District(DistrictRow),
    /// An order of this number was not delivered yet.
    Open {
        /// Of which district.
        at: District,
        /// The order's number.
        order: i64,
    },
    /// There is an order of this number, which says that it has so many lines.
    Order {
        /// Of which district.
        at: District,
        /// The order's number.
        order: i64,
        /// How many lines it is to have.
        lines: i64,
    },
    /// An order has a line.
    Line {
        /// Of which district.
        at: District,
    },
    /// Nothing that an audit looks at.
    Other,
}

/// The number that a part of a key is, from the left and from 0; 0 where there is none. No memory.
pub fn part_at(key: &Key, at: usize) -> i64
    ensures { result ≡ facts.part_at key.now.parts at }
{
    match key.parts.as_slice().get(at) {
        Some(Part::Int(number)) => *number,
        _ => 0,
    }
}

/// The number in a column, from the left and from 0; 0 where there is none. No memory.
pub fn column_at(row: &Row, at: usize) -> i64
    ensures { result ≡ facts.column_at row.now at }
{
    match row.as_slice().get(at) {
        Some(Value::Int(number)) => *number,
        _ => 0,
    }
}

/// The district that a key begins with.
fn district_of(key: &Key) -> District
    ensures { result ≡ facts.district_at key.now.parts }
{
    District {
        w: part_at(key, 0),
        d: part_at(key, 1),
    }
}

/// What a row at this key tells.
pub(crate) fn fact_of(key: &Key, row: &Row) -> Fact
    ensures { result ≡ facts.fact_of (key.now, row.now) }
{
    match key.table {
        WAREHOUSES => Fact::Warehouse(WarehouseRow {
            w: part_at(key, 0),
            ytd: column_at(row, 1),
        }),
        DISTRICTS => Fact::District(DistrictRow {
            at: district_of(key),
            ytd: column_at(row, 1),
            next: column_at(row, 2),
        }),
        OPEN_ORDERS => Fact::Open {
            at: district_of(key),
            order: part_at(key, 2),
        },
        ORDERS => Fact::Order {
            at: district_of(key),
            order: part_at(key, 2),
            lines: column_at(row, 3),
        },
        ORDER_LINES => Fact::Line {
            at: district_of(key),
        },
        _ => Fact::Other,
    }
}
