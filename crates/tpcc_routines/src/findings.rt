// Whether tables of order entry are sound.
ghost use Rattle.std.specs.Prelude.{◌≡◌, map, IfOk};
ghost use Rattle.std.specs.Option.{option_copied};
ghost use Rattle.std.specs.FinMap as fin;
ghost use Rattle.std.specs.Map.Iter.{deref_pair};
ghost use Rattle.tpcc_routines.specs.Sound as sound;

use crate::columns::D_NEXT_O_ID;
use crate::rows::district_key;
use aria_base::{Key, Memory, Row};
use std::alloc::Global;
use tbl_rows::Tables;
use tpcc_audit::{Audit, District, audit, column_at, part_at};
use tpcc_load::tables::ORDER_LINES;

/// The condition that follows on those of the audit.
const LINES: u8 = 5;

/// Whether tables are sound.
#[derive(Clone, Copy, Debug, PartialEq, Eq)]
pub enum Soundness {
    /// The audit holds, and each line whose district has a row belongs to an order that this district has numbered.
    Sound,
    /// The first failure.
    Fails {
        /// The number of the condition: 1 to 4 are those of the audit, and 5 is that of the lines.
        condition: u8,
        /// The warehouse's number.
        w: i64,
        /// The district's number; 0 where the condition is one of a warehouse.
        d: i64,
    },
}

/// Whether the tables are sound, or where they first are not: at the least condition, and of the lines at the first
/// one in the order of the keys. It costs as much as an audit, and a look at a district for each line.
pub fn first_failure(alloc: Global, tables: &Tables) -> Result<Soundness, Memory>
    ensures { IfOk result (λ found. found ≡ sound.soundness tables.now) }
{
    match audit(alloc, tables)? {
        Audit::Fails {
            condition,
            w,
            d,
            ..
        } => Ok(Soundness::Fails { condition, w, d }),
        Audit::Holds => {
            let found = lines(tables)?;
            Ok(found)
        }
    }
}

/// The finding on the lines.
fn lines(tables: &Tables) -> Result<Soundness, Memory>
    ensures { IfOk result (λ found. found ≡ sound.lines_finding tables.now (fin.entries tables.now)) }
{
    let rows = tables.rows()?;
    Ok(first_early(tables, &rows))
}

/// The finding on these rows, of which the lines count.
fn first_early(tables: &Tables, rows: &[(&Key, &Row)]) -> Soundness
    ensures { result ≡ sound.lines_finding tables.now (map deref_pair rows.now) }
{
    for (key, row) in rows {
        if is_early(tables, key, row) {
            return Soundness::Fails {
                condition: LINES,
                w: part_at(key, 0),
                d: part_at(key, 1),
            };
        }
    }
    Soundness::Sound
}

/// Whether the row is a line of an order that its district has still to number.
fn is_early(tables: &Tables, key: &Key, row: &Row) -> bool
    ensures { result ≡ sound.is_early tables.now (key.now, row.now) }
{
    if key.table != ORDER_LINES {
        return false;
    }
    let at = District {
        w: part_at(key, 0),
        d: part_at(key, 1),
    };
    is_next(part_at(key, 2), tables.get(&district_key(at)))
}

/// Whether the number is not below that of the district's next order, if there is such a district.
fn is_next(o: i64, district: Option<&Row>) -> bool
    ensures { result ≡ sound.is_next o (option_copied district.entry) }
{
    match district {
        Some(district) => column_at(district, D_NEXT_O_ID) <= o,
        None => false,
    }
}
