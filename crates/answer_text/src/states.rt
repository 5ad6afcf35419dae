// The listing of a state.
ghost use Rattle.std.specs.Prelude.{◌≡◌, ◌++◌, flat_map, map, IfOk, OnOk};
ghost use Rattle.std.specs.Map.Iter.{deref_pair};
ghost use Rattle.answer_text.specs.States.{row_text, state_text};

use crate::notices::append_counted;
use aria_base::{Key, Memory, Row, Schema};
use proc_lang::Catalog;
use script_text::append_row;
use std::alloc::Global;
use tbl_rows::Tables;

/// The listing of all rows in the order of their keys, as the state after so many batches. A key is
/// printed with its table's name in the catalogue, and without a name where the catalogue has no such
/// table.
pub fn print_state(
    alloc: Global,
    catalog: &Catalog,
    tables: &Tables,
    batches: u64,
) -> Result<Vec<u8>, Memory>
    ensures { IfOk result (λ text. text.items ≡ state_text catalog.now.tables tables.now batches) }
{
    let mut out = Vec::new(alloc);
    append_state(&mut out, catalog, tables, batches)?;
    Ok(out)
}

/// Appends that listing. Where there was no memory, a part of it may stand in `out`.
pub fn append_state(
    out: &mut Vec<u8>,
    catalog: &Catalog,
    tables: &Tables,
    batches: u64,
) -> Result<(), Memory>
    ensures { OnOk result (out.new.items ≡ out.old.items ++ state_text catalog.now.tables tables.now batches) }
{
    let rows = tables.rows()?;
    append_counted(out, b"state ", batches)?;
    append_rows(out, catalog.schema(), &rows)?;
    out.extend_from_slice(b"end state\n")?;
    Ok(())
}

/// Appends the lines of these rows, in this order, each with its line feed. Where there was no memory, a
/// part of them may stand in `out`.
pub fn append_rows(out: &mut Vec<u8>, tables: &Schema, rows: &[(&Key, &Row)]) -> Result<(), Memory>
    ensures { OnOk result (out.new.items ≡ out.old.items ++ flat_map (row_text tables.now) (map deref_pair rows.now)) }
{
    for (key, row) in rows {
        append_row(out, tables, key, row)?;
        out.push(b'\n')?;
    }
    Ok(())
}
