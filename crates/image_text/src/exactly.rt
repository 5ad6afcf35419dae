// A row or a call from its line, where the line is its one spelling.
ghost use Rattle.std.specs.Prelude.{◌≡◌, ◌++◌, IfOk, OnOk};
ghost use Rattle.std.specs.Option.{IfSome};
ghost use Rattle.script_text.specs.Fits.{row_said, call_said};
ghost use Rattle.script_text.specs.Written.{IsArgs};
ghost use Rattle.image_text.specs.Exactly.{found, exact_row, line_of_call, exact_call};
ghost use Rattle.image_text.specs.Entries.{IsRowHeld};

use aria_base::{Call, Key, Memory, Row};
use proc_lang::Catalog;
use script_text::{Item, LinesRefused, append_call, append_row, place_call, place_row, read_line};
use std::alloc::Global;

/// The row of which this is the line. `again` is room to write it again.
pub fn exact_row(
    catalog: &Catalog,
    line: &[u8],
    again: &mut Vec<u8>,
) -> Result<Option<(Key, Row)>, Memory>
    ensures row { IfOk result (λ found. found ≡ exact_row catalog.now line.now) }
    ensures held { IfOk result (λ found. IfSome found IsRowHeld) }
{
    let Some((key, row)) = row_of(*again.allocator(), catalog, line)? else {
        return Ok(None);
    };
    again.clear();
    append_row(again, catalog.schema(), &key, &row)?;
    if again.as_slice() != line {
        return Ok(None);
    }
    Ok(Some((key, row)))
}

/// The row that a line says, in whatever spelling.
fn row_of(alloc: Global, catalog: &Catalog, line: &[u8]) -> Result<Option<(Key, Row)>, Memory>
    ensures { IfOk result (λ row. row ≡ found (row_said catalog.now line.now)) }
{
    match read_line(alloc, line, 0) {
        Ok(Item::Row { table, parts, row }) => match place_row(catalog, &table, parts, row, 0) {
            Ok(row) => Ok(Some(row)),
            Err(LinesRefused::Memory) => Err(Memory),
            Err(LinesRefused::Line(_)) => Ok(None),
        },
        Ok(_) => Ok(None),
        Err(LinesRefused::Memory) => Err(Memory),
        Err(LinesRefused::Line(_)) => Ok(None),
    }
}

/// The call of which this is the line. `again` is room to write it again.
pub fn exact_call(
    catalog: &Catalog,
    line: &[u8],
    again: &mut Vec<u8>,
) -> Result<Option<Call>, Memory>
    ensures call { IfOk result (λ found. found ≡ exact_call catalog.now line.now) }
    ensures held { IfOk result (λ found. IfSome found (λ call. IsArgs call.args)) }
{
    let Some(call) = call_of(*again.allocator(), catalog, line)? else {
        return Ok(None);
    };
    again.clear();
    append_line(again, catalog, &call)?;
    if again.as_slice() != line {
        return Ok(None);
    }
    Ok(Some(call))
}

/// Appends the line of a call, without a line feed. Where there was no memory, a part of it may stand in
/// `out`.
pub fn append_line(out: &mut Vec<u8>, catalog: &Catalog, call: &Call) -> Result<(), Memory>
    ensures text { OnOk result (out.new.items ≡ out.old.items ++ line_of_call catalog.now call.now) }
    ensures args { OnOk result (IsArgs call.now.args) }
{
    append_call(out, catalog.procs(), call)
}

/// The call that a line says, in whatever spelling.
pub fn call_of(alloc: Global, catalog: &Catalog, line: &[u8]) -> Result<Option<Call>, Memory>
    ensures { IfOk result (λ call. call ≡ found (call_said catalog.now line.now)) }
{
    match read_line(alloc, line, 0) {
        Ok(Item::Tx { proc, args }) => match place_call(catalog, &proc, args, 0) {
            Ok(call) => Ok(Some(call)),
            Err(LinesRefused::Memory) => Err(Memory),
            Err(LinesRefused::Line(_)) => Ok(None),
        },
        Ok(_) => Ok(None),
        Err(LinesRefused::Memory) => Err(Memory),
        Err(LinesRefused::Line(_)) => Ok(None),
    }
}
