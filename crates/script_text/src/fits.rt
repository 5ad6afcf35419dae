// What a catalogue makes of a line.
ghost use Rattle.std.specs.Prelude.{◌≡◌, ◌↔◌, true, IfOk, IsTrue};
ghost use Rattle.script_text.specs.Answers.{Answers};
ghost use Rattle.script_text.specs.Fits.{placed_row, placed_call, placed_settings, fitted_row, fitted_call, fitted_settings, is_row, is_tx, is_settings, row_fits, rule_named};

use crate::forms::refused;
use crate::items::Item;
use crate::refusals::{LinesRefused, RefusalKind};
use aria_base::{Args, Call, Duplicate, Key, MOST_PERCENT, Parts, Row, Schema, Txt};
use proc_lang::Catalog;
use std::alloc::Global;

/// The row that the item is under the catalogue. `Name` comes exactly where no table has the name, else
/// `Argument` exactly where the parts or the columns are not those of the table in number and kind. The
/// refusal has this line number.
pub fn fit_row(
    alloc: Global,
    catalog: &Catalog,
    item: &Item,
    line: u64,
) -> Result<(Key, Row), LinesRefused>
    requires { is_row item.now ≡ true }
    ensures { Answers (fitted_row catalog.now item.now) line result }
{
    match item {
        Item::Row { table, parts, row } => {
            let parts = parts.duplicate(alloc)?;
            let row = row.duplicate(alloc)?;
            place_row(catalog, table, parts, row, line)
        }
        _ => unreachable!(),
    }
}

/// The call that the item is under the catalogue. `Name` comes exactly where no procedure has the name,
/// else `Argument` exactly where the arguments do not fit it in number and kind. The refusal has this
/// line number.
pub fn fit_tx(
    alloc: Global,
    catalog: &Catalog,
    item: &Item,
    line: u64,
) -> Result<Call, LinesRefused>
    requires { is_tx item.now ≡ true }
    ensures { Answers (fitted_call catalog.now item.now) line result }
{
    match item {
        Item::Tx { proc, args } => place_call(catalog, proc, args.duplicate(alloc)?, line),
        _ => unreachable!(),
    }
}

/// The rule, 0 for plain and 1 for reorder, and the percentage that the item says. `Name` comes exactly
/// where no rule has the name, else `Argument` exactly where the percentage is not from 0 to 101. The
/// refusal has this line number. No memory.
pub fn fit_settings(item: &Item, line: u64) -> Result<(u8, u32), LinesRefused>
    requires { is_settings item.now ≡ true }
    ensures { Answers (fitted_settings item.now) line result }
{
    match item {
        Item::Settings { name, percent } => place_settings(name, *percent, line),
        _ => unreachable!(),
    }
}

/// What [`fit_row`] answers, of an item taken apart: the parts and the row are moved. No memory.
pub fn place_row(
    catalog: &Catalog,
    table: &Txt,
    parts: Parts,
    row: Row,
    line: u64,
) -> Result<(Key, Row), LinesRefused>
    ensures { Answers (placed_row catalog.now table.now parts row) line result }
{
    let Some(table) = catalog.table(table.as_slice()) else {
        return Err(refused(line, RefusalKind::Name));
    };
    let key = Key { table, parts };
    if !does_fit(catalog.schema(), &key, &row) {
        return Err(refused(line, RefusalKind::Argument));
    }
    Ok((key, row))
}

/// What [`fit_tx`] answers, of an item taken apart: the arguments are moved. No memory.
pub fn place_call(
    catalog: &Catalog,
    proc: &Txt,
    args: Args,
    line: u64,
) -> Result<Call, LinesRefused>
    ensures { Answers (placed_call catalog.now proc.now args) line result }
{
    let Some(proc) = catalog.proc(proc.as_slice()) else {
        return Err(refused(line, RefusalKind::Name));
    };
    let call = Call { proc, args };
    if !catalog.takes(&call) {
        return Err(refused(line, RefusalKind::Argument));
    }
    Ok(call)
}

/// The number of the rule, and the percentage.
fn place_settings(name: &Txt, percent: i64, line: u64) -> Result<(u8, u32), LinesRefused>
    ensures { Answers (placed_settings name.now percent) line result }
{
    let Some(rule) = rule_number(name.as_slice()) else {
        return Err(refused(line, RefusalKind::Name));
    };
    if percent < 0 || i64::from(MOST_PERCENT) < percent {
        return Err(refused(line, RefusalKind::Argument));
    }
    Ok((rule, percent as u32))
}

/// The number of the rule with this name.
fn rule_number(name: &[u8]) -> Option<u8>
    ensures { result ≡ rule_named name.now }
{
    if name == b"plain".as_slice() {
        Some(0)
    } else if name == b"reorder".as_slice() {
        Some(1)
    } else {
        None
    }
}

/// Whether the row fits its table.
fn does_fit(schema: &Schema, key: &Key, row: &Row) -> bool
    ensures { result ≡ row_fits schema.now key.now row.now }
{
    schema.fits(key, row)
}
