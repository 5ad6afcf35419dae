// Items, and what a warehouse has of them.
ghost use Rattle.std.specs.Prelude.{◌≡◌, ◌≤◌, ◌<◌, ◌^◌, OnOk};
ghost use Rattle.tpcc_load.specs.Draws.{over};
ghost use Rattle.tpcc_load.specs.Rows.{laid_drawn};
ghost use Rattle.tpcc_load.specs.Heads as heads;

use crate::rows::put;
use crate::tables::{ITEMS, STOCKS};
use aria_base::{Draws, Memory};
use load_gen::{percent, random};
use std::alloc::Global;
use tbl_rows::Tables;

/// Lays the rows of so many items.
pub(crate) fn items(
    alloc: Global,
    draws: &mut Draws,
    tables: &mut Tables,
    count: u32,
) -> Result<(), Memory>
    requires { count < 2 ^ 31 }
    ensures { OnOk result ((tables.new, draws.new) ≡ laid_drawn tables.old (over count heads.item draws.old)) }
{
    for item in 0..count {
        one_item(alloc, draws, tables, item + 1)?;
    }
    Ok(())
}

/// Lays an item's row.
fn one_item(alloc: Global, draws: &mut Draws, tables: &mut Tables, item: u32) -> Result<(), Memory>
    ensures { OnOk result ((tables.new, draws.new) ≡ laid_drawn tables.old (heads.item item draws.old)) }
{
    let price = random(draws, 100, 10_000);
    let original = percent(draws, 10);
    let columns = [i64::from(price), i64::from(original)];
    put(alloc, tables, ITEMS, &[item], &columns)
}

/// Lays a warehouse's rows of so many items.
pub(crate) fn stock(
    alloc: Global,
    draws: &mut Draws,
    tables: &mut Tables,
    w: u32,
    count: u32,
) -> Result<(), Memory>
    requires { count < 2 ^ 31 }
    ensures { OnOk result ((tables.new, draws.new) ≡ laid_drawn tables.old (over count (heads.stock w) draws.old)) }
{
    for item in 0..count {
        one_stock(alloc, draws, tables, w, item + 1)?;
    }
    Ok(())
}

/// Lays a warehouse's row of an item.
fn one_stock(
    alloc: Global,
    draws: &mut Draws,
    tables: &mut Tables,
    w: u32,
    item: u32,
) -> Result<(), Memory>
    ensures { OnOk result ((tables.new, draws.new) ≡ laid_drawn tables.old (heads.stock w item draws.old)) }
{
    let quantity = random(draws, 10, 100);
    let original = percent(draws, 10);
    let columns = [i64::from(quantity), 0, 0, 0, i64::from(original)];
    put(alloc, tables, STOCKS, &[w, item], &columns)
}
