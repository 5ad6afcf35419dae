// The database that order entry begins with.
ghost use Rattle.std.specs.Prelude.{◌≡◌, IfOk};
ghost use Rattle.std.specs.FinMap as fin;
ghost use Rattle.aria_base.specs.Draws.{standing};
ghost use Rattle.cat_builtin.specs.Tpcc.{tpcc};
ghost use Rattle.tpcc_load.specs.Rows.{laid};
ghost use Rattle.tpcc_load.specs.Heads as heads;

use crate::districts::warehouses;
use crate::settings::Tpcc;
use crate::stocks::items;
use aria_base::{Draws, Memory};
use cat_builtin::builtin;
use proc_lang::Catalog;
use std::alloc::Global;
use tbl_rows::Tables;

/// The stream of a number's words that the rows are drawn from.
const HEAD_STREAM: u64 = 1;

/// The catalogue `tpcc`, and its rows before the first request.
pub fn head(alloc: Global, settings: &Tpcc) -> Result<(Catalog, Tables), Memory>
    requires { heads.IsWithin settings.now }
    ensures catalog { IfOk result (λ head. head.0 ≡ tpcc) }
    ensures tables { IfOk result (λ head. head.1 ≡ laid fin.empty (heads.head settings.now (standing settings.now.number 1 0)).0) }
{
    let Some(catalog) = builtin(alloc, b"tpcc")? else {
        unreachable!();
    };
    let mut draws = Draws::of(settings.number, HEAD_STREAM);
    let mut tables = Tables::new(alloc)?;
    tables.reserve(room(settings));
    items(alloc, &mut draws, &mut tables, settings.items)?;
    warehouses(alloc, settings, &mut draws, &mut tables)?;
    Ok((catalog, tables))
}

/// For how many rows room is made: for those that the settings make, and for a quarter as many that requests add. While
/// there is room no put splits a bucket, which was a fifth of what missed the cache in a batch. No answer depends on it.
fn room(settings: &Tpcc) -> usize {
    let rows = about_rows(settings);
    rows.saturating_add(rows / 4)
}

/// How many rows each of a district's customers brings: one of her own, one of her history, an order with ten lines on
/// average, for three of ten orders one that is new, and for some customers one of their names.
const ROWS_A_CUSTOMER: usize = 14;

/// About how many rows these settings make.
fn about_rows(settings: &Tpcc) -> usize {
    let items = settings.items as usize;
    let customers = (settings.customers as usize).saturating_mul(10);
    let each = customers
        .saturating_mul(ROWS_A_CUSTOMER)
        .saturating_add(items);
    each.saturating_mul(settings.warehouses as usize)
        .saturating_add(items)
}
