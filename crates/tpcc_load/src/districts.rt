// Warehouses and their districts.
ghost use Rattle.std.specs.Prelude.{◌≡◌, ◌≤◌, ◌<◌, OnOk};
ghost use Rattle.tpcc_load.specs.Draws.{over};
ghost use Rattle.tpcc_load.specs.declared.districts.TheConstants.{DISTRICTS_EACH};
ghost use Rattle.tpcc_load.specs.Rows.{laid_drawn};
ghost use Rattle.tpcc_load.specs.Heads as heads;

use crate::customers::customers;
use crate::names::{lay_names, names};
use crate::orders::{District, orders};
use crate::rows::put;
use crate::settings::Tpcc;
use crate::shuffles::shuffled;
use crate::stocks::stock;
use crate::tables::{DISTRICTS, WAREHOUSES};
use aria_base::{Draws, Memory};
use load_gen::random;
use std::alloc::Global;
use tbl_rows::Tables;

/// How many districts a warehouse has.
pub const DISTRICTS_EACH: u32 = 10;

/// Lays the rows of all warehouses.
pub(crate) fn warehouses(
    alloc: Global,
    settings: &Tpcc,
    draws: &mut Draws,
    tables: &mut Tables,
) -> Result<(), Memory>
    requires { heads.IsWithin settings.now }
    ensures { OnOk result ((tables.new, draws.new)
        ≡ laid_drawn tables.old (over settings.now.warehouses (heads.warehouse settings.now) draws.old)) }
{
    for w in 0..settings.warehouses {
        warehouse(alloc, settings, draws, tables, w + 1)?;
    }
    Ok(())
}

/// Lays a warehouse's rows.
fn warehouse(
    alloc: Global,
    settings: &Tpcc,
    draws: &mut Draws,
    tables: &mut Tables,
    w: u32,
) -> Result<(), Memory>
    requires { heads.IsWithin settings.now }
    ensures { OnOk result ((tables.new, draws.new) ≡ laid_drawn tables.old (heads.warehouse settings.now w draws.old)) }
{
    let tax = random(draws, 0, 2_000);
    put(
        alloc,
        tables,
        WAREHOUSES,
        &[w],
        &[i64::from(tax), 30_000_000],
    )?;
    stock(alloc, draws, tables, w, settings.items)?;
    districts(alloc, settings, draws, tables, w)?;
    Ok(())
}

/// Lays the rows of a warehouse's districts.
fn districts(
    alloc: Global,
    settings: &Tpcc,
    draws: &mut Draws,
    tables: &mut Tables,
    w: u32,
) -> Result<(), Memory>
    requires { heads.IsWithin settings.now }
    ensures { OnOk result ((tables.new, draws.new)
        ≡ laid_drawn tables.old (over DISTRICTS_EACH (heads.district settings.now w) draws.old)) }
{
    for d in 0..DISTRICTS_EACH {
        district(alloc, settings, draws, tables, District { w, d: d + 1 })?;
    }
    Ok(())
}

/// Lays a district's rows.
fn district(
    alloc: Global,
    settings: &Tpcc,
    draws: &mut Draws,
    tables: &mut Tables,
    at: District,
) -> Result<(), Memory>
    requires { heads.IsWithin settings.now }
    ensures { OnOk result ((tables.new, draws.new)
        ≡ laid_drawn tables.old (heads.district settings.now at.w at.d draws.old)) }
{
    let tax = random(draws, 0, 2_000);
    let next = settings.customers + 1;
    let columns = [i64::from(tax), 3_000_000, i64::from(next)];
    put(alloc, tables, DISTRICTS, &[at.w, at.d], &columns)?;
    let ranks = customers(alloc, settings, draws, tables, at)?;
    let places = shuffled(alloc, draws, settings.customers)?;
    orders(alloc, settings, draws, tables, at, &places)?;
    lay_names(alloc, tables, at, names(settings), &ranks)?;
    Ok(())
}
