// Tables, procedures and catalogues read from JSON.
ghost use Rattle.std.specs.Prelude.{◌≤◌, map, length, IfOk};
ghost use Rattle.serde_json.specs.View.{view};
ghost use Rattle.cat_forms.specs.PlanWalks.{table_at, tables_at, proc_at, procs_at, plan_of};
ghost use Rattle.cat_read.specs.Places.{path_of};
ghost use Rattle.cat_read.specs.Faults.{Reads};

use crate::faults::Fault;
use crate::objects::{
    four_members, items_between, read_name, read_named, three_members, two_members,
};
use crate::places::{JsonPlace, fault_at};
use crate::walks::read_body;
use aria_base::{Kinds, MOST_ARGS, MOST_COLUMNS, MOST_PARTS, Table};
use cat_forms::Member;
use cat_forms::Member::{Args, Body, Name, Regs};
use proc_lang::{ArgKinds, MOST_PROCS, MOST_REGS, MOST_TABLES, Proc};
use serde_json::Value;
use std::alloc::Global;

/// A table, behind the earlier ones.
fn read_table(
    alloc: Global,
    place: &JsonPlace<'_>,
    earlier: &[Table],
    value: &Value,
) -> Result<Table, Fault>
    ensures { Reads (λ t. t) result
        (table_at (path_of place.now) (map (λ t. t.name) earlier.now) (view value.now)) }
{
    let members = three_members(value, Member::Name, Member::Key, Member::Cols);
    let Some((name, key, cols)) = members else {
        return Err(fault_at(alloc, place));
    };
    let name = read_name(
        alloc,
        &JsonPlace::Member(place, Member::Name),
        earlier,
        name,
    )?;
    let key: Kinds = read_named(
        alloc,
        &JsonPlace::Member(place, Member::Key),
        1,
        MOST_PARTS,
        key,
    )?;
    let cols: Kinds = read_named(
        alloc,
        &JsonPlace::Member(place, Member::Cols),
        0,
        MOST_COLUMNS,
        cols,
    )?;
    Ok(Table { name, key, cols })
}

/// All tables.
fn read_tables(alloc: Global, place: &JsonPlace<'_>, value: &Value) -> Result<Vec<Table>, Fault>
    ensures tables { Reads (λ ts. ts.items) result (tables_at (path_of place.now) (view value.now)) }
    ensures few { IfOk result (λ ts. length ts.items ≤ MOST_TABLES) }
{
    let Some(items) = items_between(0, MOST_TABLES, value) else {
        return Err(fault_at(alloc, place));
    };
    let mut tables = Vec::with_capacity(alloc, items.len())?;
    for (at, item) in items.iter().enumerate() {
        let table = read_table(alloc, &JsonPlace::Item(&*place, at), &tables, item)?;
        tables.push(table)?;
    }
    Ok(tables)
}

/// A procedure, behind the earlier ones.
fn read_proc(
    alloc: Global,
    tables: &[Table],
    place: &JsonPlace<'_>,
    earlier: &[Proc],
    value: &Value,
) -> Result<Proc, Fault>
    requires { length tables.now ≤ MOST_TABLES }
    ensures { Reads (λ p. p) result
        (proc_at tables.now (path_of place.now) (map (λ p. p.name) earlier.now) (view value.now)) }
{
    let Some((name, args, regs, body)) = four_members(value, Name, Args, Regs, Body) else {
        return Err(fault_at(alloc, place));
    };
    let name = read_name(alloc, &JsonPlace::Member(place, Name), earlier, name)?;
    let args: ArgKinds = read_named(alloc, &JsonPlace::Member(place, Args), 0, MOST_ARGS, args)?;
    let regs: Kinds = read_named(alloc, &JsonPlace::Member(place, Regs), 0, MOST_REGS, regs)?;
    let body = read_body(alloc, tables, &JsonPlace::Member(place, Body), body)?;
    Ok(Proc {
        name,
        args,
        regs,
        body,
    })
}

/// All procedures.
fn read_procs(
    alloc: Global,
    tables: &[Table],
    place: &JsonPlace<'_>,
    value: &Value,
) -> Result<Vec<Proc>, Fault>
    requires { length tables.now ≤ MOST_TABLES }
    ensures { Reads (λ ps. ps.items) result
        (procs_at tables.now (path_of place.now) (view value.now)) }
{
    let Some(items) = items_between(0, MOST_PROCS, value) else {
        return Err(fault_at(alloc, place));
    };
    let mut procs = Vec::with_capacity(alloc, items.len())?;
    for (at, item) in items.iter().enumerate() {
        let proc = read_proc(alloc, tables, &JsonPlace::Item(&*place, at), &procs, item)?;
        procs.push(proc)?;
    }
    Ok(procs)
}

/// The tables and procedures of a catalogue.
pub fn read_plan(alloc: Global, value: &Value) -> Result<(Vec<Table>, Vec<Proc>), Fault>
    ensures { Reads (λ p. record { tables = p.0.items; procs = p.1.items }) result
        (plan_of (view value.now)) }
{
    let Some((tables, procs)) = two_members(value, Member::Tables, Member::Procs) else {
        return Err(fault_at(alloc, &JsonPlace::Root));
    };
    let root = JsonPlace::Root;
    let tables_place = JsonPlace::Member(&root, Member::Tables);
    let tables = read_tables(alloc, &tables_place, tables)?;
    let procs_place = JsonPlace::Member(&root, Member::Procs);
    let procs = read_procs(alloc, &tables, &procs_place, procs)?;
    Ok((tables, procs))
}
