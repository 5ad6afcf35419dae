// Catalogues written as their texts.
ghost use Rattle.std.specs.Prelude.{◌≡◌, true, map, IfOk};
ghost use Rattle.std.specs.List.{list_all};
ghost use Rattle.serde_json.specs.View.{view};
ghost use Rattle.serde_json.specs.Written.{compact_text};
ghost use Rattle.proc_lang.specs.Catalogs.{IsCatalog};
ghost use Rattle.cat_forms.specs.Texts.{Tells};
ghost use Rattle.cat_forms.specs.Written.{kinds_data, arg_kinds_data, list_data, table_data, proc_data, data_of};
ghost use Rattle.cat_write.specs.Held.{steps_held};

use crate::step_writers::write_block;
use crate::term_writers::text_value;
use aria_base::{Kinds, Memory, Schema, Table};
use cat_forms::{arg_kind_name, kind_name};
use proc_lang::{ArgKinds, Catalog, Checked, Proc};
use serde_json::{Map, ToValue, Value, put};
use std::alloc::Global;

/// The compact text of the catalogue, with the members of each object in the order of their bytes.
/// It reads as this catalogue. Memory is wanted for the JSON and for the text.
#[tactic(auto, using(crate::proofs::NoFloats::plan_plain))]
pub fn write_catalog(alloc: Global, catalog: &Catalog) -> Result<Vec<u8>, Memory>
    ensures text { IfOk result (λ bytes. bytes.items ≡ compact_text (data_of catalog.now)) }
    ensures reads { IfOk result (λ bytes. Tells bytes.items catalog.now) }
{
    Ok(root(alloc, catalog)?.to_vec(alloc)?)
}

/// The catalogue as JSON.
fn root(alloc: Global, catalog: &Catalog) -> Result<Value, Memory>
    ensures data { IfOk result (λ v. view v ≡ data_of catalog.now) }
    ensures catalog { IfOk result (λ _. IsCatalog catalog.now) }
    ensures held { IfOk result (λ _. list_all (λ p. steps_held p.body) catalog.now.procs ≡ true) }
{
    let tables = write_tables(alloc, catalog.schema())?;
    let procs = write_procs(alloc, catalog.schema(), catalog.procs())?;
    let mut members = Map::new(alloc);
    put(&mut members, alloc, "tables", tables)?;
    put(&mut members, alloc, "procs", procs)?;
    Ok(Value::Object(members))
}

/// The tables as JSON.
fn write_tables(alloc: Global, tables: &Schema) -> Result<Value, Memory>
    ensures { IfOk result (λ v. view v ≡ list_data (map table_data tables.now)) }
{
    let mut values = Vec::with_capacity(alloc, tables.as_slice().len())?;
    for table in tables.as_slice() {
        values.push(write_table(alloc, table)?)?;
    }
    Ok(Value::Array(values))
}

/// A table as JSON.
fn write_table(alloc: Global, table: &Table) -> Result<Value, Memory>
    ensures { IfOk result (λ v. view v ≡ table_data table.now) }
{
    let name = text_value(alloc, &table.name)?;
    let key = write_kinds(alloc, &table.key)?;
    let cols = write_kinds(alloc, &table.cols)?;
    let mut members = Map::new(alloc);
    put(&mut members, alloc, "name", name)?;
    put(&mut members, alloc, "key", key)?;
    put(&mut members, alloc, "cols", cols)?;
    Ok(Value::Object(members))
}

/// The procedures as JSON.
fn write_procs(alloc: Global, tables: &Schema, procs: &[Checked]) -> Result<Value, Memory>
    ensures data { IfOk result (λ v. view v ≡ list_data (map (proc_data tables.now) procs.now)) }
    ensures held { IfOk result (λ _. list_all (λ p. steps_held p.body) procs.now ≡ true) }
{
    let mut values = Vec::with_capacity(alloc, procs.len())?;
    for checked in procs {
        values.push(write_proc(alloc, tables, checked.proc())?)?;
    }
    Ok(Value::Array(values))
}

/// A procedure as JSON.
fn write_proc(alloc: Global, tables: &Schema, proc: &Proc) -> Result<Value, Memory>
    ensures data { IfOk result (λ v. view v ≡ proc_data tables.now proc.now) }
    ensures held { IfOk result (λ _. steps_held proc.now.body ≡ true) }
{
    let name = text_value(alloc, &proc.name)?;
    let args = write_arg_kinds(alloc, &proc.args)?;
    let regs = write_kinds(alloc, &proc.regs)?;
    let body = write_block(alloc, tables.as_slice(), &proc.body)?;
    let mut members = Map::new(alloc);
    put(&mut members, alloc, "name", name)?;
    put(&mut members, alloc, "args", args)?;
    put(&mut members, alloc, "regs", regs)?;
    put(&mut members, alloc, "body", body)?;
    Ok(Value::Object(members))
}

/// The kinds as JSON.
fn write_kinds(alloc: Global, kinds: &Kinds) -> Result<Value, Memory>
    ensures { IfOk result (λ v. view v ≡ kinds_data kinds.now) }
{
    let mut values = Vec::with_capacity(alloc, kinds.as_slice().len())?;
    for kind in kinds.as_slice() {
        values.push(kind_name(*kind).to_value(alloc)?)?;
    }
    Ok(Value::Array(values))
}

/// The kinds of arguments as JSON.
fn write_arg_kinds(alloc: Global, kinds: &ArgKinds) -> Result<Value, Memory>
    ensures { IfOk result (λ v. view v ≡ arg_kinds_data kinds.now) }
{
    let mut values = Vec::with_capacity(alloc, kinds.as_slice().len())?;
    for kind in kinds.as_slice() {
        values.push(arg_kind_name(*kind).to_value(alloc)?)?;
    }
    Ok(Value::Array(values))
}
