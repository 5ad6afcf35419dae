// Statements and blocks as JSON.
ghost use Rattle.std.specs.Prelude.{◌≡◌, ◌∷◌, ◌&&◌, [], true, map, IfOk};
ghost use Rattle.std.specs.List.{list_all};
ghost use Rattle.serde_json.specs.Data.{string};
ghost use Rattle.serde_json.specs.View.{view};
ghost use Rattle.proc_lang.specs.TermOf.{term_of};
ghost use Rattle.proc_lang.specs.Syntax.{step_of};
ghost use Rattle.cat_forms.specs.declared.names.Verb.TheVariants as verb;
ghost use Rattle.cat_forms.specs.Names.{verb_name};
ghost use Rattle.cat_forms.specs.Written.{term_data, index_data, indexes_data, terms_data, table_ref, list_data, verb_data, step_data, steps_data};
ghost use Rattle.cat_write.specs.Held.{is_u32, term_held, step_held, steps_held};

use crate::term_writers::{text_value, write_expr};
use aria_base::{Memory, Table};
use cat_forms::Verb;
use proc_lang::{Block, Expr, Exprs, Regs, Stmt};
use serde_json::{ToValue, Value};
use std::alloc::Global;

/// The name of the table with this number as JSON.
fn table_value(alloc: Global, tables: &[Table], table: u16) -> Result<Value, Memory>
    ensures { IfOk result (λ v. view v ≡ table_ref tables.now table) }
{
    match tables.get(usize::from(table)) {
        Some(table) => text_value(alloc, &table.name),
        None => Ok("".to_value(alloc)?),
    }
}

/// The expressions as JSON.
fn write_exprs(alloc: Global, exprs: &Exprs) -> Result<Value, Memory>
    ensures data { IfOk result (λ v. view v ≡ terms_data exprs.now) }
    ensures held { IfOk result (λ _. list_all term_held exprs.now ≡ true) }
{
    let mut values = Vec::with_capacity(alloc, exprs.as_slice().len())?;
    for expr in exprs.as_slice() {
        values.push(write_expr(alloc, expr)?)?;
    }
    Ok(Value::Array(values))
}

/// The registers as JSON.
fn write_regs(alloc: Global, registers: &Regs) -> Result<Value, Memory>
    ensures data { IfOk result (λ v. view v ≡ indexes_data registers.now) }
    ensures held { IfOk result (λ _. list_all is_u32 registers.now ≡ true) }
{
    let mut values = Vec::with_capacity(alloc, registers.as_slice().len())?;
    for register in registers.as_slice() {
        values.push(Value::from(*register))?;
    }
    Ok(Value::Array(values))
}

/// A row that is read, as the prefix of a statement of this verb.
fn write_read(
    alloc: Global,
    tables: &[Table],
    verb: Verb,
    table: u16,
    key: &Exprs,
    registers: &Regs,
) -> Result<Vec<Value>, Memory>
    ensures data { IfOk result (λ vs. map view vs.items
        ≡ string (verb_name verb) ∷ table_ref tables.now table ∷ terms_data key.now ∷ indexes_data registers.now ∷ []) }
    ensures held { IfOk result (λ _. (list_all term_held key.now && list_all is_u32 registers.now) ≡ true) }
{
    let name = verb.name().to_value(alloc)?;
    let table = table_value(alloc, tables, table)?;
    let key = write_exprs(alloc, key)?;
    let registers = write_regs(alloc, registers)?;
    Ok(vec![in alloc; name, table, key, registers]?)
}

/// `get` as JSON.
fn write_get(
    alloc: Global,
    tables: &[Table],
    table: u16,
    key: &Exprs,
    registers: &Regs,
) -> Result<Value, Memory>
    ensures data { IfOk result (λ v. view v ≡ verb_data verb.Get
        (table_ref tables.now table ∷ terms_data key.now ∷ indexes_data registers.now ∷ [])) }
    ensures held { IfOk result (λ _. (list_all term_held key.now && list_all is_u32 registers.now) ≡ true) }
{
    let values = write_read(alloc, tables, Verb::Get, table, key, registers)?;
    Ok(Value::Array(values))
}

/// `need` or `find` as JSON, with its last operand.
fn write_last(
    alloc: Global,
    tables: &[Table],
    verb: Verb,
    table: u16,
    key: &Exprs,
    registers: &Regs,
    last: u32,
) -> Result<Value, Memory>
    ensures data { IfOk result (λ v. view v ≡ verb_data verb
        (table_ref tables.now table ∷ terms_data key.now ∷ indexes_data registers.now ∷ index_data last ∷ [])) }
    ensures held { IfOk result (λ _. (list_all term_held key.now && list_all is_u32 registers.now) ≡ true) }
{
    let mut values = write_read(alloc, tables, verb, table, key, registers)?;
    values.push(Value::from(last))?;
    Ok(Value::Array(values))
}

/// `let` as JSON.
fn write_let(alloc: Global, register: u32, value: &Expr) -> Result<Value, Memory>
    ensures data { IfOk result (λ v. view v
        ≡ verb_data verb.Let (index_data register ∷ term_data (term_of value.now) ∷ [])) }
    ensures held { IfOk result (λ _. term_held (term_of value.now) ≡ true) }
{
    let name = Verb::Let.name().to_value(alloc)?;
    let value = write_expr(alloc, value)?;
    Ok(Value::Array(vec![in alloc; name, Value::from(register), value]?))
}

/// `put` as JSON.
fn write_put(
    alloc: Global,
    tables: &[Table],
    table: u16,
    key: &Exprs,
    columns: &Exprs,
) -> Result<Value, Memory>
    ensures data { IfOk result (λ v. view v ≡ verb_data verb.Put
        (table_ref tables.now table ∷ terms_data key.now ∷ terms_data columns.now ∷ [])) }
    ensures held { IfOk result (λ _. (list_all term_held key.now && list_all term_held columns.now) ≡ true) }
{
    let name = Verb::Put.name().to_value(alloc)?;
    let table = table_value(alloc, tables, table)?;
    let key = write_exprs(alloc, key)?;
    let columns = write_exprs(alloc, columns)?;
    Ok(Value::Array(vec![in alloc; name, table, key, columns]?))
}

/// `del` as JSON.
fn write_del(alloc: Global, tables: &[Table], table: u16, key: &Exprs) -> Result<Value, Memory>
    ensures data { IfOk result (λ v. view v
        ≡ verb_data verb.Del (table_ref tables.now table ∷ terms_data key.now ∷ [])) }
    ensures held { IfOk result (λ _. list_all term_held key.now ≡ true) }
{
    let name = Verb::Del.name().to_value(alloc)?;
    let table = table_value(alloc, tables, table)?;
    let key = write_exprs(alloc, key)?;
    Ok(Value::Array(vec![in alloc; name, table, key]?))
}

/// `give` as JSON.
fn write_give(alloc: Global, value: &Expr) -> Result<Value, Memory>
    ensures data { IfOk result (λ v. view v ≡ verb_data verb.Give (term_data (term_of value.now) ∷ [])) }
    ensures held { IfOk result (λ _. term_held (term_of value.now) ≡ true) }
{
    let name = Verb::Give.name().to_value(alloc)?;
    let value = write_expr(alloc, value)?;
    Ok(Value::Array(vec![in alloc; name, value]?))
}

/// `fail` as JSON.
fn write_fail(alloc: Global, code: u16) -> Result<Value, Memory>
    ensures { IfOk result (λ v. view v ≡ verb_data verb.Fail (index_data code ∷ [])) }
{
    let name = Verb::Fail.name().to_value(alloc)?;
    Ok(Value::Array(vec![in alloc; name, Value::from(code)]?))
}

/// The statement as JSON.
#[cycle(writing)]
fn write_stmt(alloc: Global, tables: &[Table], stmt: &Stmt) -> Result<Value, Memory>
    ensures data { IfOk result (λ v. view v ≡ step_data tables.now (step_of stmt.now)) }
    ensures held { IfOk result (λ _. step_held (step_of stmt.now) ≡ true) }
{
    match stmt {
        Stmt::Let(register, value) => write_let(alloc, *register, value),
        Stmt::Get(table, key, registers) => write_get(alloc, tables, *table, key, registers),
        Stmt::Need(table, key, registers, code) => write_last(
            alloc,
            tables,
            Verb::Need,
            *table,
            key,
            registers,
            u32::from(*code),
        ),
        Stmt::Find(table, key, registers, flag) => {
            write_last(alloc, tables, Verb::Find, *table, key, registers, *flag)
        }
        Stmt::Put(table, key, columns) => write_put(alloc, tables, *table, key, columns),
        Stmt::Del(table, key) => write_del(alloc, tables, *table, key),
        Stmt::If(test, first, second) => write_if(alloc, tables, test, first, second),
        Stmt::Each(list, block) => write_each(alloc, tables, *list, block),
        Stmt::Give(value) => write_give(alloc, value),
        Stmt::Fail(code) => write_fail(alloc, *code),
    }
}

/// `if` as JSON.
#[cycle(writing)]
fn write_if(
    alloc: Global,
    tables: &[Table],
    test: &Expr,
    first: &Block,
    second: &Block,
) -> Result<Value, Memory>
    ensures data { IfOk result (λ v. view v ≡ verb_data verb.If
        (term_data (term_of test.now) ∷ list_data (steps_data tables.now first.now)
        ∷ list_data (steps_data tables.now second.now) ∷ [])) }
    ensures held { IfOk result (λ _. (term_held (term_of test.now) && steps_held first.now && steps_held second.now) ≡ true) }
{
    let name = Verb::If.name().to_value(alloc)?;
    let test = write_expr(alloc, test)?;
    let first = write_block(alloc, tables, first)?;
    let second = write_block(alloc, tables, second)?;
    Ok(Value::Array(vec![in alloc; name, test, first, second]?))
}

/// `each` as JSON.
#[cycle(writing)]
fn write_each(alloc: Global, tables: &[Table], list: u32, block: &Block) -> Result<Value, Memory>
    ensures data { IfOk result (λ v. view v ≡ verb_data verb.Each
        (index_data list ∷ list_data (steps_data tables.now block.now) ∷ [])) }
    ensures held { IfOk result (λ _. steps_held block.now ≡ true) }
{
    let name = Verb::Each.name().to_value(alloc)?;
    let block = write_block(alloc, tables, block)?;
    Ok(Value::Array(vec![in alloc; name, Value::from(list), block]?))
}

/// The block as JSON.
#[cycle(writing)]
pub fn write_block(alloc: Global, tables: &[Table], block: &Block) -> Result<Value, Memory>
    ensures data { IfOk result (λ v. view v ≡ list_data (steps_data tables.now block.now)) }
    ensures held { IfOk result (λ _. steps_held block.now ≡ true) }
{
    let mut values = Vec::with_capacity(alloc, block.as_slice().len())?;
    for stmt in block.as_slice() {
        values.push(write_stmt(alloc, tables, stmt)?)?;
    }
    Ok(Value::Array(values))
}
