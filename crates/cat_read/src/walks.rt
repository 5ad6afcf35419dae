// The walk through a procedure's body.
ghost use Rattle.std.specs.Prelude.{ℕ, ◌≡◌, ◌≤◌, [], false, length, option_and_then, Some};
ghost use Rattle.serde_json.specs.Data.{item, no_items};
ghost use Rattle.serde_json.specs.Find.{as_str};
ghost use Rattle.serde_json.specs.View.{view, items_view};
ghost use Rattle.proc_lang.specs.TermOf.{term_of};
ghost use Rattle.proc_lang.specs.Syntax.{step_of};
ghost use Rattle.proc_lang.specs.declared.limits.TheConstants.{MOST_TABLES};
ghost use Rattle.cat_forms.specs.declared.names.Verb.TheVariants as verb;
ghost use Rattle.cat_forms.specs.Names.{verb_named, has_blocks};
ghost use Rattle.cat_forms.specs.Places.{in_item};
ghost use Rattle.cat_forms.specs.TermWalks.{term_at};
ghost use Rattle.cat_forms.specs.StepWalks.{row_at, read_at, step_at, statement_at, verb_at, block_at, steps_after, body_at};
ghost use Rattle.cat_read.specs.Places.{path_of};
ghost use Rattle.cat_read.specs.Faults.{Reads};

use crate::faults::Fault;
use crate::places::{JsonPlace, fault_at};
use crate::statements::{code, indexes, read_exprs, table_number};
use crate::terms::{index, read_expr};
use aria_base::Table;
use cat_forms::{Verb, verb_named};
use proc_lang::{Block, Expr, Exprs, MOST_STATEMENTS, Regs, Stmt};
use serde_json::Value;
use std::alloc::Global;

/// What the walk through a body knows.
#[derive(Drop)]
pub struct Walk<'a> {
    pub alloc: Global,
    /// The catalogue's tables.
    pub tables: &'a [Table],
    /// The place of the body.
    pub body: &'a JsonPlace<'a>,
    ghost few: { length tables.now ≤ MOST_TABLES },
}

/// The table and the key of a row.
fn read_row(
    walk: &Walk<'_>,
    place: &JsonPlace<'_>,
    table: &Value,
    key: &Value,
) -> Result<(u16, Exprs), Fault>
    ensures { Reads (λ r. (r.0, r.1)) result
        (row_at walk.now.tables.now (path_of place.now) (view table.now) (view key.now)) }
{
    let Some(table) = table_number(walk.tables, table) else {
        return Err(fault_at(walk.alloc, place));
    };
    let key = read_exprs(walk.alloc, place, 2, key)?;
    Ok((table, key))
}

/// The table, the key and the registers of a row that is read.
fn read_registers(
    walk: &Walk<'_>,
    place: &JsonPlace<'_>,
    table: &Value,
    key: &Value,
    registers: &Value,
) -> Result<(u16, Exprs, Regs), Fault>
    ensures { Reads (λ r. ((r.0, r.1), r.2)) result
        (read_at walk.now.tables.now (path_of place.now) (view table.now) (view key.now)
        (view registers.now)) }
{
    let (table, key) = read_row(walk, place, table, key)?;
    let Some(registers) = indexes(walk.alloc, registers)? else {
        return Err(fault_at(walk.alloc, place));
    };
    Ok((table, key, registers))
}

/// `let`: a register and an expression.
fn read_let(
    walk: &Walk<'_>,
    place: &JsonPlace<'_>,
    register: &Value,
    value: &Value,
) -> Result<Stmt, Fault>
    ensures { (seen : ℕ) → Reads (λ s. (step_of s, seen)) result
        (verb_at walk.now.tables.now (path_of walk.now.body.now) (path_of place.now) seen (Some verb.Let)
        (item (view register.now) (item (view value.now) no_items))) }
{
    let Some(register) = index(register) else {
        return Err(fault_at(walk.alloc, place));
    };
    let value = read_expr(walk.alloc, &JsonPlace::Item(place, 2), 1, value)?;
    Ok(Stmt::Let(register, value))
}

/// `get`: a table, a key and registers.
fn read_get(
    walk: &Walk<'_>,
    place: &JsonPlace<'_>,
    table: &Value,
    key: &Value,
    registers: &Value,
) -> Result<Stmt, Fault>
    ensures { (seen : ℕ) → Reads (λ s. (step_of s, seen)) result
        (verb_at walk.now.tables.now (path_of walk.now.body.now) (path_of place.now) seen (Some verb.Get)
        (item (view table.now) (item (view key.now) (item (view registers.now) no_items)))) }
{
    let (table, key, registers) = read_registers(walk, place, table, key, registers)?;
    Ok(Stmt::Get(table, key, registers))
}

/// `need`: a table, a key, registers and the code of a failure.
fn read_need(
    walk: &Walk<'_>,
    place: &JsonPlace<'_>,
    table: &Value,
    key: &Value,
    registers: &Value,
    failure: &Value,
) -> Result<Stmt, Fault>
    ensures { (seen : ℕ) → Reads (λ s. (step_of s, seen)) result
        (verb_at walk.now.tables.now (path_of walk.now.body.now) (path_of place.now) seen (Some verb.Need)
        (item (view table.now) (item (view key.now) (item (view registers.now) (item (view failure.now) no_items))))) }
{
    let (table, key, registers) = read_registers(walk, place, table, key, registers)?;
    let Some(failure) = code(failure) else {
        return Err(fault_at(walk.alloc, place));
    };
    Ok(Stmt::Need(table, key, registers, failure))
}

/// `find`: a table, a key, registers and one more that tells whether there was a row.
fn read_find(
    walk: &Walk<'_>,
    place: &JsonPlace<'_>,
    table: &Value,
    key: &Value,
    registers: &Value,
    flag: &Value,
) -> Result<Stmt, Fault>
    ensures { (seen : ℕ) → Reads (λ s. (step_of s, seen)) result
        (verb_at walk.now.tables.now (path_of walk.now.body.now) (path_of place.now) seen (Some verb.Find)
        (item (view table.now) (item (view key.now) (item (view registers.now) (item (view flag.now) no_items))))) }
{
    let (table, key, registers) = read_registers(walk, place, table, key, registers)?;
    let Some(flag) = index(flag) else {
        return Err(fault_at(walk.alloc, place));
    };
    Ok(Stmt::Find(table, key, registers, flag))
}

/// `put`: a table, a key and columns.
fn read_put(
    walk: &Walk<'_>,
    place: &JsonPlace<'_>,
    table: &Value,
    key: &Value,
    columns: &Value,
) -> Result<Stmt, Fault>
    ensures { (seen : ℕ) → Reads (λ s. (step_of s, seen)) result
        (verb_at walk.now.tables.now (path_of walk.now.body.now) (path_of place.now) seen (Some verb.Put)
        (item (view table.now) (item (view key.now) (item (view columns.now) no_items)))) }
{
    let (table, key) = read_row(walk, place, table, key)?;
    let columns = read_exprs(walk.alloc, place, 3, columns)?;
    Ok(Stmt::Put(table, key, columns))
}

/// `del`: a table and a key.
fn read_del(
    walk: &Walk<'_>,
    place: &JsonPlace<'_>,
    table: &Value,
    key: &Value,
) -> Result<Stmt, Fault>
    ensures { (seen : ℕ) → Reads (λ s. (step_of s, seen)) result
        (verb_at walk.now.tables.now (path_of walk.now.body.now) (path_of place.now) seen (Some verb.Del)
        (item (view table.now) (item (view key.now) no_items))) }
{
    let (table, key) = read_row(walk, place, table, key)?;
    Ok(Stmt::Del(table, key))
}

/// `give`: an expression.
fn read_give(walk: &Walk<'_>, place: &JsonPlace<'_>, value: &Value) -> Result<Stmt, Fault>
    ensures { (seen : ℕ) → Reads (λ s. (step_of s, seen)) result
        (verb_at walk.now.tables.now (path_of walk.now.body.now) (path_of place.now) seen (Some verb.Give)
        (item (view value.now) no_items)) }
{
    let value = read_expr(walk.alloc, &JsonPlace::Item(place, 1), 1, value)?;
    Ok(Stmt::Give(value))
}

/// `fail`: the code of the failure.
fn read_fail(walk: &Walk<'_>, place: &JsonPlace<'_>, failure: &Value) -> Result<Stmt, Fault>
    ensures { (seen : ℕ) → Reads (λ s. (step_of s, seen)) result
        (verb_at walk.now.tables.now (path_of walk.now.body.now) (path_of place.now) seen (Some verb.Fail)
        (item (view failure.now) no_items)) }
{
    match code(failure) {
        Some(failure) => Ok(Stmt::Fail(failure)),
        None => Err(fault_at(walk.alloc, place)),
    }
}

/// A statement without blocks, of this verb.
fn read_flat(
    walk: &Walk<'_>,
    place: &JsonPlace<'_>,
    verb: Verb,
    operands: &[Value],
) -> Result<Stmt, Fault>
    requires { has_blocks verb ≡ false }
    ensures { (seen : ℕ) → Reads (λ s. (step_of s, seen)) result
        (verb_at walk.now.tables.now (path_of walk.now.body.now) (path_of place.now) seen (Some verb)
        (items_view operands.now)) }
{
    match operands {
        [] => Err(fault_at(walk.alloc, place)),
        [x] => read_one(walk, place, verb, x),
        [x, y] => read_two(walk, place, verb, x, y),
        [x, y, z] => read_three(walk, place, verb, x, y, z),
        [w, x, y, z] => read_four(walk, place, verb, w, x, y, z),
        _ => Err(fault_at(walk.alloc, place)),
    }
}

/// The statement of this verb with one operand.
fn read_one(walk: &Walk<'_>, place: &JsonPlace<'_>, verb: Verb, x: &Value) -> Result<Stmt, Fault>
    ensures { (seen : ℕ) → Reads (λ s. (step_of s, seen)) result
        (verb_at walk.now.tables.now (path_of walk.now.body.now) (path_of place.now) seen (Some verb)
        (item (view x.now) no_items)) }
{
    match verb {
        Verb::Give => read_give(walk, place, x),
        Verb::Fail => read_fail(walk, place, x),
        _ => Err(fault_at(walk.alloc, place)),
    }
}

/// The statement of this verb with two operands.
fn read_two(
    walk: &Walk<'_>,
    place: &JsonPlace<'_>,
    verb: Verb,
    x: &Value,
    y: &Value,
) -> Result<Stmt, Fault>
    requires { has_blocks verb ≡ false }
    ensures { (seen : ℕ) → Reads (λ s. (step_of s, seen)) result
        (verb_at walk.now.tables.now (path_of walk.now.body.now) (path_of place.now) seen (Some verb)
        (item (view x.now) (item (view y.now) no_items))) }
{
    match verb {
        Verb::Let => read_let(walk, place, x, y),
        Verb::Del => read_del(walk, place, x, y),
        _ => Err(fault_at(walk.alloc, place)),
    }
}

/// The statement of this verb with three operands.
fn read_three(
    walk: &Walk<'_>,
    place: &JsonPlace<'_>,
    verb: Verb,
    x: &Value,
    y: &Value,
    z: &Value,
) -> Result<Stmt, Fault>
    requires { has_blocks verb ≡ false }
    ensures { (seen : ℕ) → Reads (λ s. (step_of s, seen)) result
        (verb_at walk.now.tables.now (path_of walk.now.body.now) (path_of place.now) seen (Some verb)
        (item (view x.now) (item (view y.now) (item (view z.now) no_items)))) }
{
    match verb {
        Verb::Get => read_get(walk, place, x, y, z),
        Verb::Put => read_put(walk, place, x, y, z),
        _ => Err(fault_at(walk.alloc, place)),
    }
}

/// The statement of this verb with four operands.
fn read_four(
    walk: &Walk<'_>,
    place: &JsonPlace<'_>,
    verb: Verb,
    w: &Value,
    x: &Value,
    y: &Value,
    z: &Value,
) -> Result<Stmt, Fault>
    ensures { (seen : ℕ) → Reads (λ s. (step_of s, seen)) result
        (verb_at walk.now.tables.now (path_of walk.now.body.now) (path_of place.now) seen (Some verb)
        (item (view w.now) (item (view x.now) (item (view y.now) (item (view z.now) no_items))))) }
{
    match verb {
        Verb::Need => read_need(walk, place, w, x, y, z),
        Verb::Find => read_find(walk, place, w, x, y, z),
        _ => Err(fault_at(walk.alloc, place)),
    }
}

/// The verb with the name that the value says.
fn verb_of(name: &Value) -> Option<Verb>
    ensures { result ≡ option_and_then verb_named (as_str (view name.now)) }
{
    verb_named(name.as_str()?)
}

/// The statement that the value says, and how many there are up to its end, it being the last of
/// `seen`.
#[cycle(walking)]
fn read_stmt(
    walk: &Walk<'_>,
    place: &JsonPlace<'_>,
    seen: usize,
    value: &Value,
) -> Result<(Stmt, usize), Fault>
    ensures { Reads (λ s. (step_of s.0, s.1)) result
        (step_at walk.now.tables.now (path_of walk.now.body.now) (path_of place.now) seen
        (view value.now)) }
{
    match value {
        Value::Array(items) => read_statement(walk, place, seen, items),
        _ => Err(fault_at(walk.alloc, place)),
    }
}

/// The statement of this array.
#[cycle(walking)]
fn read_statement(
    walk: &Walk<'_>,
    place: &JsonPlace<'_>,
    seen: usize,
    items: &Vec<Value>,
) -> Result<(Stmt, usize), Fault>
    ensures { Reads (λ s. (step_of s.0, s.1)) result
        (statement_at walk.now.tables.now (path_of walk.now.body.now) (path_of place.now) seen
        (items_view items.now.items)) }
{
    let Some((name, operands)) = items.split_first() else {
        return Err(fault_at(walk.alloc, place));
    };
    match verb_of(name) {
        Some(verb) => read_verb(walk, place, seen, verb, operands),
        None => Err(fault_at(walk.alloc, place)),
    }
}

/// The statement of this verb with these operands.
#[cycle(walking)]
fn read_verb(
    walk: &Walk<'_>,
    place: &JsonPlace<'_>,
    seen: usize,
    verb: Verb,
    operands: &[Value],
) -> Result<(Stmt, usize), Fault>
    ensures { Reads (λ s. (step_of s.0, s.1)) result
        (verb_at walk.now.tables.now (path_of walk.now.body.now) (path_of place.now) seen (Some verb)
        (items_view operands.now)) }
{
    match verb {
        Verb::If => read_if(walk, place, seen, operands),
        Verb::Each => read_each(walk, place, seen, operands),
        _ => {
            let stmt = read_flat(walk, place, verb, operands)?;
            Ok((stmt, seen))
        }
    }
}

/// `if`: a test and two blocks.
#[cycle(walking)]
fn read_if(
    walk: &Walk<'_>,
    place: &JsonPlace<'_>,
    seen: usize,
    operands: &[Value],
) -> Result<(Stmt, usize), Fault>
    ensures { Reads (λ s. (step_of s.0, s.1)) result
        (verb_at walk.now.tables.now (path_of walk.now.body.now) (path_of place.now) seen (Some verb.If)
        (items_view operands.now)) }
{
    let [test, first, second] = operands else {
        return Err(fault_at(walk.alloc, place));
    };
    let test = read_test(walk, place, test)?;
    let (first, seen) = read_block(walk, place, 2, seen, first)?;
    let (second, seen) = read_block(walk, place, 3, seen, second)?;
    Ok((Stmt::If(Box::into_inner(test), first, second), seen))
}

/// The test of an `if`. It is in a box, since the proof of who reads the blocks behind it lets a box go
/// in one step, and an expression by its cases.
fn read_test(walk: &Walk<'_>, place: &JsonPlace<'_>, test: &Value) -> Result<Box<Expr>, Fault>
    ensures { Reads (λ e. term_of e.value) result
        (term_at (in_item (path_of place.now) 1) 1 (view test.now)) }
{
    let expr = read_expr(walk.alloc, &JsonPlace::Item(place, 1), 1, test)?;
    Ok(Box::new(walk.alloc, expr)?)
}

/// `each`: a list argument and a block.
#[cycle(walking)]
fn read_each(
    walk: &Walk<'_>,
    place: &JsonPlace<'_>,
    seen: usize,
    operands: &[Value],
) -> Result<(Stmt, usize), Fault>
    ensures { Reads (λ s. (step_of s.0, s.1)) result
        (verb_at walk.now.tables.now (path_of walk.now.body.now) (path_of place.now) seen (Some verb.Each)
        (items_view operands.now)) }
{
    let [list, block] = operands else {
        return Err(fault_at(walk.alloc, place));
    };
    let Some(list) = index(list) else {
        return Err(fault_at(walk.alloc, place));
    };
    let (block, seen) = read_block(walk, place, 2, seen, block)?;
    Ok((Stmt::Each(list, block), seen))
}

/// The block that is the operand at this place of the statement, and how many statements there are
/// up to its end, with `seen` before it.
#[cycle(walking)]
fn read_block(
    walk: &Walk<'_>,
    place: &JsonPlace<'_>,
    at: usize,
    seen: usize,
    value: &Value,
) -> Result<(Block, usize), Fault>
    ensures { Reads (λ b. (b.0, b.1)) result
        (block_at walk.now.tables.now (path_of walk.now.body.now) (path_of place.now) at seen
        (view value.now)) }
{
    match value {
        Value::Array(items) => read_steps(walk, &JsonPlace::Item(&*place, at), seen, items),
        _ => Err(fault_at(walk.alloc, place)),
    }
}

/// The statements of the array at this place.
#[cycle(walking)]
fn read_steps(
    walk: &Walk<'_>,
    place: &JsonPlace<'_>,
    seen: usize,
    items: &Vec<Value>,
) -> Result<(Block, usize), Fault>
    ensures { Reads (λ b. (b.0, b.1)) result
        (steps_after walk.now.tables.now (path_of walk.now.body.now) (path_of place.now) 0 seen []
        (items_view items.now.items)) }
{
    let mut seen = seen;
    let mut stmts = Vec::with_capacity(walk.alloc, items.len().min(MOST_STATEMENTS))?;
    for (at, item) in items.iter().enumerate() {
        if seen >= MOST_STATEMENTS {
            return Err(fault_at(walk.alloc, walk.body));
        }
        let (stmt, after) = read_stmt(walk, &JsonPlace::Item(&*place, at), seen + 1, item)?;
        stmts.push(stmt)?;
        seen = after;
    }
    Ok((Block::from_vec(stmts), seen))
}

/// The body of a procedure, at this place.
pub fn read_body(
    alloc: Global,
    tables: &[Table],
    place: &JsonPlace<'_>,
    value: &Value,
) -> Result<Block, Fault>
    requires { length tables.now ≤ MOST_TABLES }
    ensures { Reads (λ b. b) result (body_at tables.now (path_of place.now) (view value.now)) }
{
    let Some(items) = value.as_array() else {
        return Err(fault_at(alloc, place));
    };
    let walk = Walk {
        alloc,
        tables,
        body: place,
    };
    let (block, _) = read_steps(&walk, place, 0, items)?;
    Ok(block)
}
