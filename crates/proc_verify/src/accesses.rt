// Statements that read or write a row.
ghost use Rattle.std.specs.Prelude.{◌≡◌, ◌++◌, [], IfOk, Ok};
ghost use Rattle.std.specs.Cmp.Lexicographic.{pointwise};
ghost use Rattle.aria_base.specs.declared.values.Kind.TheVariants as kind;
ghost use Rattle.proc_lang.specs.Values.{got};
ghost use Rattle.proc_lang.specs.Typing.{agree, deletes, keyed, kinds_after, reads, same_kind, set_all, set_one, shaped, writes};
ghost use Rattle.proc_verify.specs.Scopes.{seen};

use crate::assignments::{set_all, set_one};
use crate::causes::{Typed, wanted};
use crate::expressions::{kinds_after, same_kind};
use crate::registers::SetRegisters;
use crate::scopes::CheckScope;
use aria_base::{Duplicate, Kind, Kinds, Memory, Table};
use proc_lang::{COLUMNS, Exprs, KEY_LENGTH, KIND, Regs, UNKNOWN_TABLE};
use std::alloc::Global;

/// The table, which has keys of so many parts.
fn keyed<'a>(scope: &CheckScope<'a>, table: u16, parts: usize) -> Typed<&'a Table>
    ensures { got result (λ found. Ok found.now) ≡ keyed (seen scope.now) table parts }
{
    let schema = scope.schema;
    let Some(found) = schema.as_slice().get(usize::from(table)) else {
        return Err(UNKNOWN_TABLE);
    };
    wanted(KEY_LENGTH, parts == found.key.as_slice().len())?;
    Ok(found)
}

/// The table, which has keys of so many parts and so many columns.
fn shaped<'a>(scope: &CheckScope<'a>, table: u16, parts: usize, columns: usize) -> Typed<&'a Table>
    ensures { got result (λ found. Ok found.now) ≡ shaped (seen scope.now) table parts columns }
{
    let found = keyed(scope, table, parts)?;
    wanted(COLUMNS, columns == found.cols.as_slice().len())?;
    Ok(found)
}

/// Whether these are the kinds that are wanted, one by one.
fn same_kinds(kinds: &Kinds, takes: &Kinds) -> bool
    ensures { result ≡ pointwise same_kind kinds.now takes.now }
{
    let kinds = kinds.as_slice();
    let takes = takes.as_slice();
    if kinds.len() != takes.len() {
        return false;
    }
    for (at, kind) in kinds.iter().enumerate() {
        if !same_kind(*kind, takes[at]) {
            return false;
        }
    }
    true
}

/// Fails where the kinds are not those that are wanted.
fn agree(takes: &Kinds, kinds: Typed<Kinds>) -> Typed<()>
    ensures { result ≡ agree takes.now kinds }
{
    wanted(KIND, same_kinds(&kinds?, takes))
}

/// The kinds of a table's key parts, and then of its columns.
fn row_kinds(alloc: Global, table: &Table) -> Result<Kinds, Memory>
    ensures { IfOk result (λ kinds. kinds ≡ table.now.key ++ table.now.cols) }
{
    let mut kinds = table.key.duplicate(alloc)?.into_vec();
    kinds.extend_from_slice(table.cols.as_slice())?;
    Ok(Kinds::from_vec(kinds))
}

/// The kinds of a key, and then of columns.
fn kinds_of_row(
    alloc: Global,
    scope: &CheckScope,
    set: &SetRegisters,
    key: &Exprs,
    columns: &Exprs,
) -> Result<Typed<Kinds>, Memory>
    ensures { IfOk result (λ kinds. kinds ≡ got (kinds_after (seen scope.now) set.now [] key.now) (λ done. kinds_after (seen scope.now) set.now done columns.now)) }
{
    match kinds_of(alloc, scope, set, key)? {
        Ok(kinds) => kinds_after(scope, set, kinds, columns),
        Err(cause) => Ok(Err(cause)),
    }
}

/// The kinds of a key.
fn kinds_of(
    alloc: Global,
    scope: &CheckScope,
    set: &SetRegisters,
    key: &Exprs,
) -> Result<Typed<Kinds>, Memory>
    ensures { IfOk result (λ kinds. kinds ≡ kinds_after (seen scope.now) set.now [] key.now) }
{
    kinds_after(scope, set, Kinds::from_vec(Vec::new(alloc)), key)
}

/// A row of this table into registers, by a key of these kinds.
fn read_into(
    scope: &CheckScope,
    table: &Table,
    kinds: Typed<Kinds>,
    registers: &Regs,
    set: SetRegisters,
) -> Typed<SetRegisters>
    ensures { result ≡ got (agree table.now.key kinds) (λ _. set_all (seen scope.now) registers.now table.now.cols set) }
{
    agree(&table.key, kinds)?;
    set_all(scope, registers, &table.cols, set)
}

/// Which registers are set behind a statement that reads a row into registers.
pub fn reads(
    alloc: Global,
    scope: &CheckScope,
    table: u16,
    key: &Exprs,
    registers: &Regs,
    set: SetRegisters,
) -> Result<Typed<SetRegisters>, Memory>
    ensures { IfOk result (λ typed. typed ≡ reads (seen scope.now) table key.now registers.now set) }
{
    let parts = key.as_slice().len();
    match shaped(scope, table, parts, registers.as_slice().len()) {
        Ok(table) => {
            let kinds = kinds_of(alloc, scope, &set, key)?;
            Ok(read_into(scope, table, kinds, registers, set))
        }
        Err(cause) => Ok(Err(cause)),
    }
}

/// The same, where a last register becomes 1 or 0.
pub fn finds(
    alloc: Global,
    scope: &CheckScope,
    table: u16,
    key: &Exprs,
    registers: &Regs,
    flag: u32,
    set: SetRegisters,
) -> Result<Typed<SetRegisters>, Memory>
    ensures { IfOk result (λ typed. typed ≡ got (reads (seen scope.now) table key.now registers.now set) (set_one (seen scope.now) flag kind.Int)) }
{
    match reads(alloc, scope, table, key, registers, set)? {
        Ok(set) => Ok(set_one(scope, flag, Kind::Int, set)),
        Err(cause) => Ok(Err(cause)),
    }
}

/// Which registers are set behind a statement that writes a row: those before it.
pub fn writes(
    alloc: Global,
    scope: &CheckScope,
    table: u16,
    key: &Exprs,
    columns: &Exprs,
    set: SetRegisters,
) -> Result<Typed<SetRegisters>, Memory>
    ensures { IfOk result (λ typed. typed ≡ writes (seen scope.now) table key.now columns.now set) }
{
    let parts = key.as_slice().len();
    match shaped(scope, table, parts, columns.as_slice().len()) {
        Ok(table) => {
            let kinds = kinds_of_row(alloc, scope, &set, key, columns)?;
            let takes = row_kinds(alloc, table)?;
            Ok(kept(&takes, kinds, set))
        }
        Err(cause) => Ok(Err(cause)),
    }
}

/// Which registers are set behind a statement that deletes a row: those before it.
pub fn deletes(
    alloc: Global,
    scope: &CheckScope,
    table: u16,
    key: &Exprs,
    set: SetRegisters,
) -> Result<Typed<SetRegisters>, Memory>
    ensures { IfOk result (λ typed. typed ≡ deletes (seen scope.now) table key.now set) }
{
    match keyed(scope, table, key.as_slice().len()) {
        Ok(table) => {
            let kinds = kinds_of(alloc, scope, &set, key)?;
            Ok(kept(&table.key, kinds, set))
        }
        Err(cause) => Ok(Err(cause)),
    }
}

/// The registers as they were, where the kinds are those that are wanted.
fn kept(takes: &Kinds, kinds: Typed<Kinds>, set: SetRegisters) -> Typed<SetRegisters>
    ensures { result ≡ got (agree takes.now kinds) (λ _. Ok set) }
{
    agree(takes, kinds)?;
    Ok(set)
}
