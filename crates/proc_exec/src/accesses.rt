// The statements that make an access: each reads or writes one row, within what the run may touch.
ghost use Rattle.std.specs.declared.result.Result.TheVariants.{Ok};
ghost use Rattle.proc_lang.specs.Steps as step;
ghost use Rattle.proc_lang.specs.Meaning.{writes};
ghost use Rattle.proc_exec.specs.Scopes.{step_in};
ghost use Rattle.proc_exec.specs.Steppings.{Performs, Fetched};

use crate::early_ends::RunStop;
use crate::frames::Running;
use crate::limits::Limits;
use crate::readings::Reads;
use crate::scopes::Setting;
use aria_base::{Key, Row};
use proc_lang::{Access, Exprs, Regs, Trap};
use std::alloc::Global;

/// Reads a row into registers. Where there is none, the trap `Absent`.
pub fn get<L: Limits, A: Access, S: Reads<A>>(
    setting: &Setting<L, S>,
    table: u16,
    key: &Exprs,
    registers: &Regs,
    state: &mut Running,
    access: &mut A,
) -> Result<(), RunStop>
    ensures { Performs result (L.declared setting.now.limits.now) (step_in setting.now.scope (step.Read step.Traps table key.now registers.now)) state.old state.new (A.seen access.old) (A.seen access.new) }
{
    let key = state.key(&setting.scope, table, key)?;
    if !fetch(setting, key, registers, state, access)? {
        return Err(RunStop::Trap(Trap::Absent));
    }
    Ok(())
}

/// Reads the row of a key into registers. Where there is none, the run fails with the code.
pub fn need<L: Limits, A: Access, S: Reads<A>>(
    setting: &Setting<L, S>,
    table: u16,
    key: &Exprs,
    registers: &Regs,
    code: u16,
    state: &mut Running,
    access: &mut A,
) -> Result<(), RunStop>
    ensures { Performs result (L.declared setting.now.limits.now) (step_in setting.now.scope (step.Read (step.Fails code) table key.now registers.now)) state.old state.new (A.seen access.old) (A.seen access.new) }
{
    let key = state.key(&setting.scope, table, key)?;
    if !fetch(setting, key, registers, state, access)? {
        return Err(RunStop::Back(code));
    }
    Ok(())
}

/// Reads the row of a key into registers. Where there is none, the registers get blanks. The flag, set last,
/// tells 1 or 0.
pub fn find<L: Limits, A: Access, S: Reads<A>>(
    setting: &Setting<L, S>,
    table: u16,
    key: &Exprs,
    registers: &Regs,
    flag: u32,
    state: &mut Running,
    access: &mut A,
) -> Result<(), RunStop>
    ensures { Performs result (L.declared setting.now.limits.now) (step_in setting.now.scope (step.Read (step.Blanks flag) table key.now registers.now)) state.old state.new (A.seen access.old) (A.seen access.new) }
{
    let key = state.key(&setting.scope, table, key)?;
    if fetch(setting, key, registers, state, access)? {
        state.set_flag(flag);
        return Ok(());
    }
    state.set_missed(setting.scope.alloc, registers, flag)?;
    Ok(())
}

/// Writes a row.
pub fn put<L: Limits, A: Access, S: Reads<A>>(
    setting: &Setting<L, S>,
    table: u16,
    key: &Exprs,
    columns: &Exprs,
    state: &mut Running,
    access: &mut A,
) -> Result<(), RunStop>
    ensures { Performs result (L.declared setting.now.limits.now) (step_in setting.now.scope (step.Put table key.now columns.now)) state.old state.new (A.seen access.old) (A.seen access.new) }
{
    let key = state.key(&setting.scope, table, key)?;
    let row = state.row(&setting.scope, columns)?;
    store(
        setting.scope.alloc,
        setting.limits,
        key,
        Some(row),
        state,
        access,
    )
}

/// Deletes a row, which need not be there.
pub fn delete<L: Limits, A: Access, S: Reads<A>>(
    setting: &Setting<L, S>,
    table: u16,
    key: &Exprs,
    state: &mut Running,
    access: &mut A,
) -> Result<(), RunStop>
    ensures { Performs result (L.declared setting.now.limits.now) (step_in setting.now.scope (step.Del table key.now)) state.old state.new (A.seen access.old) (A.seen access.new) }
{
    let key = state.key(&setting.scope, table, key)?;
    store(
        setting.scope.alloc,
        setting.limits,
        key,
        None,
        state,
        access,
    )
}

/// Reads the row of a key into registers, as far as there are both, and tells whether there is one.
fn fetch<L: Limits, A: Access, S: Reads<A>>(
    setting: &Setting<L, S>,
    key: Key,
    registers: &Regs,
    state: &mut Running,
    access: &mut A,
) -> Result<bool, RunStop>
    ensures { Fetched result (L.declared setting.now.limits.now) key registers.now state.old state.new (A.seen access.old) (A.seen access.new) }
{
    let alloc = setting.scope.alloc;
    state.count()?;
    if !setting.limits.allows_read(&key, &mut state.likely) {
        return Err(RunStop::Moved(Box::new(alloc, key)?));
    }
    Ok(
        setting
            .reads
            .read_row(alloc, access, key, registers, state)?,
    )
}

/// Sets or removes the row of a key.
fn store<L: Limits, A: Access>(
    alloc: Global,
    limits: &L,
    key: Key,
    row: Option<Row>,
    state: &mut Running,
    access: &mut A,
) -> Result<(), RunStop>
    ensures { Performs result (L.declared limits.now) (writes (Ok key) (Ok row)) state.old state.new (A.seen access.old) (A.seen access.new) }
{
    state.count()?;
    if !limits.allows_write(&key, &mut state.likely) {
        return Err(RunStop::Moved(Box::new(alloc, key)?));
    }
    access.write(key, row)?;
    Ok(())
}
