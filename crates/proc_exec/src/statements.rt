// The statements of a procedure, one after another.
ghost use Rattle.std.specs.Prelude.{IfOk};
ghost use Rattle.proc_lang.specs.Steps as step;
ghost use Rattle.proc_lang.specs.Syntax.{step_of};
ghost use Rattle.proc_lang.specs.Meaning.{script};
ghost use Rattle.proc_exec.specs.Scopes.{step_in, steps_in};
ghost use Rattle.proc_exec.specs.Steppings.{Performs, ComesTo};

use crate::accesses::{delete, find, get, need, put};
use crate::early_ends::RunStop;
use crate::frames::Running;
use crate::limits::Limits;
use crate::outcomes::Ran;
use crate::readings::Reads;
use crate::scopes::{RunScope, Setting};
use aria_base::{Memory, Request};
use proc_lang::{Access, Block, End, Proc, Stmt};
use std::alloc::Global;

/// Runs a procedure for a request, within these limits. Rows are read in this way.
pub fn run_proc<L: Limits, A: Access, S: Reads<A>>(
    alloc: Global,
    limits: &L,
    reads: &S,
    proc: &Proc,
    request: &Request,
    access: &mut A,
) -> Result<Ran, Memory>
    ensures { IfOk result (ComesTo (L.declared limits.now) (script proc.now.body proc.now.regs request.now) (A.seen access.old) (A.seen access.new)) }
{
    let scope = RunScope {
        alloc,
        request,
        item: &[],
    };
    let mut state = Running::start(alloc, &proc.regs)?;
    let setting = Setting {
        scope,
        limits,
        reads,
    };
    match run_block(&setting, &proc.body, &mut state, access) {
        Ok(()) => Ok(Ran::Ended(End::Done(state.into_given()))),
        Err(RunStop::Back(code)) => Ok(Ran::Ended(End::Back(code))),
        Err(RunStop::Trap(trap)) => Ok(Ran::Ended(End::Trap(trap))),
        Err(RunStop::Moved(key)) => Ok(Ran::Moved(Box::into_inner(key))),
        Err(RunStop::Memory) => Err(Memory),
    }
}

/// Runs the statements of a block, one after another.
#[cycle(running)]
fn run_block<L: Limits, A: Access, S: Reads<A>>(
    setting: &Setting<L, S>,
    block: &Block,
    state: &mut Running,
    access: &mut A,
) -> Result<(), RunStop>
    ensures { Performs result (L.declared setting.now.limits.now) (steps_in setting.now.scope block.now) state.old state.new (A.seen access.old) (A.seen access.new) }
{
    for stmt in block.as_slice() {
        run_stmt(setting, stmt, state, access)?;
    }
    Ok(())
}

/// Runs one statement.
#[cycle(running)]
fn run_stmt<L: Limits, A: Access, S: Reads<A>>(
    setting: &Setting<L, S>,
    stmt: &Stmt,
    state: &mut Running,
    access: &mut A,
) -> Result<(), RunStop>
    ensures { Performs result (L.declared setting.now.limits.now) (step_in setting.now.scope (step_of stmt.now)) state.old state.new (A.seen access.old) (A.seen access.new) }
{
    match stmt {
        Stmt::Let(register, expr) => Ok(state.assign(&setting.scope, *register, expr)?),
        Stmt::Get(table, key, registers) => get(setting, *table, key, registers, state, access),
        Stmt::Need(table, key, registers, code) => need(
            setting, *table, key, registers, *code, state, access,
        ),
        Stmt::Find(table, key, registers, flag) => find(
            setting, *table, key, registers, *flag, state, access,
        ),
        Stmt::Put(table, key, columns) => put(setting, *table, key, columns, state, access),
        Stmt::Del(table, key) => delete(setting, *table, key, state, access),
        Stmt::If(test, first, second) => {
            let test = state.test(&setting.scope, test)?;
            let block = if test { first } else { second };
            run_block(setting, block, state, access)
        }
        Stmt::Each(list, body) => run_each(setting, *list, body, state, access),
        Stmt::Give(expr) => Ok(state.give(&setting.scope, expr)?),
        Stmt::Fail(code) => Err(RunStop::Back(*code)),
    }
}

/// Runs a block for each tuple of a list argument.
#[cycle(running)]
fn run_each<L: Limits, A: Access, S: Reads<A>>(
    setting: &Setting<L, S>,
    argument: u32,
    block: &Block,
    state: &mut Running,
    access: &mut A,
) -> Result<(), RunStop>
    ensures { Performs result (L.declared setting.now.limits.now) (step_in setting.now.scope (step.Each argument block.now)) state.old state.new (A.seen access.old) (A.seen access.new) }
{
    let scope = &setting.scope;
    for tuple in scope.tuples(argument) {
        let inner = Setting {
            scope: RunScope {
                item: tuple.as_slice(),
                ..*scope
            },
            limits: setting.limits,
            reads: setting.reads,
        };
        run_block(&inner, block, state, access)?;
    }
    Ok(())
}
