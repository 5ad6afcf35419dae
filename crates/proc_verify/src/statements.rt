// Statements and blocks, in the order in which they are written.
ghost use Rattle.std.specs.Prelude.{◌≡◌, ◌+◌, ◌<◌, ◌≤◌, [], IfOk};
ghost use Rattle.proc_lang.specs.Catalogs.{step_count, steps_count};
ghost use Rattle.proc_lang.specs.Steps as step;
ghost use Rattle.proc_lang.specs.Syntax.{step_of};
ghost use Rattle.proc_lang.specs.TermOf.{term_of};
ghost use Rattle.proc_lang.specs.Values.{got};
ghost use Rattle.proc_lang.specs.Typing.{goes_over, kind_of, passed, set_one, tests, typed_step, typed_steps};
ghost use Rattle.proc_verify.specs.Scopes.{seen};
ghost use Rattle.proc_verify.specs.Stops.{Reaches, standing};

use crate::accesses::{deletes, finds, reads, writes};
use crate::assignments::set_one;
use crate::causes::{Typed, wanted};
use crate::expressions::{kind_of, same_kind};
use crate::progress::{CheckStop, Reached};
use crate::registers::SetRegisters;
use crate::scopes::CheckScope;
use aria_base::Kind;
use proc_lang::{Block, Expr, KIND, MOST_BLOCKS, MOST_STATEMENTS, NESTING, Stmt};
use std::alloc::Global;

/// Behind the statement with this number, which has no blocks: the registers that are then set, or
/// the cause for which it fails.
fn passed(next: u32, typed: Typed<SetRegisters>) -> Result<Reached, CheckStop>
    requires { next < MOST_STATEMENTS }
    ensures typed { Reaches result (passed (record { next = next; set = [] }) typed) }
    ensures count { IfOk result (λ reached. reached.next ≡ next + 1) }
{
    match typed {
        Ok(set) => Ok(Reached {
            next: next + 1,
            set,
        }),
        Err(cause) => Err(CheckStop::Flaw { place: next, cause }),
    }
}

/// A value into a register.
fn lets(scope: &CheckScope, register: u32, value: &Expr, set: SetRegisters) -> Typed<SetRegisters>
    ensures { result ≡ got (kind_of (seen scope.now) set (term_of value.now)) (λ k. set_one (seen scope.now) register k set) }
{
    let kind = kind_of(scope, &set, value)?;
    set_one(scope, register, kind, set)
}

/// A value into the reply.
fn gives(scope: &CheckScope, value: &Expr, set: SetRegisters) -> Typed<SetRegisters>
    ensures { result ≡ got (kind_of (seen scope.now) set (term_of value.now)) (λ _. Ok set) }
{
    kind_of(scope, &set, value)?;
    Ok(set)
}

/// The test of an `if`.
fn tests(scope: &CheckScope, set: &SetRegisters, test: &Expr) -> Typed<()>
    ensures typed { result ≡ tests (seen scope.now) set.now (term_of test.now) }
    ensures room { IfOk result (λ _. scope.now.blocks < MOST_BLOCKS) }
{
    if MOST_BLOCKS <= scope.blocks {
        return Err(NESTING);
    }
    let kind = kind_of(scope, set, test)?;
    wanted(KIND, same_kind(kind, Kind::Int))
}

/// How many numbers the tuples of an `each` have.
fn goes_over(scope: &CheckScope, argument: u32) -> Typed<u8>
    ensures typed { result ≡ goes_over (seen scope.now) argument }
    ensures room { IfOk result (λ _. scope.now.blocks < MOST_BLOCKS) }
{
    if MOST_BLOCKS <= scope.blocks || scope.tuple.is_some() {
        return Err(NESTING);
    }
    scope.argument_width(argument)
}

/// One statement, with the statements of its blocks.
#[cycle(typing)]
fn typed_step(
    alloc: Global,
    scope: &CheckScope,
    stmt: &Stmt,
    reached: Reached,
) -> Result<Reached, CheckStop>
    requires { reached.next + step_count (step_of stmt.now) ≤ MOST_STATEMENTS }
    ensures typed { Reaches result (typed_step (seen scope.now) (step_of stmt.now) (standing reached)) }
    ensures count { IfOk result (λ after. after.next ≡ reached.next + step_count (step_of stmt.now)) }
{
    let Reached { next, set } = reached;
    match stmt {
        Stmt::Let(register, value) => passed(next, lets(scope, *register, value, set)),
        Stmt::Get(table, key, registers) | Stmt::Need(table, key, registers, _) => {
            passed(next, reads(alloc, scope, *table, key, registers, set)?)
        }
        Stmt::Find(table, key, registers, flag) => passed(
            next,
            finds(alloc, scope, *table, key, registers, *flag, set)?,
        ),
        Stmt::Put(table, key, columns) => {
            passed(next, writes(alloc, scope, *table, key, columns, set)?)
        }
        Stmt::Del(table, key) => passed(next, deletes(alloc, scope, *table, key, set)?),
        Stmt::If(test, first, second) => {
            typed_if(alloc, scope, test, first, second, Reached { next, set })
        }
        Stmt::Each(argument, body) => {
            typed_each(alloc, scope, *argument, body, Reached { next, set })
        }
        Stmt::Give(value) => passed(next, gives(scope, value, set)),
        Stmt::Fail(_) => passed(next, Ok(set)),
    }
}

/// An `if`: its test, then its blocks, each from the registers that are set before it. Behind it
/// those are set that both blocks set.
#[cycle(typing)]
fn typed_if(
    alloc: Global,
    scope: &CheckScope,
    test: &Expr,
    first: &Block,
    second: &Block,
    reached: Reached,
) -> Result<Reached, CheckStop>
    requires { reached.next + (1 + (steps_count first.now + steps_count second.now)) ≤ MOST_STATEMENTS }
    ensures typed { Reaches result (typed_step (seen scope.now) (step.If (term_of test.now) first.now second.now) (standing reached)) }
    ensures count { IfOk result (λ after. after.next ≡ reached.next + (1 + (steps_count first.now + steps_count second.now))) }
{
    let Reached { next, set } = reached;
    if let Err(cause) = tests(scope, &set, test) {
        return Err(CheckStop::Flaw { place: next, cause });
    }
    let inside = scope.inside();
    let start = Reached {
        next: next + 1,
        set: set.copy(alloc)?,
    };
    let after_first = typed_steps(alloc, &inside, first, start)?;
    let start = Reached {
        next: after_first.next,
        set,
    };
    let after_second = typed_steps(alloc, &inside, second, start)?;
    Ok(Reached {
        next: after_second.next,
        set: after_first.set.in_both(alloc, &after_second.set)?,
    })
}

/// An `each`: its argument, then its block. What the block sets is not set behind it.
#[cycle(typing)]
fn typed_each(
    alloc: Global,
    scope: &CheckScope,
    argument: u32,
    body: &Block,
    reached: Reached,
) -> Result<Reached, CheckStop>
    requires { reached.next + (1 + steps_count body.now) ≤ MOST_STATEMENTS }
    ensures typed { Reaches result (typed_step (seen scope.now) (step.Each argument body.now) (standing reached)) }
    ensures count { IfOk result (λ after. after.next ≡ reached.next + (1 + steps_count body.now)) }
{
    let Reached { next, set } = reached;
    match goes_over(scope, argument) {
        Ok(width) => {
            let start = Reached {
                next: next + 1,
                set: set.copy(alloc)?,
            };
            let last = typed_steps(alloc, &scope.inside_each(width), body, start)?;
            Ok(Reached {
                next: last.next,
                set,
            })
        }
        Err(cause) => Err(CheckStop::Flaw { place: next, cause }),
    }
}

/// The statements of a block, one after another.
#[cycle(typing)]
pub fn typed_steps(
    alloc: Global,
    scope: &CheckScope,
    block: &Block,
    reached: Reached,
) -> Result<Reached, CheckStop>
    requires { reached.next + steps_count block.now ≤ MOST_STATEMENTS }
    ensures typed { Reaches result (typed_steps (seen scope.now) block.now (standing reached)) }
    ensures count { IfOk result (λ after. after.next ≡ reached.next + steps_count block.now) }
{
    let mut reached = reached;
    for stmt in block.as_slice() {
        reached = typed_step(alloc, scope, stmt, reached)?;
    }
    Ok(reached)
}
