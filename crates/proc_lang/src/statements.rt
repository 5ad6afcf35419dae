// Statements and blocks: what a procedure does.
ghost use Rattle.std.specs.Prelude.{◌≡◌, IfOk};
ghost use Rattle.proc_lang.specs.Steps.{steps_size};
ghost use Rattle.proc_lang.specs.Syntax.{step_of, steps_of, AllSmaller};

use crate::expressions::{Expr, Exprs, copy_expr};
use aria_base::{Duplicate, Items, Memory};
use std::alloc::Global;
use std::marker::Model;

/// Registers, in the order in which a row's columns go into them. A register that stands twice gets
/// the later column.
pub type Regs = Items<u32>;

/// A statement. A table is named by its number. A code is from 1 to 999. The access is the last thing
/// that a statement does: before it come the parts of the key, and after them the columns.
#[cycle(syntax)]
#[derive(Drop)]
pub enum Stmt {
    /// Sets a register.
    Let(u32, Expr),
    /// Reads the row of a key into registers. Where there is none, the trap `Absent`.
    Get(u16, Exprs, Regs),
    /// Reads the row of a key into registers. Where there is none, the run fails with this code.
    Need(u16, Exprs, Regs, u16),
    /// Reads the row of a key into registers. Where there is none, the registers get 0 or the empty text.
    /// The last register is set after the others and tells 1 or 0: whether there was one.
    Find(u16, Exprs, Regs, u32),
    /// Writes a row: the key, then the columns.
    Put(u16, Exprs, Exprs),
    /// Deletes the row of a key.
    Del(u16, Exprs),
    /// Runs one of two blocks: the second where the number is 0, and otherwise the first.
    If(Expr, Block, Block),
    /// The block once for each tuple of a list argument, in order.
    Each(u32, Block),
    /// Puts one more value behind those that the reply has.
    Give(Expr),
    /// The run fails with this code.
    Fail(u16),
}

/// Statements, one after another. A contract sees them without memory.
#[cycle(syntax)]
#[derive(Drop)]
pub struct Block {
    items: Vec<Stmt>,
}

impl Model for Block {
    ghost use Rattle.proc_lang.specs.Steps.{Steps, steps_size};
    ghost use Rattle.proc_lang.specs.StepCodes.{steps_code};

    ghost Value = { Steps };

    ghost coded = { steps_code };

    ghost use Rattle.proc_lang.specs.Syntax.{steps_of};

    ghost view = { λ a. steps_of a.items.items };

    ghost size = { steps_size };

    ghost use Rattle.std.proofs.Common.{arith};
    ghost use Rattle.proc_lang.specs.Falls.{most_le-size};

    ghost size_decreases = { λ a h. omega (arith, most_le-size a.items.items) };
}

impl Block {
    /// The block of these statements.
    pub fn from_vec(items: Vec<Stmt>) -> Self
        ensures { result ≡ steps_of items.items }
    {
        Block { items }
    }

    /// The statements, in their order. Each is smaller than the block.
    #[tactic(auto, using(crate::proofs::Smaller::all_smaller))]
    pub fn as_slice(&self) -> &[Stmt]
        ensures list { steps_of result.now ≡ self.now }
        ensures smaller { AllSmaller result.now (steps_size self.now) }
    {
        self.items.as_slice()
    }
}

impl Duplicate for Block {
    #[cycle(copying)]
    fn duplicate(&self, alloc: Global) -> Result<Self, Memory> {
        let mut copy = Vec::with_capacity(alloc, self.items.len())?;
        for item in &self.items {
            copy.push(copy_stmt(alloc, item)?)?;
        }
        Ok(Block { items: copy })
    }
}

/// A statement that means the same as this one.
#[cycle(copying)]
pub(crate) fn copy_stmt(alloc: Global, stmt: &Stmt) -> Result<Stmt, Memory>
    ensures { IfOk result (λ copy. step_of copy ≡ step_of stmt.now) }
{
    match stmt {
        Stmt::Let(register, value) => Ok(Stmt::Let(*register, copy_expr(alloc, value)?)),
        Stmt::Get(table, key, registers) => {
            let (key, registers) = copy_read(alloc, key, registers)?;
            Ok(Stmt::Get(*table, key, registers))
        }
        Stmt::Need(table, key, registers, code) => {
            let (key, registers) = copy_read(alloc, key, registers)?;
            Ok(Stmt::Need(*table, key, registers, *code))
        }
        Stmt::Find(table, key, registers, flag) => {
            let (key, registers) = copy_read(alloc, key, registers)?;
            Ok(Stmt::Find(*table, key, registers, *flag))
        }
        Stmt::Put(table, key, columns) => Ok(Stmt::Put(
            *table,
            key.duplicate(alloc)?,
            columns.duplicate(alloc)?,
        )),
        Stmt::Del(table, key) => Ok(Stmt::Del(*table, key.duplicate(alloc)?)),
        Stmt::If(test, first, second) => {
            Ok(Stmt::If(
                copy_expr(alloc, test)?,
                first.duplicate(alloc)?,
                second.duplicate(alloc)?,
            ))
        }
        Stmt::Each(argument, body) => Ok(Stmt::Each(*argument, body.duplicate(alloc)?)),
        Stmt::Give(value) => Ok(Stmt::Give(copy_expr(alloc, value)?)),
        Stmt::Fail(code) => Ok(Stmt::Fail(*code)),
    }
}

/// What the statements that read a row have in common.
fn copy_read(alloc: Global, key: &Exprs, registers: &Regs) -> Result<(Exprs, Regs), Memory>
    ensures { IfOk result (λ copies. (copies.0 ≡ key.now) × (copies.1 ≡ registers.now)) }
{
    Ok((key.duplicate(alloc)?, registers.duplicate(alloc)?))
}
