// How a run takes a row from its window.
ghost use Rattle.std.specs.Prelude.{IfOk};
ghost use Rattle.std.specs.Option.{option_copied};
ghost use Rattle.proc_exec.specs.Steppings.{Taken, Filled};

use crate::frames::Running;
use aria_base::{Key, Memory, Row};
use lent_rows::Lends;
use proc_lang::{Access, Regs};
use std::alloc::Global;

/// A way to read a row into registers.
pub trait Reads<A: Access> {
    /// Reads the row of a key into registers, as far as there are both, and tells whether there is one.
    fn read_row(
        &self,
        alloc: Global,
        access: &mut A,
        key: Key,
        registers: &Regs,
        state: &mut Running,
    ) -> Result<bool, Memory>
        ensures { IfOk result (λ found. Taken found key registers.now state.old state.new (A.seen access.old) (A.seen access.new)) };
}

/// By a row of its own, which any window gives.
#[derive(Clone, Copy, Debug)]
pub struct Whole;

/// From the row where it lies, in a window that lends it: what is not asked for is not copied.
#[derive(Clone, Copy, Debug)]
pub struct Lent;

impl<A: Access> Reads<A> for Whole {
    fn read_row(
        &self,
        _alloc: Global,
        access: &mut A,
        key: Key,
        registers: &Regs,
        state: &mut Running,
    ) -> Result<bool, Memory> {
        match access.read(&key)? {
            Some(row) => {
                state.set_row(registers, row);
                Ok(true)
            }
            None => Ok(false),
        }
    }
}

impl<A: Lends> Reads<A> for Lent {
    fn read_row(
        &self,
        alloc: Global,
        access: &mut A,
        key: Key,
        registers: &Regs,
        state: &mut Running,
    ) -> Result<bool, Memory> {
        let mark = access.mark(&key);
        let found = copy_found(alloc, access.look(mark, &key), registers, state)?;
        access.note(mark, key)?;
        Ok(found)
    }
}

/// Copies the columns of a row that was found into registers, and tells whether one was.
fn copy_found(
    alloc: Global,
    found: Option<&Row>,
    registers: &Regs,
    state: &mut Running,
) -> Result<bool, Memory>
    ensures { IfOk result (λ there. Filled there (option_copied found.entry) registers.now state.old state.new) }
{
    match found {
        Some(row) => {
            state.copy_row(alloc, registers, row)?;
            Ok(true)
        }
        None => Ok(false),
    }
}
