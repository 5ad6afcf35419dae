// Which registers are set.
ghost use Rattle.std.specs.Prelude.{◌≡◌, false, true, map, slice_index_or, slice_set, IfOk};
ghost use Rattle.proc_lang.specs.Typing.{set_in_both};

use aria_base::{Kinds, Memory};
use std::alloc::Global;
use std::marker::Model;

/// Which of a procedure's registers are set. A contract sees one truth value a register.
#[derive(Drop)]
pub struct SetRegisters {
    flags: Vec<bool>,
}

impl Model for SetRegisters {
    ghost use Rattle.std.specs.Prelude.{List, Bool};

    ghost Value = { List Bool };

    ghost view = { λ a. a.flags.items };
}

impl SetRegisters {
    /// None of these registers.
    pub fn none(alloc: Global, registers: &Kinds) -> Result<SetRegisters, Memory>
        ensures { IfOk result (λ set. set ≡ map (λ _. false) registers.now) }
    {
        let registers = registers.as_slice();
        Ok(SetRegisters {
            flags: registers.iter().map(|_| false).collect(alloc)?,
        })
    }

    /// Whether the register is set; one that is not there is not.
    pub fn contains(&self, register: u32) -> bool
        ensures { result ≡ slice_index_or self.now register false }
    {
        match self.flags.get(register as usize) {
            Some(flag) => *flag,
            None => false,
        }
    }

    /// Sets the register, where it is there.
    pub fn insert(&mut self, register: u32)
        ensures { self.new ≡ slice_set self.old register true }
    {
        let at = register as usize;
        if at < self.flags.len() {
            self.flags[at] = true;
        }
    }

    /// A copy of them. An error: there was no memory.
    pub fn copy(&self, alloc: Global) -> Result<SetRegisters, Memory>
        ensures { IfOk result (λ copy. copy ≡ self.now) }
    {
        let mut flags = Vec::with_capacity(alloc, self.flags.len())?;
        flags.extend_from_slice(&self.flags)?;
        Ok(SetRegisters { flags })
    }

    /// The registers that are set both here and there.
    pub fn in_both(&self, alloc: Global, other: &SetRegisters) -> Result<SetRegisters, Memory>
        ensures { IfOk result (λ both. both ≡ set_in_both self.now other.now) }
    {
        Ok(SetRegisters {
            flags: flags_in_both(alloc, &self.flags, &other.flags)?,
        })
    }
}

/// For each place in both lists, whether both flags there are true.
#[tactic(auto, using(crate::proofs::Pairs::set_in_both_none, std::proofs::lemmas::Grind::common_steps))]
fn flags_in_both(alloc: Global, here: &[bool], there: &[bool]) -> Result<Vec<bool>, Memory>
    ensures { IfOk result (λ flags. flags.items ≡ set_in_both here.now there.now) }
{
    let mut flags = Vec::with_capacity(alloc, here.len())?;
    for (at, flag) in here.iter().enumerate() {
        if there.len() <= at {
            return Ok(flags);
        }
        flags.push(*flag & there[at])?;
    }
    Ok(flags)
}
