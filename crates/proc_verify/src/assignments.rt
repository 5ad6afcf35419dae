// Values that go into registers.
ghost use Rattle.std.specs.Prelude.{◌≡◌};
ghost use Rattle.proc_lang.specs.Typing.{set_all, set_one};
ghost use Rattle.proc_verify.specs.Scopes.{seen};

use crate::causes::{Typed, wanted};
use crate::expressions::same_kind;
use crate::registers::SetRegisters;
use crate::scopes::CheckScope;
use aria_base::{Kind, Kinds};
use proc_lang::{KIND, Regs};

/// Sets a register to a value of this kind.
pub fn set_one(
    scope: &CheckScope,
    register: u32,
    kind: Kind,
    mut set: SetRegisters,
) -> Typed<SetRegisters>
    ensures { result ≡ set_one (seen scope.now) register kind set }
{
    let holds = scope.register_holds(register)?;
    wanted(KIND, same_kind(holds, kind))?;
    set.insert(register);
    Ok(set)
}

/// Sets registers to values of these kinds, from the left, as far as there are both.
#[tactic(auto, using(crate::proofs::Pairs::set_all_none, std::proofs::lemmas::Grind::common_steps))]
pub fn set_all(
    scope: &CheckScope,
    registers: &Regs,
    kinds: &Kinds,
    set: SetRegisters,
) -> Typed<SetRegisters>
    ensures { result ≡ set_all (seen scope.now) registers.now kinds.now set }
{
    let kinds = kinds.as_slice();
    let mut set = set;
    for (at, register) in registers.as_slice().iter().enumerate() {
        if kinds.len() <= at {
            return Ok(set);
        }
        set = set_one(scope, *register, kinds[at], set)?;
    }
    Ok(set)
}
