// Whole procedures.
ghost use Rattle.std.specs.Prelude.{◌≡◌, ◌≤◌, IfErr, IfOk};
ghost use Rattle.proc_lang.specs.Catalogs.{steps_count};
ghost use Rattle.proc_lang.specs.Typing.{IsWellTyped, typed_proc};
ghost use Rattle.proc_verify.specs.Refusals.{NamesFirst};
ghost use Rattle.proc_verify.specs.Stops.{Reaches};

use crate::progress::{CheckStop, Reached};
use crate::refusals::VerifyRefused;
use crate::registers::SetRegisters;
use crate::scopes::CheckScope;
use crate::statements::typed_steps;
use aria_base::Schema;
use proc_lang::{Checked, MOST_STATEMENTS, Proc, Wrong};
use std::alloc::Global;

/// The statements of the body, from the first one.
fn typed_proc(alloc: Global, proc: &Proc, schema: &Schema) -> Result<Reached, CheckStop>
    requires { steps_count proc.now.body ≤ MOST_STATEMENTS }
    ensures { Reaches result (typed_proc schema.now proc.now) }
{
    let start = Reached {
        next: 0,
        set: SetRegisters::none(alloc, &proc.regs)?,
    };
    typed_steps(alloc, &CheckScope::of(schema, proc), &proc.body, start)
}

/// The procedure, sealed, where it is well typed under these tables. It has at most 1,000 statements.
/// Else `Wrong` names, beside the number that is given here, the first statement that fails and the
/// first cause for which it does. Memory is wanted for one flag a register in each block, and for the
/// kinds of one row.
pub fn verify(
    alloc: Global,
    proc: Proc,
    number: u16,
    schema: &Schema,
) -> Result<Checked, VerifyRefused>
    requires { steps_count proc.body ≤ MOST_STATEMENTS }
    ensures sealed { IfOk result (λ checked. checked ≡ proc) }
    ensures typed { IfOk result (λ _. IsWellTyped schema.now proc) }
    ensures refused { IfErr result (NamesFirst number (typed_proc schema.now proc)) }
{
    match typed_proc(alloc, &proc, schema) {
        Ok(_) => Ok(Checked::seal(proc, schema)),
        Err(CheckStop::Memory) => Err(VerifyRefused::Memory),
        Err(CheckStop::Flaw { place, cause }) => Err(VerifyRefused::Wrong(Wrong {
            proc: number,
            place,
            cause,
        })),
    }
}
