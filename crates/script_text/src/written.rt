// The one spelling of rows and calls.
ghost use Rattle.std.specs.Prelude.{◌≡◌, ◌++◌, IfOk, OnOk, Ok, true};
ghost use Rattle.aria_base.specs.Schemas.{Fits};
ghost use Rattle.proc_lang.specs.Catalogs.{takes};
ghost use Rattle.script_text.specs.Fits.{row_said, call_said};
ghost use Rattle.script_text.specs.Written.{row_line, call_line, proc_name, IsArgs};

use crate::writers::{append_row, append_tokens};
use aria_base::{Call, Key, Memory, Row};
use proc_lang::{Catalog, Checked};
use std::alloc::Global;

/// The line of a row that fits the catalogue, without a line feed. Read and fitted again, it is the row.
#[tactic(auto, using(crate::proofs::WrittenAgain::row_again))]
pub fn write_row(alloc: Global, catalog: &Catalog, key: &Key, row: &Row) -> Result<Vec<u8>, Memory>
    requires { Fits catalog.now.tables key.now row.now }
    ensures text { IfOk result (λ line. line.items ≡ row_line catalog.now.tables key.now row.now) }
    ensures again { IfOk result (λ line. row_said catalog.now line.items ≡ Ok (key.now, row.now)) }
{
    let mut line = Vec::new(alloc);
    append_row(&mut line, catalog.schema(), key, row)?;
    Ok(line)
}

/// The line of a call that the catalogue takes, without a line feed. Read and fitted again, it is the
/// call.
#[tactic(auto, using(crate::proofs::WrittenAgain::call_again))]
pub fn write_call(alloc: Global, catalog: &Catalog, call: &Call) -> Result<Vec<u8>, Memory>
    requires { takes catalog.now call.now ≡ true }
    ensures text { IfOk result (λ line. line.items ≡ call_line catalog.now.procs call.now) }
    ensures again { IfOk result (λ line. call_said catalog.now line.items ≡ Ok call.now) }
{
    let mut line = Vec::new(alloc);
    append_call(&mut line, catalog.procs(), call)?;
    Ok(line)
}

/// Appends the line of a call of one of these procedures, without a line feed.
pub fn append_call(out: &mut Vec<u8>, procs: &[Checked], call: &Call) -> Result<(), Memory>
    ensures text { OnOk result (out.new.items ≡ out.old.items ++ call_line procs.now call.now) }
    ensures args { OnOk result (IsArgs call.now.args) }
{
    out.extend_from_slice(b"tx ")?;
    append_proc_name(out, procs, call.proc)?;
    append_tokens(out, call.args.as_slice())
}

/// Appends the name of the procedure with this number; of no procedure it is nothing. Where there was no
/// memory, a part of it may stand in `out`.
pub fn append_proc_name(out: &mut Vec<u8>, procs: &[Checked], number: u16) -> Result<(), Memory>
    ensures { OnOk result (out.new.items ≡ out.old.items ++ proc_name procs.now number) }
{
    match procs.get(usize::from(number)) {
        Some(checked) => {
            out.extend_from_slice(checked.proc().name.as_slice())?;
            Ok(())
        }
        None => Ok(()),
    }
}
