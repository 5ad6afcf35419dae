// Catalogues read from their texts.
ghost use Rattle.std.specs.Prelude.{◌≡◌, ◌≤◌, true, length, All, IfOk, IfErr};
ghost use Rattle.std.specs.List.{list_all};
ghost use Rattle.proc_lang.specs.Catalogs.{proc_fits};
ghost use Rattle.proc_lang.specs.Typing.{IsWellTyped};
ghost use Rattle.cat_forms.specs.Texts.{Tells};
ghost use Rattle.cat_read.specs.Sealings.{NamesFirstWrong};
ghost use Rattle.cat_read.specs.Texts.{Refuses};

use crate::plans::read_plan;
use crate::refusals::CatRefused;
use aria_base::Schema;
use proc_lang::{Catalog, Checked, MOST_PROCS, Proc};
use proc_verify::verify;
use serde_json::Value;
use std::alloc::Global;

/// The catalogue that the text says. `NotJson` comes exactly where the text is no JSON; bytes that are no
/// UTF-8 are none. A text that is JSON and does not have the form of a catalogue gives `Shape` with the
/// place that a reader from the outside in, and from the front, would point at: an object whose members are
/// not the right ones before anything in it, and of two places the one that comes earlier. Typing is asked
/// last, and `Wrong` names the first procedure that it refuses. Memory is taken for the whole JSON, and for
/// the catalogue.
pub fn read_catalog(alloc: Global, text: &[u8]) -> Result<Catalog, CatRefused>
    ensures catalog { IfOk result (Tells text.now) }
    ensures refused { IfErr result (Refuses text.now) }
{
    let value = match Value::from_slice(alloc, text) {
        Ok(value) => value,
        Err(error) => {
            return Err(if error.is_memory() {
                CatRefused::Memory
            } else {
                CatRefused::NotJson
            });
        }
    };
    let (tables, procs) = read_plan(alloc, &value)?;
    let schema = Schema::from_vec(tables);
    let procs = sealed(alloc, procs, &schema)?;
    Ok(Catalog::of(schema, procs))
}

/// The procedures sealed one by one, or the first that is not well typed.
fn sealed(alloc: Global, procs: Vec<Proc>, schema: &Schema) -> Result<Vec<Checked>, CatRefused>
    requires fit { list_all proc_fits procs.items ≡ true }
    requires few { length procs.items ≤ MOST_PROCS }
    ensures sealed { IfOk result (λ done. done.items ≡ procs.items) }
    ensures typed { IfOk result (λ _. All (IsWellTyped schema.now) procs.items) }
    ensures refused { IfErr result (NamesFirstWrong schema.now procs.items) }
{
    let mut done = Vec::with_capacity(alloc, procs.len())?;
    let mut number: u16 = 0;
    for proc in procs {
        done.push(verify(alloc, proc, number, schema)?)?;
        number += 1;
    }
    Ok(done)
}
