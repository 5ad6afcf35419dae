// Catalogues: the tables and the procedures of a database.
ghost use Rattle.std.specs.Prelude.{◌≡◌, map, position, IfOk, All};
ghost use Rattle.std.specs.Str.{bytes_eq};
ghost use Rattle.proc_lang.specs.Catalogs.{Plan, IsCatalog, takes, args_fit, arg_fits};
ghost use Rattle.proc_lang.specs.Typing.{IsWellTyped};

use crate::procs::{ArgKind, Proc};
use aria_base::{Arg, Call, Duplicate, Items, Memory, Schema, Table, Txt};
use std::alloc::Global;
use std::marker::Model;

/// A procedure that was well typed under the tables for which it was sealed. A contract sees the
/// procedure; that the tables are those of a catalogue is the catalogue's to say.
#[derive(Drop)]
pub struct Checked {
    proc: Proc,
}

impl Model for Checked {
    ghost use Rattle.proc_lang.specs.declared.procs.Proc.{Proc as Plain};
    ghost use Rattle.proc_lang.specs.CatalogCodes.{proc_code};

    ghost Value = { Plain };

    ghost coded = { proc_code };

    ghost view = { λ a. a.proc };
}

impl Checked {
    /// The procedure, sealed. It has to be well typed under the schema. No memory.
    pub fn seal(proc: Proc, schema: &Schema) -> Checked
        requires { IsWellTyped schema.now proc }
        ensures { result ≡ proc }
    {
        Checked { proc }
    }

    /// The procedure. No memory.
    pub fn proc(&self) -> &Proc
        ensures { result.now ≡ self.now }
    {
        &self.proc
    }
}

impl Duplicate for Checked {
    fn duplicate(&self, alloc: Global) -> Result<Self, Memory> {
        Ok(Checked {
            proc: self.proc.duplicate(alloc)?,
        })
    }
}

/// A catalogue: the tables of a database and its procedures, each under a name of its own, within
/// the limits of the language, and each procedure well typed under the tables. A contract sees its
/// tables and procedures; equal ones make equal catalogues.
#[derive(Drop)]
pub struct Catalog {
    schema: Schema,
    procs: Items<Checked>,
}

impl Model for Catalog {
    ghost use Rattle.proc_lang.specs.Catalogs.{Plan, IsCatalog};
    ghost use Rattle.proc_lang.specs.CatalogCodes.{plan_code};

    ghost Value = { Plan };

    ghost coded = { plan_code };

    ghost view = { λ a. record { tables = a.schema; procs = a.procs } };

    ghost invariant = { λ a. IsCatalog (record { tables = a.schema; procs = a.procs }) };
}

impl Catalog {
    /// The catalogue of these tables and procedures. No memory.
    pub fn of(schema: Schema, procs: Vec<Checked>) -> Catalog
        requires { IsCatalog (record { tables = schema; procs = procs.items }) }
        ensures { result ≡ record { tables = schema; procs = procs.items } }
    {
        Catalog {
            schema,
            procs: Items::from_vec(procs),
        }
    }

    /// The number of the table with this name; None exactly where there is none. No memory.
    pub fn table(&self, name: &[u8]) -> Option<u16>
        ensures { result ≡ position (λ t. bytes_eq t.name name.now) self.now.tables }
    {
        match table_named(self.schema.as_slice(), name) {
            Some(number) => Some(number as u16),
            None => None,
        }
    }

    /// The number of the procedure with this name; None exactly where there is none. No memory.
    pub fn proc(&self, name: &[u8]) -> Option<u16>
        ensures { result ≡ position (λ p. bytes_eq p.name name.now) self.now.procs }
    {
        match proc_named(&self.procs, name) {
            Some(number) => Some(number as u16),
            None => None,
        }
    }

    /// Whether the call can be run: its number is that of a procedure, and it brings one argument for
    /// each of that one's kinds, a number, a text or a list of tuples with just so many numbers. No
    /// memory.
    pub fn takes(&self, call: &Call) -> bool
        ensures { result ≡ takes self.now call.now }
    {
        match self.procs.as_slice().get(usize::from(call.proc)) {
            Some(checked) => args_fit(checked.proc.args.as_slice(), call.args.as_slice()),
            None => false,
        }
    }

    /// The tables. No memory.
    pub fn schema(&self) -> &Schema
        ensures tables { result.now ≡ self.now.tables }
        ensures catalog { IsCatalog self.now }
    {
        &self.schema
    }

    /// The procedures. No memory.
    pub fn procs(&self) -> &[Checked]
        ensures procs { result.now ≡ self.now.procs }
        ensures catalog { IsCatalog self.now }
    {
        self.procs.as_slice()
    }

    /// An equal catalogue.
    pub fn copy(&self, alloc: Global) -> Result<Catalog, Memory>
        ensures { IfOk result (λ copy. copy ≡ self.now) }
    {
        Ok(Catalog {
            schema: self.schema.duplicate(alloc)?,
            procs: self.procs.duplicate(alloc)?,
        })
    }
}

/// The place of the first table with this name; None where there is none. No memory.
pub fn table_named(tables: &[Table], name: &[u8]) -> Option<usize>
    ensures { result ≡ position (λ t. bytes_eq t.name name.now) tables.now }
{
    tables.iter().position(|table| is_called(&table.name, name))
}

/// The place of the procedure with this name.
fn proc_named(procs: &Items<Checked>, name: &[u8]) -> Option<usize>
    ensures { result ≡ position (λ p. bytes_eq p.name name.now) procs.now }
{
    let procs = procs.as_slice();
    procs
        .iter()
        .position(|checked| is_called(&checked.proc.name, name))
}

/// Whether the name is this one.
fn is_called(given: &Txt, name: &[u8]) -> bool
    ensures { result ≡ bytes_eq given.now name.now }
{
    given.as_slice() == name
}

/// Whether these arguments fit these kinds, one by one.
#[tactic(auto, using(crate::proofs::Arguments::other_count))]
fn args_fit(kinds: &[ArgKind], args: &[Arg]) -> bool
    ensures { result ≡ args_fit kinds.now args.now }
{
    if kinds.len() != args.len() {
        return false;
    }
    for (at, kind) in kinds.iter().enumerate() {
        if !arg_fits(*kind, &args[at]) {
            return false;
        }
    }
    true
}

/// Whether the argument fits the kind.
fn arg_fits(kind: ArgKind, arg: &Arg) -> bool
    ensures { result ≡ arg_fits kind arg.now }
{
    match (kind, arg) {
        (ArgKind::Int, Arg::Int(_)) | (ArgKind::Text, Arg::Text(_)) => true,
        (ArgKind::List(width), Arg::List(tuples)) => {
            for tuple in tuples.as_slice() {
                if tuple.as_slice().len() != usize::from(width) {
                    return false;
                }
            }
            true
        }
        _ => false,
    }
}
