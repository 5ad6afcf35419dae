// The catalogue of a script, as far as it is known.
ghost use Rattle.std.specs.Prelude.{◌≡◌, [], IfOk};
ghost use Rattle.script_places.specs.Places.{is_unnamed, is_ready, plan_in};

use aria_base::{Bytes, Memory, Schema};
use proc_lang::Catalog;
use std::alloc::Global;

/// The catalogue of a script, as far as it is known.
#[derive(Drop)]
pub enum ScriptCatalog {
    /// No line named one.
    Unnamed,
    /// Its text comes in pieces, and these bytes of it have come.
    Text(Bytes),
    /// It is there.
    Ready(Catalog),
}

impl ScriptCatalog {
    /// Whether no line named a catalogue.
    pub(crate) fn is_unnamed(&self) -> bool
        ensures { result ≡ is_unnamed self.now }
    {
        matches!(self, ScriptCatalog::Unnamed)
    }

    /// Whether the catalogue is there.
    pub(crate) fn is_ready(&self) -> bool
        ensures { result ≡ is_ready self.now }
    {
        matches!(self, ScriptCatalog::Ready(_))
    }
}

/// The catalogue of a head; where there is none, the one without tables and procedures. No memory.
pub fn catalog_in(alloc: Global, head: ScriptCatalog) -> Catalog
    ensures { result ≡ plan_in head }
{
    match head {
        ScriptCatalog::Ready(catalog) => catalog,
        ScriptCatalog::Unnamed | ScriptCatalog::Text(_) => no_catalog(alloc),
    }
}

/// A copy of the catalogue of a head; where there is none, the one without tables and procedures.
pub fn catalog_copy(alloc: Global, head: &ScriptCatalog) -> Result<Catalog, Memory>
    ensures { IfOk result (λ catalog. catalog ≡ plan_in head.now) }
{
    match head {
        ScriptCatalog::Ready(catalog) => catalog.copy(alloc),
        ScriptCatalog::Unnamed | ScriptCatalog::Text(_) => Ok(no_catalog(alloc)),
    }
}

/// The catalogue without tables and procedures. No memory.
pub fn no_catalog(alloc: Global) -> Catalog
    ensures { result ≡ record { tables = []; procs = [] } }
{
    Catalog::of(Schema::from_vec(Vec::new(alloc)), Vec::new(alloc))
}
