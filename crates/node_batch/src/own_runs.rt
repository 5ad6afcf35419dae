// The run of a request of a node's own, on the rows that were told.
ghost use Rattle.std.specs.Prelude.{◌≡◌, ◌++◌, ◌∷◌, [], IfOk, OnOk};
ghost use Rattle.batch_rules.specs.Touches.{keys_of};
ghost use Rattle.batch_rules.specs.Trees.{end_of};
ghost use Rattle.proc_exec.specs.Outcomes.{within_at};
ghost use Rattle.proc_lang.specs.Catalogs.{run_of};
ghost use Rattle.node_rules.specs.Dues.{both};
ghost use Rattle.node_batch.specs.OwnRuns.{rows_of};

use crate::endings::install;
use aria_base::{Duplicate, Key, Keys, Memory, Request, Row};
use exec_phase::{execute, execute_within};
use proc_exec::{Declared, Within};
use proc_lang::{Catalog, End};
use std::alloc::Global;
use tbl_rows::Tables;
use tbl_snapshot::Snapshot;

/// The rows that a request was told so far, in the order in which they came.
#[derive(Drop)]
pub struct OwnRun {
    /// A key, and the row there or its absence.
    pub told: Vec<(Key, Option<Row>)>,
}

impl OwnRun {
    /// Nothing was told.
    pub fn new(alloc: Global) -> OwnRun
        ensures { result.told.items ≡ [] }
    {
        OwnRun {
            told: Vec::new(alloc),
        }
    }

    /// A row more.
    pub fn tell(&mut self, alloc: Global, key: &Key, row: &Option<Row>) -> Result<(), Memory>
        ensures { OnOk result (self.new.told.items ≡ self.old.told.items ++ (key.now, row.now) ∷ []) }
    {
        let key = key.duplicate(alloc)?;
        let row = row.duplicate(alloc)?;
        self.told.push((key, row))?;
        Ok(())
    }

    /// The run on what was told: the key that it has to be told next, or what it comes to.
    pub fn next(
        &self,
        alloc: Global,
        catalog: &Catalog,
        request: &Request,
    ) -> Result<Within, Memory>
        ensures { IfOk result (λ within. within
            ≡ within_at (run_of catalog.now) (both (keys_of self.now.told.items)) (rows_of self.now.told.items) request.now) }
    {
        let declared = Declared {
            reads: told_keys(alloc, &self.told)?,
            writes: told_keys(alloc, &self.told)?,
        };
        let rows = told_rows(alloc, &self.told)?;
        execute_within(alloc, catalog, request, Snapshot::of(&rows), &declared)
    }

    /// The end of the run on what was told.
    pub fn end(&self, alloc: Global, catalog: &Catalog, request: &Request) -> Result<End, Memory>
        ensures { IfOk result (λ end. end ≡ end_of (run_of catalog.now request.now) (rows_of self.now.told.items)) }
    {
        let rows = told_rows(alloc, &self.told)?;
        let outcome = execute(alloc, catalog, request, Snapshot::of(&rows))?;
        Ok(outcome.end)
    }
}

/// The keys of the rows.
fn told_keys(alloc: Global, told: &[(Key, Option<Row>)]) -> Result<Keys, Memory>
    ensures { IfOk result (λ keys. keys ≡ keys_of told.now) }
{
    let mut keys = Vec::with_capacity(alloc, told.len())?;
    for row in told {
        keys.push(row.0.duplicate(alloc)?)?;
    }
    Ok(Keys::from_vec(keys))
}

/// The rows as a table.
fn told_rows(alloc: Global, told: &[(Key, Option<Row>)]) -> Result<Tables, Memory>
    ensures { IfOk result (λ rows. rows ≡ rows_of told.now) }
{
    let mut rows = Tables::new(alloc)?;
    install(alloc, &mut rows, told)?;
    Ok(rows)
}
