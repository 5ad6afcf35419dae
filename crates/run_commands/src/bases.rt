// A database before its first batch, and from then on.
ghost use Rattle.std.specs.Prelude.{◌≡◌, ◌≤◌, IfOk};
ghost use Rattle.aria_base.specs.declared.limits.TheConstants.{MOST_REPLICAS};
ghost use Rattle.script_places.specs.Follows.{IsReadyWith};
ghost use Rattle.script_places.specs.Places.{plan_in};
ghost use Rattle.answer_text.specs.States.{state_text};
ghost use Rattle.serving.specs.Lives.{listing, plan_of};
ghost use Rattle.run_commands.specs.Bases.{IsBegun, IsBounded, IsHead, IsListed, IsNamed, IsUnder, counts_of, put_in, set_in, state_in};

use answer_text::print_state;
use aria_base::{Key, Memory, Row};
use batch_rules::verdicts::Rule;
use dep_rules::Config;
use proc_lang::Catalog;
use script_places::{Counts, ScriptCatalog, catalog_copy, no_catalog};
use serving::Live;
use std::alloc::Global;
use store_openings::{settings_with, with_settings};
use tbl_rows::Tables;

/// A database before its first batch, and from then on.
#[derive(Drop)]
pub(crate) enum Base {
    /// The rows of the head so far, and the settings of the first batch.
    Rows(Tables, Config),
    /// A batch was run.
    Runs(Live),
}

impl Base {
    /// What decides about the end of a batch.
    pub fn counts(&self) -> Counts
        ensures { result ≡ counts_of (state_in self.now) }
    {
        match self {
            Base::Rows(_, _) => Counts {
                batches: 0,
                requests: 0,
                waiting: 0,
            },
            Base::Runs(live) => Counts {
                batches: live.batches(),
                requests: live.requests(),
                waiting: live.waiting(),
            },
        }
    }

    /// With the row at the key, before the first batch.
    pub fn put(self, key: Key, row: Row) -> Result<Base, Memory>
        requires { IsHead self }
        ensures { IfOk result (λ next. next ≡ put_in self key row) }
    {
        match self {
            Base::Rows(mut tables, config) => {
                tables.put(key, row)?;
                Ok(Base::Rows(tables, config))
            }
            Base::Runs(_) => unreachable!(),
        }
    }

    /// With these settings of the next batch.
    pub fn set(self, rule: Rule, percent: u32) -> Base
        ensures { result ≡ set_in self rule percent }
    {
        match self {
            Base::Rows(tables, config) => Base::Rows(tables, settings_with(config, rule, percent)),
            Base::Runs(live) => Base::Runs(with_settings(live, rule, percent)),
        }
    }

    /// As a database that runs batches, under the catalogue of the head.
    pub fn begun(
        self,
        alloc: Global,
        head: &ScriptCatalog,
        replicas: u32,
        each: bool,
    ) -> Result<Live, Memory>
        requires engines { (1 ≤ replicas) × (replicas ≤ MOST_REPLICAS) }
        requires under { IsReadyWith head.now (λ plan. IsUnder plan self) }
        requires bounded { IsBounded self }
        requires listed { IsListed each self }
        ensures { IfOk result (IsBegun head.now self each) }
    {
        match self {
            Base::Rows(tables, config) => {
                let catalog = catalog_copy(alloc, head)?;
                let none = Vec::new(alloc);
                Live::begin(alloc, catalog, tables, none, 0, 0, config, replicas, each)
            }
            Base::Runs(live) => Ok(live),
        }
    }

    /// The listing of its rows, under the catalogue of the head.
    pub fn list(&self, alloc: Global, head: &ScriptCatalog) -> Result<Vec<u8>, Memory>
        requires { IsNamed head.now self.now }
        ensures { IfOk result (λ text. text.items ≡ listing (plan_in head.now) (state_in self.now)) }
    {
        match self {
            Base::Rows(tables, _) => list_rows(alloc, tables, head),
            Base::Runs(live) => live.list(alloc),
        }
    }
}

/// The listing of rows before the first batch.
fn list_rows(alloc: Global, tables: &Tables, head: &ScriptCatalog) -> Result<Vec<u8>, Memory>
    ensures { IfOk result (λ text. text.items ≡ state_text (plan_in head.now).tables tables.now 0) }
{
    match head {
        ScriptCatalog::Ready(catalog) => print_state(alloc, catalog, tables, 0),
        ScriptCatalog::Unnamed | ScriptCatalog::Text(_) => {
            let catalog = no_catalog(alloc);
            print_state(alloc, &catalog, tables, 0)
        }
    }
}

/// A copy of the catalogue of a database that runs.
pub(crate) fn catalog_of(alloc: Global, live: &Live) -> Result<Catalog, Memory>
    ensures { IfOk result (λ catalog. catalog ≡ plan_of live.now) }
{
    live.replicas.first().catalog().copy(alloc)
}
