// A database between two batches of works, and the next batch.
ghost use Rattle.std.specs.Prelude.{◌≡◌, ◌≤◌, ◌<◌, ◌+◌, ◌-◌, [], length, true, IfOk};
ghost use Rattle.std.specs.List.{All};
ghost use Rattle.aria_base.specs.Schemas.{IsConsistent};
ghost use Rattle.aria_base.specs.declared.limits.TheConstants.{GREATEST_NUMBER, MOST_WORKERS};
ghost use Rattle.proc_lang.specs.Catalogs.{run_of};
ghost use Rattle.range_rules.specs.Batches.{answer_of};
ghost use Rattle.range_rules.specs.Serials.{IsSerialAnswer, IsProgress};
ghost use Rattle.range_rules.specs.declared.routines.TheConstants.{MOST_WORKS};
ghost use Rattle.range_runs.specs.Indexes.{IsIndexOf};
ghost use Rattle.range_suits.specs.Suits.{Suits, is_taken};
ghost use Rattle.range_resv.specs.Engines.{IsReady, IsIndexIn, list_from, batch_from};

use crate::commits::{Committed, commit};
use crate::lists::number_works;
use crate::settlements::settle;
use aria_base::{Items, Memory, Pace};
use batch_core::Answer;
use dep_rules::Config;
use proc_lang::Catalog;
use range_rules::{MOST_WORKS, NumberedWork, Routine, Work};
use range_runs::Index;
use range_suits::taken_behave;
use std::alloc::Global;
use std::marker::Model;
use std::thread::Threads;
use tbl_rows::Tables;

/// A database between two batches: its catalogue and rows, the works that wait for the next batch, and how many batches were run and
/// requests numbered so far. Every row fits the catalogue; the numbers of what waits rise; no more wait than a batch may have. It keeps
/// the keys of its rows in order, from its first batch on.
#[derive(Drop)]
pub struct ScanEngine {
    catalog: Catalog,
    tables: Tables,
    index: Option<Index>,
    carried: Items<NumberedWork>,
    batches: u64,
    requests: u64,
}

impl Model for ScanEngine {
    ghost use Rattle.range_resv.specs.Engines.{Between, between_code, IsReady, IsIndexIn};

    ghost Value = { Between };

    ghost coded = { between_code };

    ghost view = { λ a. record { plan = a.catalog; rows = a.tables; carried = a.carried; batches = a.batches; requests = a.requests } };

    ghost invariant = { λ a. IsReady a.catalog a.tables a.carried a.batches a.requests × IsIndexIn a.index a.tables };
}

impl ScanEngine {
    /// A database of the catalogue with these rows, all of which fit it, on which no batch was run: no request is numbered, and nothing
    /// waits. No memory.
    pub fn begin(alloc: Global, catalog: Catalog, tables: Tables) -> ScanEngine
        requires { IsConsistent catalog.tables tables }
        ensures { result ≡ record { plan = catalog; rows = tables; carried = []; batches = 0; requests = 0 } }
    {
        ScanEngine {
            catalog,
            tables,
            index: None,
            carried: Items::from_vec(Vec::new(alloc)),
            batches: 0,
            requests: 0,
        }
    }

    /// Runs the next batch: the works that wait and these new ones, which get the next request numbers, by the rule of the settings, and
    /// by so many workers, from 1 to 64. No answer depends on the workers. The settings' fallback is not looked at.
    ///
    /// The routines suit the catalogue. Each work, those that wait included, is taken by the catalogue or by the routines; together they
    /// are at most 1,000, and no number passes 2^62. An error: there was no memory, and the database is gone.
    pub fn run_batch<R: Routine + Sync, P: Pace + Sync, T: Threads + Sync>(
        self,
        rt: &T,
        alloc: Global,
        routines: &R,
        new: Vec<Work>,
        config: &Config,
        pace: &P,
    ) -> Result<(ScanEngine, Answer), Memory>
        requires suits { Suits self.plan.tables (R.taken routines.now) (R.act routines.now) }
        requires carried { All (λ w. is_taken self.plan (R.taken routines.now) w.work ≡ true) self.carried }
        requires new { All (λ work. is_taken self.plan (R.taken routines.now) work ≡ true) new.items }
        requires room { length self.carried + length new.items ≤ MOST_WORKS }
        requires batches { self.batches < GREATEST_NUMBER }
        requires requests { self.requests + length new.items ≤ GREATEST_NUMBER }
        requires workers { (1 ≤ config.now.workers) × (config.now.workers ≤ MOST_WORKERS) }
        ensures plan { IfOk result (λ r. r.0.plan ≡ self.plan) }
        ensures counts { IfOk result (λ r. (r.0.batches ≡ self.batches + 1) × (r.0.requests ≡ self.requests + length new.items)) }
        ensures answer { IfOk result (λ r. r.1 ≡ answer_of (self.batches + 1) (batch_from (R.act routines.now) config.now.rule self new.items)) }
        ensures rows { IfOk result (λ r. r.0.rows ≡ (batch_from (R.act routines.now) config.now.rule self new.items).rows) }
        ensures waiting { IfOk result (λ r. r.0.carried ≡ (batch_from (R.act routines.now) config.now.rule self new.items).carried) }
        ensures taken { IfOk result (λ r. All (λ w. is_taken self.plan (R.taken routines.now) w.work ≡ true) r.0.carried) }
        ensures serial { IfOk result (λ r.
            IsSerialAnswer (run_of self.plan) (R.act routines.now) self.rows (list_from self new.items) r.1 r.0.rows r.0.carried) }
        ensures progress { IfOk result (λ r.
            0 < length (list_from self new.items) → IsProgress (run_of self.plan) (R.act routines.now) self.rows (list_from self new.items) r.1 r.0.carried) }
    {
        taken_behave();
        let ScanEngine {
            catalog,
            tables,
            index,
            carried,
            batches,
            requests,
        } = self;
        let total = requests + new.len() as u64;
        let list = number_works(carried.into_vec(), new, requests)?;
        let index = index_for(alloc, index, &tables)?;
        let committed = commit(
            rt, alloc, &catalog, routines, tables, index, &list, config, pace,
        )?;
        let Committed {
            tables,
            index,
            ends,
            verdicts,
        } = committed;
        let settled = settle(alloc, list, ends, &verdicts)?;
        let answer = Answer {
            number: batches + 1,
            lines: settled.lines,
            order: settled.order,
        };
        let engine = ScanEngine {
            catalog,
            tables,
            index: Some(index),
            carried: Items::from_vec(settled.carried),
            batches: batches + 1,
            requests: total,
        };
        Ok((engine, answer))
    }

    /// Does nothing: a caller knows behind it what is true of every engine.
    pub fn ready(&self)
        ensures { IsReady self.now.plan self.now.rows self.now.carried self.now.batches self.now.requests }
    {
        let _ = &self.batches;
    }

    /// How many new works the next batch may have. No memory.
    pub fn room(&self) -> u32
        ensures { result ≡ MOST_WORKS - length self.now.carried }
    {
        MOST_WORKS - self.carried.as_slice().len() as u32
    }

    /// How many works wait. No memory.
    pub fn carried(&self) -> u32
        ensures { result ≡ length self.now.carried }
    {
        self.carried.as_slice().len() as u32
    }

    /// The works that wait, in their order. No memory.
    pub fn waiting(&self) -> &[NumberedWork]
        ensures { result.now ≡ self.now.carried }
    {
        self.carried.as_slice()
    }

    /// How many batches were run. No memory.
    pub fn batches(&self) -> u64
        ensures { result ≡ self.now.batches }
    {
        self.batches
    }

    /// How many requests were numbered. No memory.
    pub fn requests(&self) -> u64
        ensures { result ≡ self.now.requests }
    {
        self.requests
    }

    /// The catalogue. No memory.
    pub fn catalog(&self) -> &Catalog
        ensures { result.now ≡ self.now.plan }
    {
        &self.catalog
    }

    /// Whether the catalogue or the routines take the work, so that a batch may have it. No memory.
    pub fn takes<R: Routine>(&self, routines: &R, work: &Work) -> bool
        ensures { result ≡ is_taken self.now.plan (R.taken routines.now) work.now }
    {
        match work {
            Work::Proc(call) => self.catalog.takes(call),
            Work::Routine(call) => routines.takes(call),
        }
    }

    /// The rows. No memory.
    pub fn tables(&self) -> &Tables
        ensures { result.now ≡ self.now.rows }
    {
        &self.tables
    }
}

/// The keys of the tables: those that are kept, or where none are, those that are found now.
fn index_for(alloc: Global, kept: Option<Index>, tables: &Tables) -> Result<Index, Memory>
    requires { IsIndexIn kept tables.now }
    ensures { IfOk result (λ index. IsIndexOf index tables.now) }
{
    match kept {
        Some(index) => Ok(index),
        None => Index::of(alloc, tables),
    }
}
