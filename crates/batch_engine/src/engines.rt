// A database between two batches, and the next batch.
ghost use Rattle.std.specs.Prelude.{◌≡◌, ◌≢◌, ◌≤◌, ◌<◌, ◌+◌, ◌-◌, None, Some, length, true, IfOk};
ghost use Rattle.std.specs.List.{All};
ghost use Rattle.aria_base.specs.declared.limits.TheConstants.{GREATEST_NUMBER, MOST_PERCENT, MOST_REQUESTS, MOST_WORKERS};
ghost use Rattle.proc_lang.specs.Catalogs.{takes, run_of};
ghost use Rattle.batch_core.specs.Steps.{list_of, step, answer};
ghost use Rattle.batch_core.specs.Serial.{IsSerialAnswer};
ghost use Rattle.batch_core.specs.Progress.{IsProgress};
ghost use Rattle.batch_engine.specs.Engines.{IsReady, state_in, handed_by};
ghost use Rattle.batch_engine.specs.Lasts.{marks_of};
ghost use Rattle.batch_engine.specs.Marks.{HasMarked};

use crate::judgements::judge;
use crate::marks::Marked;
use crate::settlements::settle;
use aria_base::{Call, Duplicate, Items, MOST_REQUESTS, Memory, Pace, Request};
use batch_core::{Answer, number_calls};
use dep_rules::Config;
use proc_lang::Catalog;
use std::alloc::Global;
use std::marker::Model;
use std::thread::Threads;
use tbl_rows::Tables;

/// A database between two batches: its catalogue and rows, the requests that wait for the next batch,
/// and how many batches were run and requests numbered so far. Every row fits the catalogue, and so do
/// the calls that wait; their numbers rise; no more wait than a batch may have.
#[derive(Drop)]
pub struct Engine {
    catalog: Catalog,
    tables: Tables,
    carried: Items<Request>,
    batches: u64,
    requests: u64,
    last: Option<Marked>,
}

impl Model for Engine {
    ghost use Rattle.batch_engine.specs.Engines.{Between, IsReady};
    ghost use Rattle.batch_engine.specs.Codes.{between_code};
    ghost use Rattle.batch_engine.specs.Lasts.{marks_in};

    ghost Value = { Between };

    ghost coded = { between_code };

    ghost view = { λ a. record { plan = a.catalog; rows = a.tables; carried = a.carried; batches = a.batches; requests = a.requests; marked = marks_in a.last } };

    ghost invariant = { λ a. IsReady a.catalog a.tables a.carried a.batches a.requests };
}

impl Engine {
    /// The database with these rows, requests that wait, and counts. No memory.
    pub fn begin(
        catalog: Catalog,
        tables: Tables,
        carried: Vec<Request>,
        batches: u64,
        requests: u64,
    ) -> Engine
        requires { IsReady catalog tables carried.items batches requests }
        ensures { result ≡ record { plan = catalog; rows = tables; carried = carried.items; batches = batches; requests = requests; marked = None } }
    {
        Engine {
            catalog,
            tables,
            carried: Items::from_vec(carried),
            batches,
            requests,
            last: None,
        }
    }

    /// Runs the next batch: the requests that wait and these calls, which get the next request numbers, by
    /// the rule and the fallback of the settings, from 0 to 101, and by so many workers, from 1 to 64. No
    /// answer depends on the workers. The catalogue takes the calls; with what waits they are at most
    /// 10,000, and no number passes 2^62. An error: there was no memory, and the database is gone.
    pub fn run_batch<P: Pace + Sync, R: Threads + Sync>(
        self,
        rt: &R,
        alloc: Global,
        new: Vec<Call>,
        config: &Config,
        pace: &P,
    ) -> Result<(Engine, Answer), Memory>
        requires fit { All (λ call. takes self.plan call ≡ true) new.items }
        requires room { length self.carried + length new.items ≤ MOST_REQUESTS }
        requires batches { self.batches < GREATEST_NUMBER }
        requires requests { self.requests + length new.items ≤ GREATEST_NUMBER }
        requires percent { config.now.fallback ≤ MOST_PERCENT }
        requires workers { (1 ≤ config.now.workers) × (config.now.workers ≤ MOST_WORKERS) }
        ensures plan { IfOk result (λ r. r.0.plan ≡ self.plan) }
        ensures state { IfOk result (λ r. state_in config.now r.0 ≡ step (run_of self.plan) (state_in config.now self) (handed_by config.now new.items)) }
        ensures answer { IfOk result (λ r. r.1 ≡ answer (run_of self.plan) (state_in config.now self) (handed_by config.now new.items)) }
        ensures serial { IfOk result (λ r. IsSerialAnswer (run_of self.plan) self.rows (list_of (state_in config.now self) (handed_by config.now new.items)) r.1 (state_in config.now r.0)) }
        ensures progress { IfOk result (λ r. 0 < length (list_of (state_in config.now self) (handed_by config.now new.items)) → IsProgress (run_of self.plan) self.rows (list_of (state_in config.now self) (handed_by config.now new.items)) r.1 (state_in config.now r.0)) }
        ensures marked { IfOk result (λ r. HasMarked (run_of self.plan) self.rows (list_of (state_in config.now self) (handed_by config.now new.items)) r.0.marked) }
    {
        let Engine {
            catalog,
            tables,
            carried,
            batches,
            requests,
            last,
        } = self;
        // the blocks of the last batch's numbers serve this batch
        drop(last);
        let total = requests + new.len() as u64;
        let list = number_calls(carried.into_vec(), new, requests)?;
        let (last, judgement) = judge(rt, alloc, &catalog, &tables, &list, config, pace)?;
        let numbered = &last.numbered;
        let settled = settle(
            rt, alloc, &catalog, tables, list, judgement, numbered, config, pace,
        )?;
        let answer = Answer {
            number: batches + 1,
            lines: settled.lines,
            order: settled.order,
        };
        let engine = Engine {
            catalog,
            tables: settled.tables,
            carried: Items::from_vec(settled.carried),
            batches: batches + 1,
            requests: total,
            last: Some(last),
        };
        Ok((engine, answer))
    }

    /// Does nothing: a caller knows behind it what is true of every engine.
    pub fn ready(&self)
        ensures { IsReady self.now.plan self.now.rows self.now.carried self.now.batches self.now.requests }
    {
        let _ = &self.batches;
    }

    /// How many new calls the next batch may have. No memory.
    pub fn room(&self) -> u32
        ensures { result ≡ MOST_REQUESTS - length self.now.carried }
    {
        MOST_REQUESTS as u32 - self.carried.as_slice().len() as u32
    }

    /// How many batches were run. No memory.
    pub fn batches(&self) -> u64
        ensures { result ≡ self.now.batches }
    {
        self.batches
    }

    /// How many requests were numbered. No memory.
    pub fn requests(&self) -> u64
        ensures { result ≡ self.now.requests }
    {
        self.requests
    }

    /// The requests that wait, in their order. No memory.
    pub fn carried(&self) -> &[Request]
        ensures { result.now ≡ self.now.carried }
    {
        self.carried.as_slice()
    }

    /// The rows. No memory.
    pub fn tables(&self) -> &Tables
        ensures { result.now ≡ self.now.rows }
    {
        &self.tables
    }

    /// The catalogue. No memory.
    pub fn catalog(&self) -> &Catalog
        ensures { result.now ≡ self.now.plan }
    {
        &self.catalog
    }

    /// An equal database, on which no batch was run.
    pub fn copy(&self, alloc: Global) -> Result<Engine, Memory>
        ensures { IfOk result (λ other. other ≡ record self.now { marked = None }) }
    {
        Ok(Engine {
            catalog: self.catalog.copy(alloc)?,
            tables: self.tables.copy()?,
            carried: self.carried.duplicate(alloc)?,
            batches: self.batches,
            requests: self.requests,
            last: None,
        })
    }

    /// What the last batch that was run on this value numbered and marked. No memory.
    pub fn marked(&self) -> &Marked
        requires { self.now.marked ≢ None }
        ensures { Some (marks_of result.now) ≡ self.now.marked }
    {
        self.last.as_ref().unwrap()
    }
}
