// The database that is served, and its next batch.
ghost use Rattle.std.specs.Prelude.{◌≡◌, ◌≤◌, IfOk, None, if◌then◌else◌, [], ◌++◌, length};
ghost use Rattle.aria_base.specs.declared.limits.TheConstants.{MOST_PERCENT, MOST_REPLICAS, MOST_WORKERS};
ghost use Rattle.answer_text.specs.Answers.{answer_text};
ghost use Rattle.batch_engine.specs.Engines.{IsReady};
ghost use Rattle.serving.specs.Lives.{IsNext, IsRunnable, MayServe, begun_state, listing, next_answer, next_text, plan_of, state_of};

use answer_text::{append_state, print_answer, print_state};
use aria_base::{Call, Memory, Pace, Request};
use aria_store::Store;
use batch_core::Answer;
use batch_engine::Engine;
use dep_rules::Config;
use proc_lang::Catalog;
use replica_run::Replicas;
use std::alloc::Global;
use std::thread::Threads;
use tbl_rows::Tables;

/// A database that is served.
#[derive(Drop)]
pub struct Live {
    /// The store, where its batches outlive the program.
    pub store: Option<Store>,
    /// The engines.
    pub replicas: Replicas,
    /// The settings of the next batch.
    pub config: Config,
    /// Whether the rows are listed behind each answer.
    pub each: bool,
    /// Behind how many batches each a checkpoint is laid, 0 for never. It has no effect without a store.
    pub checkpoint: u32,
}

impl Live {
    /// The database with these rows, requests that wait, and counts, in 1 to 8 replicas and by these
    /// settings: a fallback from 0 to 101, and 1 to 64 workers. It has no store, and lays no checkpoints. An
    /// error: there was no memory.
    pub fn begin(
        alloc: Global,
        catalog: Catalog,
        tables: Tables,
        carried: Vec<Request>,
        batches: u64,
        requests: u64,
        config: Config,
        replicas: u32,
        each: bool,
    ) -> Result<Live, Memory>
        requires ready { IsReady catalog tables carried.items batches requests }
        requires fallback { config.fallback ≤ MOST_PERCENT }
        requires workers { (1 ≤ config.workers) × (config.workers ≤ MOST_WORKERS) }
        requires replicas { (1 ≤ replicas) × (replicas ≤ MOST_REPLICAS) }
        ensures plan { IfOk result (λ live. plan_of live ≡ catalog) }
        ensures state { IfOk result (λ live. state_of live ≡ begun_state config tables carried.items batches requests) }
        ensures count { IfOk result (λ live. length live.replicas ≡ replicas) }
        ensures config { IfOk result (λ live. live.config ≡ config) }
        ensures each { IfOk result (λ live. live.each ≡ each) }
        ensures checkpoint { IfOk result (λ live. live.checkpoint ≡ 0) }
        ensures store { IfOk result (λ live. live.store ≡ None) }
        ensures runnable { IfOk result IsRunnable }
    {
        let engine = Engine::begin(catalog, tables, carried, batches, requests);
        let replicas = Replicas::begin(alloc, engine, replicas)?;
        Ok(Live {
            store: None,
            replicas,
            config,
            each,
            checkpoint: 0,
        })
    }

    /// Runs the next batch, of what waits and these calls, on all replicas. The text is the answer and,
    /// where each answer has one, the listing. The catalogue takes the calls; with what waits they are at
    /// most 10,000, and no number passes 2^62. An error: there was no memory, and the database is gone.
    pub fn next<P: Pace + Sync, R: Threads + Sync>(
        self,
        rt: &R,
        alloc: Global,
        new: Vec<Call>,
        pace: &P,
    ) -> Result<(Live, Vec<u8>), Memory>
        requires { MayServe self new.items }
        ensures next { IfOk result (λ r. IsNext self new.items r.0) }
        ensures store { IfOk result (λ r. r.0.store ≡ self.store) }
        ensures text { IfOk result (λ r. r.1.items ≡ next_text self new.items) }
    {
        let (next, answer) = self.run(rt, alloc, new, pace)?;
        let text = next.text(alloc, &answer)?;
        Ok((next, text))
    }

    /// Runs the next batch, of what waits and these calls, on all replicas, and gives its answer as a value.
    /// The catalogue takes the calls; with what waits they are at most 10,000, and no number passes 2^62. An
    /// error: there was no memory, and the database is gone.
    pub fn run<P: Pace + Sync, R: Threads + Sync>(
        self,
        rt: &R,
        alloc: Global,
        new: Vec<Call>,
        pace: &P,
    ) -> Result<(Live, Answer), Memory>
        requires { MayServe self new.items }
        ensures next { IfOk result (λ r. IsNext self new.items r.0) }
        ensures store { IfOk result (λ r. r.0.store ≡ self.store) }
        ensures answer { IfOk result (λ r. r.1 ≡ next_answer self new.items) }
    {
        // What the first engine is, all are.
        let _first = self.replicas.first();
        let Live {
            store,
            replicas,
            config,
            each,
            checkpoint,
        } = self;
        let (replicas, answer) = replicas.run_batch(rt, alloc, new, &config, pace)?;
        let next = Live {
            store,
            replicas,
            config,
            each,
            checkpoint,
        };
        Ok((next, answer))
    }

    /// The listing of its rows.
    pub fn list(&self, alloc: Global) -> Result<Vec<u8>, Memory>
        ensures { IfOk result (λ text. text.items ≡ listing (plan_of self.now) (state_of self.now)) }
    {
        let engine = self.replicas.first();
        print_state(alloc, engine.catalog(), engine.tables(), engine.batches())
    }

    /// How many requests wait. No memory.
    pub fn waiting(&self) -> usize
        ensures { result ≡ length (state_of self.now).waiting }
    {
        self.replicas.first().carried().len()
    }

    /// How many batches were run. No memory.
    pub fn batches(&self) -> u64
        ensures { result ≡ (state_of self.now).batches }
    {
        self.replicas.first().batches()
    }

    /// How many requests were numbered. No memory.
    pub fn requests(&self) -> u64
        ensures { result ≡ (state_of self.now).requests }
    {
        self.replicas.first().requests()
    }

    /// The text of an answer, with the listing where each answer has one.
    fn text(&self, alloc: Global, answer: &Answer) -> Result<Vec<u8>, Memory>
        ensures { IfOk result (λ text. text.items ≡ answer_text (plan_of self.now).tables answer.now
            ++ (if self.now.each then listing (plan_of self.now) (state_of self.now) else [])) }
    {
        let engine = self.replicas.first();
        let mut text = print_answer(alloc, engine.catalog(), answer)?;
        if self.each {
            append_state(
                &mut text,
                engine.catalog(),
                engine.tables(),
                engine.batches(),
            )?;
        }
        Ok(text)
    }
}
