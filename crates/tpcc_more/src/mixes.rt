// A database of order entry between two batches.
ghost use Rattle.std.specs.Prelude.{◌≡◌, ◌≤◌, ◌<◌, ◌+◌, ◌-◌, length, true, IfOk};
ghost use Rattle.std.specs.List.{All};
ghost use Rattle.aria_base.specs.Schemas.{IsConsistent};
ghost use Rattle.aria_base.specs.declared.limits.TheConstants.{GREATEST_NUMBER, MOST_WORKERS};
ghost use Rattle.cat_builtin.specs.Tpcc.{tpcc};
ghost use Rattle.proc_lang.specs.Catalogs.{run_of};
ghost use Rattle.range_rules.specs.Batches.{answer_of};
ghost use Rattle.range_rules.specs.Serials.{IsSerialAnswer, IsProgress};
ghost use Rattle.range_rules.specs.declared.routines.TheConstants.{MOST_WORKS};
ghost use Rattle.range_suits.specs.Suits.{is_taken};
ghost use Rattle.range_resv.specs.Engines.{IsReady, list_from, batch_from};
ghost use Rattle.tpcc_load.specs.Heads.{IsWithin};
ghost use Rattle.tpcc_routines.specs.Routines.{is_more};
ghost use Rattle.tpcc_routines.specs.Sound.{soundness};
ghost use Rattle.tpcc_routines.specs.declared.findings.Soundness.TheVariants.{Sound};
ghost use Rattle.tpcc_more.specs.Mixes.{IsMix, begun, head_rows};
ghost use Rattle.tpcc_more.specs.Taken.{taken_as};
ghost use Rattle.tpcc_sound.specs.Laws.{act};

use crate::taken::Taken;
use aria_base::{Memory, Pace};
use batch_core::Answer;
use cat_builtin::builtin;
use dep_rules::Config;
use range_resv::ScanEngine;
use range_rules::Work;
use std::alloc::Global;
use std::marker::Model;
use std::thread::Threads;
use tbl_rows::Tables;
use tpcc_load::Tpcc;
use tpcc_routines::laws::more_suits;
use tpcc_routines::{More, Soundness, first_failure};
use tpcc_sound::laws::{batches_stay_sound, failures_are_all, heads_are_sound};
use workloads::Generator;

/// A database of order entry between two batches, which takes all five requests. Its rows fit the
/// catalogue `tpcc` and are sound.
#[derive(Drop)]
pub struct Mix {
    engine: ScanEngine,
}

impl Model for Mix {
    ghost use Rattle.range_resv.specs.Engines.{Between, between_code};
    ghost use Rattle.tpcc_more.specs.Mixes.{IsMix};

    ghost Value = { Between };

    ghost coded = { between_code };

    ghost view = { λ a. a.engine };

    ghost invariant = { λ a. IsMix a.engine };
}

impl Mix {
    /// The database that order entry begins with, by these settings. No batch was run, no request is numbered, and nothing
    /// waits.
    pub fn head(alloc: Global, settings: &Tpcc) -> Result<Mix, Memory>
        requires { IsWithin settings.now }
        ensures { IfOk result (λ mix. mix ≡ begun (head_rows settings.now)) }
    {
        let (catalog, tables) = Generator::Tpcc(*settings).head(alloc)?;
        heads_are_sound();
        Ok(Mix {
            engine: ScanEngine::begin(alloc, catalog, tables),
        })
    }

    /// Takes tables that fit the catalogue `tpcc`, exactly where they are sound. No batch was run, no request is numbered,
    /// and nothing waits. An error: there was no memory, and the tables are gone.
    pub fn take(alloc: Global, tables: Tables) -> Result<Taken, Memory>
        requires { IsConsistent tpcc.tables tables }
        ensures { IfOk result (λ taken. taken ≡ taken_as (soundness tables) tables) }
    {
        match first_failure(alloc, &tables)? {
            Soundness::Fails { condition, w, d } => Ok(Taken::Fails { condition, w, d }),
            Soundness::Sound => {
                let mix = begin(alloc, tables)?;
                Ok(Taken::Ready(mix))
            }
        }
    }

    /// Runs the next batch: the works that wait and these new ones, which get the next request numbers, by the rule of the
    /// settings, and by so many workers, from 1 to 64. No answer depends on the workers. The settings' fallback is not
    /// looked at.
    ///
    /// Each new work is a call of a procedure of the catalogue `tpcc` or of a routine of [`More`]. With those that wait they
    /// are at most 1,000, and no number passes 2^62. An error: there was no memory, and the database is gone.
    pub fn run_batch<P: Pace + Sync, T: Threads + Sync>(
        self,
        rt: &T,
        alloc: Global,
        new: Vec<Work>,
        config: &Config,
        pace: &P,
    ) -> Result<(Mix, Answer), Memory>
        requires new { All (λ work. is_taken tpcc is_more work ≡ true) new.items }
        requires room { length self.carried + length new.items ≤ MOST_WORKS }
        requires batches { self.batches < GREATEST_NUMBER }
        requires requests { self.requests + length new.items ≤ GREATEST_NUMBER }
        requires workers { (1 ≤ config.now.workers) × (config.now.workers ≤ MOST_WORKERS) }
        ensures plan { IfOk result (λ r. r.0.plan ≡ self.plan) }
        ensures counts { IfOk result (λ r. (r.0.batches ≡ self.batches + 1) × (r.0.requests ≡ self.requests + length new.items)) }
        ensures answer { IfOk result (λ r. r.1 ≡ answer_of (self.batches + 1) (batch_from act config.now.rule self new.items)) }
        ensures rows { IfOk result (λ r. r.0.rows ≡ (batch_from act config.now.rule self new.items).rows) }
        ensures waiting { IfOk result (λ r. r.0.carried ≡ (batch_from act config.now.rule self new.items).carried) }
        ensures serial { IfOk result (λ r.
            IsSerialAnswer (run_of self.plan) act self.rows (list_from self new.items) r.1 r.0.rows r.0.carried) }
        ensures progress { IfOk result (λ r.
            0 < length (list_from self new.items) → IsProgress (run_of self.plan) act self.rows (list_from self new.items) r.1 r.0.carried) }
    {
        more_suits();
        batches_stay_sound();
        self.engine.ready();
        let (engine, answer) = self.engine.run_batch(rt, alloc, &More, new, config, pace)?;
        Ok((Mix { engine }, answer))
    }

    /// Does nothing: a caller knows behind it what is true of every mix.
    pub fn ready(&self)
        ensures mix { IsMix self.now }
        ensures engine { IsReady self.now.plan self.now.rows self.now.carried self.now.batches self.now.requests }
    {
        self.engine.ready();
    }

    /// The rows. No memory.
    pub fn tables(&self) -> &Tables
        ensures { result.now ≡ self.now.rows }
    {
        self.engine.tables()
    }

    /// How many batches were run. No memory.
    pub fn batches(&self) -> u64
        ensures { result ≡ self.now.batches }
    {
        self.engine.batches()
    }

    /// How many requests were numbered. No memory.
    pub fn requests(&self) -> u64
        ensures { result ≡ self.now.requests }
    {
        self.engine.requests()
    }

    /// How many new works the next batch may have. No memory.
    pub fn room(&self) -> u32
        ensures { result ≡ MOST_WORKS - length self.now.carried }
    {
        self.engine.room()
    }

    /// How many works wait. No memory.
    pub fn left(&self) -> u32
        ensures { result ≡ length self.now.carried }
    {
        self.engine.carried()
    }
}

/// A mix with these rows, on which no batch was run.
fn begin(alloc: Global, tables: Tables) -> Result<Mix, Memory>
    requires fit { IsConsistent tpcc.tables tables }
    requires sound { soundness tables ≡ Sound }
    ensures { IfOk result (λ mix. mix ≡ begun tables) }
{
    let Some(catalog) = builtin(alloc, b"tpcc")? else {
        unreachable!();
    };
    failures_are_all();
    Ok(Mix {
        engine: ScanEngine::begin(alloc, catalog, tables),
    })
}
