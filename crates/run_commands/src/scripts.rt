// A script between two of its lines, and the next line.
ghost use Rattle.std.specs.Prelude.{◌≡◌, ◌≢◌, ◌≤◌, ℕ, List, [], ◌∷◌, length, None, false, IfOk, IfErr, IfSome, IsSomeAnd};
ghost use Rattle.aria_base.specs.Faults.{Rose};
ghost use Rattle.aria_base.specs.declared.limits.TheConstants.{LONGEST_LINE, MOST_REPLICAS};
ghost use Rattle.answer_text.specs.Notices.{kept_text};
ghost use Rattle.script_course.specs.Causes.{IsCause};
ghost use Rattle.script_course.specs.Courses.{Goes};
ghost use Rattle.script_course.specs.Served.{Serves};
ghost use Rattle.serving.specs.declared.batches.Delivery.TheVariants as delivery;
ghost use Rattle.disk_model.specs.Histories.{LeavesAll};
ghost use Rattle.image_text.specs.Payloads.{Batch};
ghost use Rattle.serving.specs.Stored.{Holds};
ghost use Rattle.slot_images.specs.Images.{Checkpoint};
ghost use Rattle.script_places.specs.Places.{plan_in, start_with};
ghost use Rattle.script_places.specs.declared.places.Mode.TheVariants as mode;
ghost use Rattle.serving.specs.Lives.{IsRunnable, plan_of, state_of};
ghost use Rattle.run_commands.specs.Bases.{IsSettled, checkpoint_in, state_in, store_in};
ghost use Rattle.run_commands.specs.Keeps.{IsOpen, IsShort, Keeps, held_of};
ghost use Rattle.run_commands.specs.Onces.{Doing, behind_batch, doing_result, done, on_line, text_of, with_call, with_row, with_settings, without_calls};
ghost use Rattle.run_commands.specs.Outs.{start_by};
ghost use Rattle.run_commands.specs.Stops.{IsStopFor};
ghost use Rattle.run_commands.specs.Passes.{Line, PassesTurns, held_then};
ghost use Rattle.run_commands.specs.Saves.{IsLeft, saved_then};
ghost use Rattle.store_openings.specs.Saved.{Saved};
ghost use Rattle.run_commands.specs.Turns.{HoldsScript, KeepsTurns, Stays};
ghost use Rattle.run_commands.specs.Standing.{MayCall, MayClose, MayDo, MayPut, MayRun, MaySet, Stands, doing_of, running_of, runs_batch};

use crate::bases::{Base, catalog_of};
use crate::works::Work;
use answer_text::kept_line;
use aria_base::{Call, Key, Memory, Pace, Row, Sink};
use batch_rules::verdicts::Rule;
use dep_rules::Config;
use disk_model::Disk;
use script_course::{Stop, give, refuse};
use script_places::{Deed, Mode, ScriptPlace, follows};
use script_text::LinesRefused;
use serving::{Delivery, Live, serve_batch};
use std::alloc::Global;
use std::marker::Model;
use std::thread::Threads;
use tbl_rows::Tables;

/// A script between two of its lines.
#[derive(Drop)]
pub(crate) struct Script {
    pub place: ScriptPlace,
    pub work: Work,
}

impl Model for Script {
    ghost use Rattle.run_commands.specs.Codes.{running_code};
    ghost use Rattle.run_commands.specs.Onces.{Running};
    ghost use Rattle.run_commands.specs.Standing.{Stands, running_of};

    ghost Value = { Running };

    ghost coded = { running_code };

    ghost view = { λ s. running_of s.place s.work };

    ghost invariant = { λ s. Stands s.place s.work };
}

impl Script {
    /// Before the first line, without a store.
    pub fn start(alloc: Global, config: Config, replicas: u32, each: bool) -> Result<Script, Memory>
        requires settled { IsSettled config }
        requires engines { (1 ≤ replicas) × (replicas ≤ MOST_REPLICAS) }
        ensures doing { IfOk result (λ script. script.doing ≡ start_by config.rule config.fallback each) }
        ensures store { IfOk result (λ script. script.store ≡ None) }
    {
        let tables = Tables::new(alloc)?;
        let work = Work {
            calls: Vec::new(alloc),
            base: Base::Rows(tables, config),
            replicas,
            each,
        };
        let place = ScriptPlace::start(Mode::Once);
        Ok(Script { place, work })
    }

    /// Before the first line, over a database that runs; where it has a store, its batches outlive the program.
    /// The script brings no catalogue.
    pub fn resume(alloc: Global, live: Live, replicas: u32) -> Result<Script, Memory>
        requires runnable { IsRunnable live }
        requires engines { (1 ≤ replicas) × (replicas ≤ MOST_REPLICAS) }
        ensures doing { IfOk result (λ script. script.doing ≡ record {
          place = start_with mode.Run
              (plan_of live);
          calls = [];
          state = state_of live;
          each = live.each;
        }) }
        ensures store { IfOk result (λ script. script.store ≡ live.store) }
        ensures checkpoint { IfOk result (λ script. script.checkpoint ≡ live.checkpoint) }
    {
        let catalog = catalog_of(alloc, &live)?;
        let place = ScriptPlace::start_with(Mode::Run, catalog);
        let each = live.each;
        let work = Work {
            calls: Vec::new(alloc),
            base: Base::Runs(live),
            replicas,
            each,
        };
        Ok(Script { place, work })
    }

    /// Takes the next line, of at most 4,096 bytes, and gives what it prints. The answer is the script behind it.
    /// Without a store the disk is not touched.
    #[tactic(auto, using(crate::proofs::Moved::moved_to, crate::proofs::Moved::not_moved))]
    pub fn serve<K: Sink, D: Disk, P: Pace + Sync, R: Threads + Sync>(
        self,
        rt: &R,
        alloc: Global,
        line: &[u8],
        out: &mut K,
        disk: &mut D,
        pace: &P,
    ) -> Result<Script, Stop>
        requires open { IsOpen (D.history disk.old) self }
        requires short { length line.now ≤ LONGEST_LINE }
        ensures serves { Serves (on_line self.doing line.now) (K.given out.old) (K.given out.new) (doing_result result) }
        ensures open { IfOk result (λ next. IsOpen (D.history disk.new) next) }

        // Over a store: what a stop at any moment leaves, and what the disk holds behind the line.
        ensures keeps { (first : ℕ) (saved : Saved) → HoldsScript first saved (D.history disk.old) self
            → KeepsTurns first saved (Line line.now ∷ []) self (D.history disk.old) (D.history disk.new) (K.given out.old) (K.given out.new) result }
        ensures store { self.store ≡ None → IfOk result (λ script. script.store ≡ None) }
        ensures untouched { self.store ≡ None → disk.new ≡ disk.old }
        ensures sink { K.faults out.old ≤ K.faults out.new }
        ensures disk { IfOk result (λ _. (D.history disk.old).faults ≤ (D.history disk.new).faults) }
        ensures cause { IfErr result (λ stop. IsCause stop (Rose (K.faults out.old) (K.faults out.new))
            (IsSomeAnd self.store (λ _. Rose (D.history disk.old).faults (D.history disk.new).faults))) }
    {
        let Script { place, work } = self;
        let counts = work.base.counts();
        match place.ask(alloc, counts, line) {
            Ok(asked) => {
                let (after, deed) = asked;
                follows();
                return work.with(rt, alloc, after, deed, out, disk, pace);
            }
            Err(LinesRefused::Memory) => return Err(Stop::NoMemory),
            Err(LinesRefused::Line(refusal)) => return refuse(alloc, &refusal, out),
        }
    }
}

impl Work {
    /// Does what a line asks for, at the place behind it, and gives what that prints.
    fn with<K: Sink, D: Disk, P: Pace + Sync, R: Threads + Sync>(
        self,
        rt: &R,
        alloc: Global,
        place: ScriptPlace,
        deed: Deed,
        out: &mut K,
        disk: &mut D,
        pace: &P,
    ) -> Result<Script, Stop>
        requires may { MayDo place self deed }
        requires open { IsOpen (D.history disk.old) (running_of place self) }
        requires short { IfSome (store_in self.base) (λ _. IsShort (plan_in place.head) deed) }
        ensures serves { Serves (done (doing_of place self) deed) (K.given out.old) (K.given out.new) (doing_result result) }
        ensures open { IfOk result (IsOpen (D.history disk.new)) }

        // A stop at any moment leaves the state before or behind it; and a stop now, what was given of its text.
        ensures keeps { (c : Checkpoint) (later : List Batch) (before : Doing) (line : List ℕ)
            → Holds (D.history disk.old) (plan_in place.head) (held_of (running_of place self)) (store_in self.base) c later
            → before.state ≡ state_in self.base → on_line before line ≡ done (doing_of place self) deed
            → Keeps (PassesTurns (Line line ∷ []) before (held_of (running_of place self))) (plan_in place.head) (D.history disk.old) (D.history disk.new)
            (K.given out.old) (K.given out.new) }

        // It leaves just what stood there, or that with the batch in the log, or what stands behind the line.
        ensures left { (first : ℕ) (saved : Saved) → HoldsScript first saved (D.history disk.old) (running_of place self)
            → (before : Doing) (line : List ℕ) → before.state ≡ state_in self.base → before.calls ≡ self.calls.items
            → on_line before line ≡ done (doing_of place self) deed
            → LeavesAll (D.history disk.old) (D.history disk.new) (IsLeft (checkpoint_in self.base) (Line line ∷ []) before saved) }

        // The state behind it is held by the script that goes on, by the last checkpoint that was due.
        ensures stays { (first : ℕ) (saved : Saved) → HoldsScript first saved (D.history disk.old) (running_of place self)
            → (before : Doing) → before.state ≡ state_in self.base → before.calls ≡ self.calls.items
            → IfOk result (λ next. Stays first (saved_then (checkpoint_in self.base) saved before next.doing) (D.history disk.new)
            (running_of place self) next) }
        ensures held { (first : ℕ) (saved : Saved) → HoldsScript first saved (D.history disk.old) (running_of place self)
            → (before : Doing) → before.state ≡ state_in self.base
            → IfOk result (λ next. held_of next ≡ held_then (held_of (running_of place self)) before next.doing) }
        ensures store { store_in self.base ≡ None → IfOk result (λ script. script.store ≡ None) }
        ensures untouched { store_in self.base ≡ None → disk.new ≡ disk.old }
        ensures sink { K.faults out.old ≤ K.faults out.new }
        ensures disk { IfOk result (λ _. (D.history disk.old).faults ≤ (D.history disk.new).faults) }
        ensures cause { IfErr result (λ stop. IsCause stop (Rose (K.faults out.old) (K.faults out.new))
            (IsSomeAnd (store_in self.base) (λ _. Rose (D.history disk.old).faults (D.history disk.new).faults))) }
    {
        if runs_batch(&deed) {
            return self.run(rt, alloc, place, out, disk, pace);
        }
        return self.quietly(alloc, place, deed, out);
    }

    /// Does what a line asks for that runs no batch. The disk is not touched.
    fn quietly<K: Sink>(
        self,
        alloc: Global,
        place: ScriptPlace,
        deed: Deed,
        out: &mut K,
    ) -> Result<Script, Stop>
        requires may { MayDo place self deed }
        requires quiet { runs_batch deed ≡ false }
        ensures serves { Serves (done (doing_of place self) deed) (K.given out.old) (K.given out.new) (doing_result result) }
        ensures store { IfOk result (λ script. script.store ≡ store_in self.base) }
        ensures checkpoint { IfOk result (λ script. script.checkpoint ≡ checkpoint_in self.base) }
        ensures sink { K.faults out.old ≤ K.faults out.new }
        ensures cause { IfErr result (λ stop. IsCause stop (Rose (K.faults out.old) (K.faults out.new)) ⊥) }
    {
        match deed {
            Deed::Nothing | Deed::Tell => Ok(Script { place, work: self }),
            Deed::Put(key, row) => match self.put(place, key, row) {
                Ok(script) => Ok(script),
                Err(Memory) => Err(Stop::NoMemory),
            },
            Deed::Call(call) => match self.call(place, call) {
                Ok(script) => Ok(script),
                Err(Memory) => Err(Stop::NoMemory),
            },
            Deed::Set { rule, percent } => Ok(self.set(place, rule, percent)),
            Deed::Keep(number) => self.keep(alloc, place, number, out),
            Deed::Run => unreachable!(),
        }
    }

    /// The row stands at the key.
    fn put(self, place: ScriptPlace, key: Key, row: Row) -> Result<Script, Memory>
        requires { MayPut place self key row }
        ensures doing { IfOk result (λ script. script.doing ≡ with_row (doing_of place self) key row) }
        ensures store { IfOk result (λ script. script.store ≡ store_in self.base) }
        ensures checkpoint { IfOk result (λ script. script.checkpoint ≡ checkpoint_in self.base) }
    {
        let Work {
            calls,
            base,
            replicas,
            each,
        } = self;
        let work = Work {
            calls,
            base: base.put(key, row)?,
            replicas,
            each,
        };
        Ok(Script { place, work })
    }

    /// One call more.
    fn call(self, place: ScriptPlace, call: Call) -> Result<Script, Memory>
        requires { MayCall place self call }
        ensures doing { IfOk result (λ script. script.doing ≡ with_call (doing_of place self) call) }
        ensures store { IfOk result (λ script. script.store ≡ store_in self.base) }
        ensures checkpoint { IfOk result (λ script. script.checkpoint ≡ checkpoint_in self.base) }
    {
        let mut work = self;
        work.calls.push(call)?;
        Ok(Script { place, work })
    }

    /// The settings of the next batch.
    fn set(self, place: ScriptPlace, rule: Rule, percent: u32) -> Script
        requires { MaySet place self percent }
        ensures doing { result.doing ≡ with_settings (doing_of place self) rule percent }
        ensures store { result.store ≡ store_in self.base }
        ensures checkpoint { result.checkpoint ≡ checkpoint_in self.base }
    {
        let Work {
            calls,
            base,
            replicas,
            each,
        } = self;
        let work = Work {
            calls,
            base: base.set(rule, percent),
            replicas,
            each,
        };
        Script { place, work }
    }

    /// Tells of a batch that was run before, and goes on without the open calls.
    fn keep<K: Sink>(
        self,
        alloc: Global,
        place: ScriptPlace,
        number: u64,
        out: &mut K,
    ) -> Result<Script, Stop>
        requires { MayClose place self }
        ensures serves { Serves (Goes (kept_text number) (without_calls (doing_of place self))) (K.given out.old) (K.given out.new) (doing_result result) }
        ensures store { IfOk result (λ script. script.store ≡ store_in self.base) }
        ensures checkpoint { IfOk result (λ script. script.checkpoint ≡ checkpoint_in self.base) }
        ensures sink { K.faults out.old ≤ K.faults out.new }
        ensures cause { IfErr result (λ stop. IsCause stop (Rose (K.faults out.old) (K.faults out.new)) ⊥) }
    {
        match kept_line(alloc, number) {
            Ok(text) => give(self.without_calls(alloc, place), &text, out),
            Err(Memory) => Err(Stop::NoMemory),
        }
    }

    /// Without the open calls.
    fn without_calls(self, alloc: Global, place: ScriptPlace) -> Script
        requires { MayClose place self }
        ensures doing { result.doing ≡ without_calls (doing_of place self) }
        ensures store { result.store ≡ store_in self.base }
        ensures checkpoint { result.checkpoint ≡ checkpoint_in self.base }
    {
        let Work {
            calls: _,
            base,
            replicas,
            each,
        } = self;
        let work = Work {
            calls: Vec::new(alloc),
            base,
            replicas,
            each,
        };
        Script { place, work }
    }

    /// Runs the batch of the open calls, and gives its text.
    fn run<K: Sink, D: Disk, P: Pace + Sync, R: Threads + Sync>(
        self,
        rt: &R,
        alloc: Global,
        place: ScriptPlace,
        out: &mut K,
        disk: &mut D,
        pace: &P,
    ) -> Result<Script, Stop>
        requires may { MayRun place self }
        requires open { IsOpen (D.history disk.old) (running_of place self) }
        ensures serves { Serves (Goes (text_of (doing_of place self)) (behind_batch (doing_of place self))) (K.given out.old) (K.given out.new)
            (doing_result result) }
        ensures open { IfOk result (IsOpen (D.history disk.new)) }

        // A stop at any moment leaves the state before or behind it; and a stop now, what was given of its text.
        ensures keeps { (c : Checkpoint) (later : List Batch) (before : Doing) (line : List ℕ)
            → Holds (D.history disk.old) (plan_in place.head) (held_of (running_of place self)) (store_in self.base) c later
            → before.state ≡ state_in self.base → on_line before line ≡ Goes (text_of (doing_of place self)) (behind_batch (doing_of place self))
            → Keeps (PassesTurns (Line line ∷ []) before (held_of (running_of place self))) (plan_in place.head) (D.history disk.old) (D.history disk.new)
            (K.given out.old) (K.given out.new) }

        // It leaves just what stood there, or that with the batch in the log, or what stands behind the line.
        ensures left { (first : ℕ) (saved : Saved) → HoldsScript first saved (D.history disk.old) (running_of place self)
            → (before : Doing) (line : List ℕ) → before.state ≡ state_in self.base → before.calls ≡ self.calls.items
            → on_line before line ≡ Goes (text_of (doing_of place self)) (behind_batch (doing_of place self))
            → LeavesAll (D.history disk.old) (D.history disk.new) (IsLeft (checkpoint_in self.base) (Line line ∷ []) before saved) }

        // The state behind it is held by the script that goes on, by the last checkpoint that was due.
        ensures stays { (first : ℕ) (saved : Saved) → HoldsScript first saved (D.history disk.old) (running_of place self)
            → (before : Doing) → before.state ≡ state_in self.base → before.calls ≡ self.calls.items
            → IfOk result (λ next. Stays first (saved_then (checkpoint_in self.base) saved before next.doing) (D.history disk.new)
            (running_of place self) next) }
        ensures held { (first : ℕ) (saved : Saved) → HoldsScript first saved (D.history disk.old) (running_of place self)
            → (before : Doing) → before.state ≡ state_in self.base
            → IfOk result (λ next. held_of next ≡ held_then (held_of (running_of place self)) before next.doing) }
        ensures store { store_in self.base ≡ None → IfOk result (λ script. script.store ≡ None) }
        ensures untouched { store_in self.base ≡ None → disk.new ≡ disk.old }
        ensures sink { K.faults out.old ≤ K.faults out.new }
        ensures disk { IfOk result (λ _. (D.history disk.old).faults ≤ (D.history disk.new).faults) }
        ensures cause { IfErr result (λ stop. IsCause stop (Rose (K.faults out.old) (K.faults out.new))
            (IsSomeAnd (store_in self.base) (λ _. Rose (D.history disk.old).faults (D.history disk.new).faults))) }
    {
        let Work {
            calls,
            base,
            replicas,
            each,
        } = self;
        let Ok(live) = base.begun(alloc, &place.head, replicas, each) else {
            return Err(Stop::NoMemory);
        };
        let (next, given) = serve_batch(rt, alloc, live, calls, out, disk, pace);
        match next {
            Some(live) => {
                let work = Work {
                    calls: Vec::new(alloc),
                    base: Base::Runs(live),
                    replicas,
                    each,
                };
                return Ok(Script { place, work });
            }
            None => return Err(why_stopped(given)),
        }
    }
}

/// Whether a batch is asked for.
fn runs_batch(deed: &Deed) -> bool
    ensures { result ≡ runs_batch deed.now }
{
    match deed {
        Deed::Run => true,
        Deed::Nothing
        | Deed::Tell
        | Deed::Put(_, _)
        | Deed::Call(_)
        | Deed::Set { .. }
        | Deed::Keep(_) => false,
    }
}

/// The stop for a batch that was not told.
pub(crate) fn why_stopped(why: Delivery) -> Stop
    requires { why ≢ delivery.Told }
    ensures { IsStopFor why result }
{
    match why {
        Delivery::NoMemory => Stop::NoMemory,
        Delivery::NoWrite => Stop::NoWrite,
        Delivery::NoDisk => Stop::NoDisk,
        Delivery::Told => unreachable!(),
    }
}
