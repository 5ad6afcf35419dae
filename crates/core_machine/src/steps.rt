// Whether an event is due, and what it does.
ghost use Rattle.std.specs.Prelude.{◌≡◌, ◌<◌, ◌≤◌, ◌+◌, ◌++◌, ◌∷◌, ◌^◌, ℕ, [], List, length, true, false, IsTrue, OnOk, MatchBool};
ghost use Rattle.batch_rules.specs.Trees.{set_at};
ghost use Rattle.core_machine.specs.Cores.{Course, HasTaken, IsNext, IsTid, CanTake, AllCame, AllCameOf, SomeLeft, Performs, asks, is_open};
ghost use Rattle.core_machine.specs.Events.{place_in};
ghost use Rattle.core_machine.specs.Found.{at_tid, finishes_by};
ghost use Rattle.core_machine.specs.Phases.{ended};
ghost use Rattle.core_machine.specs.declared.events.Event.{Event as E};
ghost use Rattle.core_machine.specs.declared.events.Event.TheVariants.{Execute, MarkRead, MarkWrite, Decide, Install};
ghost use Rattle.core_machine.specs.declared.decisions.TheConstants.{TAG};
ghost use Rattle.aria_base.specs.Reserved.{number_under};

use crate::cores::Core;
use crate::decisions::{TAG, decide};
use crate::events::Event;
use crate::found::{at_tid, outcome_of, read_at, write_at};
use crate::kinds::{Kind, has_each};
use crate::phases::Phase;
use aria_base::{Duplicate, Key, Memory, Row, TAG_SPAN};
use dep_rules::Verdict;
use exec_phase::execute;
use std::alloc::Global;
use tbl_rows::Tables;
use tbl_snapshot::Snapshot;

impl Core {
    /// Whether the event is due: its phase asks for it and it has not come; or it is a turn, and all that
    /// the phase asks for has come.
    pub(crate) fn is_due(&self, event: Event) -> bool
        ensures due { (b : Course) (es : List E) → HasTaken b es self.now → MatchBool result (IsNext b es event) (¬ IsNext b es event) }
        ensures possible { result ≡ true → CanTake self.now event }
    {
        match event {
            Event::Turn => return self.has_all(),
            _ => {}
        }
        self.is_open(event)
    }

    /// Whether an event that is no turn is due.
    fn is_open(&self, event: Event) -> bool
        ensures { result ≡ is_open self.now event }
    {
        self.phase.ended() == event.phase() && (self.asks(event) && !self.came.contains(&event))
    }

    /// Whether the batch has such an event, turns aside.
    fn asks(&self, event: Event) -> bool
        ensures { result ≡ asks self.now event }
    {
        match event {
            Event::Execute(tid) => return at_tid(&self.list, tid).is_some(),
            Event::MarkRead(tid, place) => return read_at(&self.outcomes, tid, place).is_some(),
            Event::MarkWrite(tid, place) => return write_at(&self.outcomes, tid, place).is_some(),
            Event::Decide(tid) => return at_tid(&self.list, tid).is_some(),
            Event::Install(tid, place) => {
                return self.finishes(tid) && write_at(&self.outcomes, tid, place).is_some();
            }
            Event::Turn => return false,
        }
    }

    /// Whether it was decided that the request finishes.
    fn finishes(&self, tid: u32) -> bool
        ensures { result ≡ finishes_by (at_tid self.now.verdicts.items tid) }
    {
        match at_tid(&self.verdicts, tid) {
            Some(Verdict::Finish { raw: _ }) => true,
            Some(Verdict::Wait(_)) => false,
            None => false,
        }
    }

    /// Whether all that the phase asks for has come. Nothing is asked for once the machine has settled,
    /// and then there is no turn either.
    fn has_all(&self) -> bool
        ensures { MatchBool result ((ended self.now.phase < 4) × AllCame self.now) (ended self.now.phase < 4 → SomeLeft self.now) }
    {
        match self.phase {
            Phase::Settled => return false,
            _ => {}
        }
        for place in 0..self.list.len() {
            if !self.has_all_of(place as u32 + 1) {
                return false;
            }
        }
        true
    }

    /// Whether all that the phase asks of this request has come.
    fn has_all_of(&self, tid: u32) -> bool
        requires { IsTid self.now tid }
        ensures { MatchBool result (AllCameOf self.now tid) (SomeLeft self.now) }
    {
        match self.phase {
            Phase::Executing => return self.came.contains(&Event::Execute(tid)),
            Phase::Marking => return self.has_marks_of(tid),
            Phase::Deciding => return self.came.contains(&Event::Decide(tid)),
            Phase::Installing => return self.has_rows_of(tid),
            Phase::Settled => return true,
        }
    }

    /// Whether the request was marked at each key of its sets.
    fn has_marks_of(&self, tid: u32) -> bool
        requires { ended self.now.phase ≡ 1 }
        ensures { MatchBool result (AllCameOf self.now tid) (SomeLeft self.now) }
    {
        let Some(outcome) = outcome_of(&self.outcomes, tid) else {
            return true;
        };
        if !has_each(&self.came, Kind::Read, tid, outcome.reads.as_slice().len()) {
            return false;
        }
        has_each(
            &self.came,
            Kind::Write,
            tid,
            outcome.writes.as_slice().len(),
        )
    }

    /// Whether all rows of the request were installed, where it finishes.
    fn has_rows_of(&self, tid: u32) -> bool
        requires { ended self.now.phase ≡ 3 }
        ensures { MatchBool result (AllCameOf self.now tid) (SomeLeft self.now) }
    {
        if !self.finishes(tid) {
            return true;
        }
        let Some(outcome) = outcome_of(&self.outcomes, tid) else {
            return true;
        };
        has_each(&self.came, Kind::Row, tid, outcome.writes.as_slice().len())
    }

    /// Takes an event that is due.
    pub(crate) fn take(&mut self, alloc: Global, event: Event) -> Result<(), Memory>
        requires { CanTake self.old event }
        ensures { OnOk result ((b : Course) (es : List E) → HasTaken b es self.old → IsNext b es event → HasTaken b (es ++ event ∷ []) self.new) }
    {
        self.perform(alloc, event)?;
        self.came.insert(event)?;
        Ok(())
    }

    /// What the event does, but for the note that it has come.
    fn perform(&mut self, alloc: Global, event: Event) -> Result<(), Memory>
        requires { CanTake self.old event }
        ensures performed { OnOk result (Performs self.old event self.new) }
        ensures named { place_in event < 2 ^ 32 }
    {
        match event {
            Event::Execute(tid) => return self.run_request(alloc, tid),
            Event::MarkRead(tid, place) => return self.mark_read(alloc, tid, place),
            Event::MarkWrite(tid, place) => return self.mark_write(alloc, tid, place),
            Event::Decide(tid) => {
                self.decide_on(tid);
                return Ok(());
            }
            Event::Install(tid, place) => return self.install(alloc, tid, place),
            Event::Turn => {
                self.phase = self.phase.next();
                return Ok(());
            }
        }
    }

    /// Runs the request on the rows that the batch begins with, and keeps what it comes to.
    fn run_request(&mut self, alloc: Global, tid: u32) -> Result<(), Memory>
        requires { IsTid self.old tid }
        ensures { OnOk result (Performs self.old (Execute tid) self.new) }
    {
        let place = tid as usize - 1;
        let request = &self.list[place];
        let rows = Snapshot::of(&self.tables);
        let outcome = execute(alloc, &self.catalog, request, rows)?;
        self.outcomes[place] = Some(outcome);
        Ok(())
    }

    /// Marks the request in the word of the readers of this key.
    fn mark_read(&mut self, alloc: Global, tid: u32, place: u32) -> Result<(), Memory>
        ensures { OnOk result (Performs self.old (MarkRead tid place) self.new) }
    {
        let Some(key) = read_at(&self.outcomes, tid, place) else {
            return Ok(());
        };
        self.readers.mark(alloc, key, number_of(tid))
    }

    /// Marks the request in the word of the writers of this key.
    fn mark_write(&mut self, alloc: Global, tid: u32, place: u32) -> Result<(), Memory>
        ensures { OnOk result (Performs self.old (MarkWrite tid place) self.new) }
    {
        let Some(write) = write_at(&self.outcomes, tid, place) else {
            return Ok(());
        };
        self.writers.mark(alloc, &write.0, number_of(tid))
    }

    /// Decides by the words whether the request finishes.
    fn decide_on(&mut self, tid: u32)
        requires { IsTid self.old tid }
        ensures { Performs self.old (Decide tid) self.new }
    {
        let Some(outcome) = outcome_of(&self.outcomes, tid) else {
            return;
        };
        let verdict = decide(outcome, tid, self.rule, &self.writers, &self.readers);
        self.verdicts[tid as usize - 1] = verdict;
    }

    /// Puts or deletes the row of one write.
    fn install(&mut self, alloc: Global, tid: u32, place: u32) -> Result<(), Memory>
        ensures { OnOk result (Performs self.old (Install tid place) self.new) }
    {
        let Some((key, row)) = write_at(&self.outcomes, tid, place) else {
            return Ok(());
        };
        set_row(alloc, &mut self.tables, key, row)
    }
}

/// The number that stands for the TID under the machine's tag.
fn number_of(tid: u32) -> u64
    ensures { result ≡ number_under TAG tid }
{
    TAG * TAG_SPAN + u64::from(tid)
}

/// Puts a copy of the row at the key, or deletes what is there.
fn set_row(alloc: Global, tables: &mut Tables, key: &Key, row: &Option<Row>) -> Result<(), Memory>
    ensures { OnOk result (tables.new ≡ set_at tables.old key.now row.now) }
{
    match row {
        Some(row) => {
            tables.put(key.duplicate(alloc)?, row.duplicate(alloc)?)?;
            Ok(())
        }
        None => {
            let _was = tables.delete(key);
            Ok(())
        }
    }
}
