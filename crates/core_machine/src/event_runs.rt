// The machine from its beginning on.
ghost use Rattle.std.specs.Prelude.{◌≡◌, ◌≤◌, ◌++◌, ◌==◌, ℕ, [], List, None, length, map, true, IfOk, IfErr};
ghost use Rattle.aria_base.specs.declared.limits.TheConstants.{MOST_REQUESTS};
ghost use Rattle.batch_rules.specs.declared.verdicts.Verdict.TheVariants.{Finish};
ghost use Rattle.core_machine.specs.Cores.{Course, HasTaken, IsRefusal, after, verdicts_of, database_of};
ghost use Rattle.core_machine.specs.Events.{IsSettled};
ghost use Rattle.core_machine.specs.Phases.{ended};
ghost use Rattle.core_machine.specs.declared.events.Event.{Event as E};

use crate::cores::Core;
use crate::events::Event;
use crate::phases::Phase;
use crate::refusals::CoreRefused;
use crate::words::Words;
use aria_base::{Memory, Request};
use dep_rules::{Rule, Verdict};
use proc_exec::Outcome;
use proc_lang::Catalog;
use std::alloc::Global;
use std::collections::BTreeSet;
use tbl_rows::Tables;

impl Core {
    /// The machine before the first event of the batch that this list is, on these rows, by this rule.
    pub fn begin(
        alloc: Global,
        c: Catalog,
        start: Tables,
        list: Vec<Request>,
        rule: Rule,
    ) -> Result<Core, Memory>
        requires { length list.items ≤ MOST_REQUESTS }
        ensures { IfOk result (λ core. HasTaken (record { catalog = c; rule = rule; start = start; list = list.items }) [] core) }
    {
        let outcomes = none_ran(alloc, &list)?;
        let verdicts = none_told(alloc, &list)?;
        Ok(Core {
            catalog: c,
            rule,
            list,
            phase: Phase::Executing,
            came: BTreeSet::new(alloc),
            outcomes,
            writers: Words::new(alloc),
            readers: Words::new(alloc),
            verdicts,
            tables: start,
        })
    }

    /// Once the machine has settled, the rows that the batch's commit phase leaves; before that this
    /// promises nothing of them. No memory.
    pub fn tables(&self) -> &Tables
        ensures { (b : Course) (es : List E) → HasTaken b es self.now → IsSettled (after b es) → result.now ≡ database_of b }
    {
        &self.tables
    }

    /// Once the machine has settled, the verdicts of the batch's commit phase, in the order of the list;
    /// before that this promises nothing of them. No memory.
    pub fn verdicts(&self) -> &[Verdict]
        ensures { (b : Course) (es : List E) → HasTaken b es self.now → IsSettled (after b es) → result.now ≡ verdicts_of b }
    {
        self.verdicts.as_slice()
    }

    /// Whether four phases have ended, so that nothing is due. No memory.
    pub fn settled(&self) -> bool
        ensures { (b : Course) (es : List E) → HasTaken b es self.now → result ≡ ((after b es).phase == 4) }
    {
        self.phase == Phase::Settled
    }
}

/// Takes the events one after the other. `NotDue` names the first of them that is not due when it comes, and
/// the machine is gone then, as where there was no memory.
pub fn run(alloc: Global, core: Core, events: &[Event]) -> Result<Core, CoreRefused>
    ensures taken { IfOk result (λ taken. (b : Course) (es : List E) → HasTaken b es core → HasTaken b (es ++ events.now) taken) }
    ensures refused { IfErr result (λ refused. (b : Course) (es : List E) → HasTaken b es core → IsRefusal b es events.now refused) }
{
    let mut core = core;
    for at in 0..events.len() {
        let event = events[at];
        if !core.is_due(event) {
            return Err(CoreRefused::NotDue { at });
        }
        core.take(alloc, event)?;
    }
    Ok(core)
}

/// No outcome for any request of the list.
fn none_ran(alloc: Global, list: &[Request]) -> Result<Vec<Option<Outcome>>, Memory>
    ensures { IfOk result (λ outcomes. outcomes.items ≡ map (λ request. None) list.now) }
{
    let mut outcomes = Vec::with_capacity(alloc, list.len())?;
    for _request in list {
        outcomes.push(None)?;
    }
    Ok(outcomes)
}

/// As many verdicts as there are requests.
fn none_told(alloc: Global, list: &[Request]) -> Result<Vec<Verdict>, Memory>
    ensures { IfOk result (λ verdicts. length verdicts.items ≡ length list.now) }
{
    let mut verdicts = Vec::with_capacity(alloc, list.len())?;
    for _request in list {
        verdicts.push(Verdict::Finish { raw: false })?;
    }
    Ok(verdicts)
}
