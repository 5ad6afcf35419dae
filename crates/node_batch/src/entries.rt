// What becomes of a node's own requests in a batch.
ghost use Rattle.std.specs.Prelude.{◌≡◌, ◌+◌, ◌-◌, ◌<◌, ◌^◌, ◌++◌, ◌%◌, ◌==◌, ◌∷◌, [], if◌then◌else◌, false, map, length, unwrap_or, IfOk, OnOk};
ghost use Rattle.batch_rules.specs.declared.verdicts.Verdict.TheVariants.{Finish};
ghost use Rattle.batch_rules.specs.Trees.{end_of};
ghost use Rattle.proc_lang.specs.Catalogs.{run_of};
ghost use Rattle.node_rules.specs.Worlds.{fate_by_verdict};
ghost use Rattle.node_batch.specs.Entries.{entry_of, fate_of, verdict_of, entry_by, own_entries};
ghost use Rattle.node_batch.specs.OwnRuns.{rows_of, told_of};

use crate::mails::Site;
use crate::own_runs::OwnRun;
use aria_base::{Duplicate, Memory, Request};
use batch_rules::verdicts::{Cause, Verdict};
use proc_lang::{Catalog, End};
use std::alloc::Global;

/// What becomes of a request in its batch.
#[derive(Debug, Drop)]
pub enum Outcome {
    /// It finishes with this end; and whether it read what an earlier request writes.
    Ended(bool, End),
    /// It is carried over to the next batch.
    Waits(Cause),
}

/// A request of a batch's list, with its TID and what becomes of it.
#[derive(Debug, Drop)]
pub struct Entry {
    /// Its place in the list, from 1.
    pub tid: u32,
    /// The request.
    pub request: Request,
    /// What becomes of it.
    pub outcome: Outcome,
}

/// What became of each of the node's own requests, in the order of the list, where all verdicts were told.
pub fn entries_of(
    alloc: Global,
    catalog: &Catalog,
    site: Site,
    list: &[Request],
    fates: &[Option<Verdict>],
    runs: &[OwnRun],
) -> Result<Vec<Entry>, Memory>
    requires nodes { 0 < site.nodes }
    requires few { length list.now < 2 ^ 32 - 1 }
    requires fates { length fates.now ≡ length list.now }
    requires runs { length runs.now ≡ length list.now }
    ensures { IfOk result (λ entries. map entry_of entries.items ≡ own_entries catalog.now site 0 list.now fates.now (map told_of runs.now)) }
{
    let mut entries = Vec::new(alloc);
    for place in 0..list.len() {
        let number = place as u32;
        push_own(
            alloc,
            catalog,
            site,
            number,
            &list[place],
            &fates[place],
            &runs[place],
            &mut entries,
        )?;
    }
    Ok(entries)
}

/// Appends the request where it is the node's own.
fn push_own(
    alloc: Global,
    catalog: &Catalog,
    site: Site,
    number: u32,
    request: &Request,
    fate: &Option<Verdict>,
    run: &OwnRun,
    entries: &mut Vec<Entry>,
) -> Result<(), Memory>
    requires nodes { 0 < site.nodes }
    requires few { number < 2 ^ 32 - 1 }
    ensures { OnOk result (map entry_of entries.new.items ≡ map entry_of entries.old.items
        ++ (if number % site.nodes == site.node then entry_by catalog.now number request.now fate.now (told_of run.now) ∷ [] else [])) }
{
    if number % site.nodes != site.node {
        return Ok(());
    }
    let entry = entry_with(alloc, catalog, number, request, fate, run)?;
    entries.push(entry)?;
    Ok(())
}

/// What became of one request.
fn entry_with(
    alloc: Global,
    catalog: &Catalog,
    number: u32,
    request: &Request,
    fate: &Option<Verdict>,
    run: &OwnRun,
) -> Result<Entry, Memory>
    requires { number < 2 ^ 32 - 1 }
    ensures { IfOk result (λ entry. entry_of entry ≡ entry_by catalog.now number request.now fate.now (told_of run.now)) }
{
    let end = run.end(alloc, catalog, request)?;
    let request = request.duplicate(alloc)?;
    Ok(Entry {
        tid: number + 1,
        request,
        outcome: outcome_of(verdict_or(fate), end),
    })
}

/// The verdict that was told. A batch ends only where all were.
fn verdict_or(fate: &Option<Verdict>) -> Verdict
    ensures { result ≡ unwrap_or fate.now (Finish false) }
{
    match fate {
        Some(verdict) => *verdict,
        None => Verdict::Finish { raw: false },
    }
}

/// The outcome by the verdict.
fn outcome_of(verdict: Verdict, end: End) -> Outcome
    ensures fate { fate_of result ≡ fate_by_verdict end verdict }
    ensures verdict { verdict_of result ≡ verdict }
{
    match verdict {
        Verdict::Finish { raw } => Outcome::Ended(raw, end),
        Verdict::Wait(cause) => Outcome::Waits(cause),
    }
}
