// What the runs of a batch touched, keys and prefixes beside each other.
ghost use Rattle.std.specs.Prelude.{◌≡◌, ◌≤◌, ◌++◌, map, length, IfOk, OnOk};
ghost use Rattle.aria_base.specs.declared.limits.TheConstants.{MOST_REQUESTS, MOST_WORKERS};
ghost use Rattle.batch_rules.specs.Touches.{keys_of};
ghost use Rattle.range_marks.specs.Marks.{sets_with};
ghost use Rattle.range_runs.specs.Marks.{mark_of};

use crate::marks::marks_on;
use aria_base::{Duplicate, Free, Items, Key, Memory, Place, Row};
use dep_rules::Sets;
use range_rules::{Prefix, Ran};
use range_runs::{Index, mark_of};
use std::alloc::Global;
use std::thread::Threads;
use work_crew::{Task, gather, workers_for};

/// To start a thread takes longer than to find what so many works touched.
const LEAST_A_WORKER: usize = 64;

/// The runs of a batch, and the marks of the prefixes that they scanned.
#[derive(Drop)]
struct Touching<'a> {
    alloc: Global,
    scanned: &'a Index,
    rans: &'a [Ran],
    count: u32,
    ghost counted: { count ≡ length rans.now },
}

impl<'a> Task for Touching<'a> {
    ghost use Rattle.std.specs.Prelude.{◌≡◌, length, slice_index_or};
    ghost use Rattle.range_rules.specs.declared.routines.Ran.{Ran as Run};
    ghost use Rattle.range_marks.specs.Marks.{sets_with};

    type Output = Sets;

    ghost count = { λ t. length t.rans.now };

    ghost gives = { λ t place sets. (d : Run) → sets ≡ sets_with t.scanned.now (slice_index_or t.rans.now place d) };

    fn len(&self) -> u32 {
        self.count
    }

    fn step(&self) -> Place {
        Place::Mark
    }

    fn run(&self, place: u32) -> Result<Sets, Memory> {
        touched(self.alloc, self.scanned, &self.rans[place as usize])
    }
}

/// What each run touched, in the order of the list, by workers. For a small batch fewer of them are at work.
pub(crate) fn touched_by_all<T: Threads + Sync>(
    rt: &T,
    alloc: Global,
    scanned: &Index,
    rans: &[Ran],
    workers: u32,
) -> Result<Vec<Sets>, Memory>
    requires list { length rans.now ≤ MOST_REQUESTS }
    requires workers { (1 ≤ workers) × (workers ≤ MOST_WORKERS) }
    ensures { IfOk result (λ all. all.items ≡ map (sets_with scanned.now) rans.now) }
{
    let touching = Touching {
        alloc,
        scanned,
        rans,
        count: rans.len() as u32,
    };
    let workers = workers_for(rans.len(), LEAST_A_WORKER, workers);
    gather(rt, alloc, &touching, workers, &Free)
}

/// What a run touched: what it scanned stands behind what it read, and what it marks behind what it wrote.
fn touched(alloc: Global, scanned: &Index, ran: &Ran) -> Result<Sets, Memory>
    ensures { IfOk result (λ sets. sets ≡ sets_with scanned.now ran.now) }
{
    let mut reads = ran.reads.duplicate(alloc)?.into_vec();
    append_prefixes(alloc, &mut reads, ran.scans.as_slice())?;
    let writes = ran.writes.as_slice();
    let mut marked = keys_written(alloc, writes)?;
    let mut marks = marks_on(alloc, scanned, writes)?;
    marked.append(&mut marks)?;
    Ok(Sets {
        reads: Items::from_vec(reads),
        writes: Items::from_vec(marked),
    })
}

/// Appends the marks of prefixes.
fn append_prefixes(alloc: Global, keys: &mut Vec<Key>, prefixes: &[Prefix]) -> Result<(), Memory>
    ensures { OnOk result (keys.new.items ≡ keys.old.items ++ map mark_of prefixes.now) }
{
    for prefix in prefixes {
        keys.push(mark_of(alloc, prefix)?)?;
    }
    Ok(())
}

/// The keys of these writes.
fn keys_written(alloc: Global, writes: &[(Key, Option<Row>)]) -> Result<Vec<Key>, Memory>
    ensures { IfOk result (λ keys. keys.items ≡ keys_of writes.now) }
{
    let mut keys = Vec::with_capacity(alloc, writes.len())?;
    for write in writes {
        keys.push(write.0.duplicate(alloc)?)?;
    }
    Ok(keys)
}

/// How many keys each run wrote.
pub(crate) fn counts_of(alloc: Global, rans: &[Ran]) -> Result<Vec<usize>, Memory>
    ensures { IfOk result (λ counts. counts.items ≡ map (λ ran. length ran.writes) rans.now) }
{
    let mut counts = Vec::with_capacity(alloc, rans.len())?;
    for ran in rans {
        counts.push(ran.writes.as_slice().len())?;
    }
    Ok(counts)
}
