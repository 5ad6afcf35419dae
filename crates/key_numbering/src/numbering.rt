// The numbers of a batch's keys.
ghost use Rattle.std.specs.Prelude.{◌≡◌, ◌≤◌, ◌<◌, ◌↔◌, [], All, IsTrue, IfOk, OnOk, length, map};
ghost use Rattle.std.specs.FinMap as fin;
ghost use Rattle.std.specs.List.{sum_by};
ghost use Rattle.aria_base.specs.declared.limits.TheConstants.{MOST_REQUESTS, MOST_WORKERS};
ghost use Rattle.aria_base.specs.Orders.{key_cmp};
ghost use Rattle.batch_rules.specs.Numberings.{IsOneToOneOn};
ghost use Rattle.dep_rules.specs.Decisions.{reads_of, writes_of};
ghost use Rattle.dep_rules.specs.Numberings.{IsNumbered};
ghost use Rattle.work_crew.specs.Gathered.{AreGiven};
ghost use Rattle.key_numbering.specs.Lookups.{IsFoundAt, HasPlaces, HasBothPlaces, shown, settled, settled_by, settled_one, settled_all};
ghost use Rattle.key_numbering.specs.Numbers.{AreNumbers, Keeps, number_in, numbers_of, touch_count, with_sets};
ghost use Rattle.key_numbering.specs.declared.kept.TheConstants.{MOST_KEPT, MOST_KEYS, MOST_TOUCHED};

use crate::kept::{Kept, MOST_TOUCHED};
use crate::lookups::{Found, LookUps, Looked, Unknown, find};
use aria_base::{Free, MOST_REQUESTS, Memory};
use dep_rules::{Numbered, Sets};
use std::alloc::Global;
use std::thread::Threads;
use work_crew::gather;

/// Whether these sets may be numbered: there are no more of them than a batch has requests, and they
/// name keys no more often than a batch touches keys. No memory.
pub fn may_be_numbered(sets: &[Sets]) -> bool
    ensures exact { IsTrue result ↔ ((length sets.now ≤ MOST_REQUESTS) × (sum_by touch_count sets.now ≤ MOST_TOUCHED)) }
    ensures touched { IsTrue result → fin.len (numbers_of sets.now) ≤ MOST_TOUCHED }
{
    let mut touched = 0_usize;
    for set in sets {
        let both = set.reads.as_slice().len() + set.writes.as_slice().len();
        touched = touched.saturating_add(both);
    }
    sets.len() <= MOST_REQUESTS && touched <= MOST_TOUCHED as usize
}

/// The sets by numbers in the place of keys. A key's number is its place among the keys of all sets in
/// order of first touch, where a request reads before it writes: the numbers are those below the count
/// of these keys, each of one key.
pub fn number(alloc: Global, sets: &[Sets]) -> Result<Numbered, Memory>
    requires count { length sets.now ≤ MOST_REQUESTS }
    requires touched { fin.len (numbers_of sets.now) ≤ MOST_TOUCHED }
    ensures lists { IfOk result (IsNumbered key_cmp reads_of writes_of (fin.keys (numbers_of sets.now)) (number_in (numbers_of sets.now)) sets.now) }
    ensures keys { IfOk result (λ n. n.keys ≡ fin.len (numbers_of sets.now)) }
    ensures one_to_one { IfOk result (λ _. IsOneToOneOn key_cmp (fin.keys (numbers_of sets.now)) (number_in (numbers_of sets.now))) }
    ensures numbers { IfOk result (λ _. AreNumbers (numbers_of sets.now)) }
{
    number_from(alloc, Kept::new(alloc), sets)
}

/// The same, by the order of keys alone. It takes longer than [`number`], and no choice of keys makes it
/// slower than another.
pub fn number_ordered(alloc: Global, sets: &[Sets]) -> Result<Numbered, Memory>
    requires count { length sets.now ≤ MOST_REQUESTS }
    requires touched { fin.len (numbers_of sets.now) ≤ MOST_TOUCHED }
    ensures lists { IfOk result (IsNumbered key_cmp reads_of writes_of (fin.keys (numbers_of sets.now)) (number_in (numbers_of sets.now)) sets.now) }
    ensures keys { IfOk result (λ n. n.keys ≡ fin.len (numbers_of sets.now)) }
    ensures one_to_one { IfOk result (λ _. IsOneToOneOn key_cmp (fin.keys (numbers_of sets.now)) (number_in (numbers_of sets.now))) }
    ensures numbers { IfOk result (λ _. AreNumbers (numbers_of sets.now)) }
{
    number_from(alloc, Kept::with(alloc, true), sets)
}

/// The same, where this has no keys yet.
fn number_from(alloc: Global, kept: Kept, sets: &[Sets]) -> Result<Numbered, Memory>
    requires none { kept ≡ fin.empty }
    requires count { length sets.now ≤ MOST_REQUESTS }
    requires touched { fin.len (numbers_of sets.now) ≤ MOST_TOUCHED }
    ensures lists { IfOk result (IsNumbered key_cmp reads_of writes_of (fin.keys (numbers_of sets.now)) (number_in (numbers_of sets.now)) sets.now) }
    ensures keys { IfOk result (λ n. n.keys ≡ fin.len (numbers_of sets.now)) }
    ensures one_to_one { IfOk result (λ _. IsOneToOneOn key_cmp (fin.keys (numbers_of sets.now)) (number_in (numbers_of sets.now))) }
    ensures numbers { IfOk result (λ _. AreNumbers (numbers_of sets.now)) }
{
    let all = find_all(alloc, &kept, sets)?;
    let (_kept, numbered) = numbered(kept, sets, all)?;
    Ok(numbered)
}

/// Looks up the keys of all requests.
fn find_all<'a>(alloc: Global, kept: &Kept, sets: &'a [Sets]) -> Result<Vec<Found<'a>>, Memory>
    ensures { IfOk result (λ all. AreGiven (IsFoundAt kept.now sets.now) (length sets.now) all.items) }
{
    let mut all = Vec::with_capacity(alloc, sets.len())?;
    for set in sets {
        all.push(find(alloc, kept, set)?)?;
    }
    Ok(all)
}

impl Kept {
    /// The sets by numbers in the place of keys, and the keys with those of the sets. A kept key keeps its
    /// number; new ones get the next numbers in order of first touch, where a request reads before it
    /// writes. At most 1,000,000 keys are kept before, and at most 10,000 sets touch at most 2,560,000 keys.
    /// An error: there was no memory, and the kept keys are gone.
    ///
    /// The workers, from 1 to 64, look the kept keys up at once, and what they find is moved into the
    /// answer: where all keys are kept, none is looked at again. No more threads are started than there are
    /// sets, and none for one worker; where one cannot be started, the worker that was to start it does its
    /// part.
    pub fn number<R: Threads + Sync>(
        self,
        rt: &R,
        sets: &[Sets],
        workers: u32,
    ) -> Result<(Kept, Numbered), Memory>
        requires not_full { fin.len self ≤ MOST_KEPT }
        requires count { length sets.now ≤ MOST_REQUESTS }
        requires touched { fin.len (numbers_of sets.now) ≤ MOST_TOUCHED }
        requires workers { (1 ≤ workers) × (workers ≤ MOST_WORKERS) }
        ensures kept { IfOk result (λ r. r.0 ≡ with_sets self sets.now) }
        ensures lists { IfOk result (λ r. IsNumbered key_cmp reads_of writes_of (fin.keys r.0) (number_in r.0) sets.now r.1) }
        ensures keys { IfOk result (λ r. r.1.keys ≡ fin.len r.0) }
        ensures one_to_one { IfOk result (λ r. IsOneToOneOn key_cmp (fin.keys r.0) (number_in r.0)) }
        ensures numbers { IfOk result (λ r. AreNumbers r.0) }
        ensures keeps { IfOk result (λ r. Keeps self r.0) }
    {
        let alloc = self.allocator();
        let look_ups = LookUps::of(alloc, &self, sets);
        let all = gather(rt, alloc, &look_ups, workers, &Free)?;
        numbered(self, sets, all)
    }
}

/// The sets by numbers, from what was looked up of them, and the keys with theirs.
fn numbered(mut kept: Kept, sets: &[Sets], all: Vec<Found>) -> Result<(Kept, Numbered), Memory>
    requires found { AreGiven (IsFoundAt kept sets.now) (length sets.now) all.items }
    requires count { length sets.now ≤ MOST_REQUESTS }
    requires room { fin.len (with_sets kept sets.now) ≤ MOST_KEYS }
    ensures kept { IfOk result (λ r. r.0 ≡ with_sets kept sets.now) }
    ensures lists { IfOk result (λ r. IsNumbered key_cmp reads_of writes_of (fin.keys r.0) (number_in r.0) sets.now r.1) }
    ensures keys { IfOk result (λ r. r.1.keys ≡ fin.len r.0) }
    ensures one_to_one { IfOk result (λ r. IsOneToOneOn key_cmp (fin.keys r.0) (number_in r.0)) }
    ensures numbers { IfOk result (λ r. AreNumbers r.0) }
    ensures keeps { IfOk result (λ r. Keeps kept r.0) }
{
    let (reads, writes) = settle_all(&mut kept, sets.len(), all)?;
    let keys = kept.len();
    Ok((kept, Numbered::of(reads, writes, keys)))
}

/// The lists of so many requests from what was looked up, one request after the other.
fn settle_all(
    kept: &mut Kept,
    count: usize,
    all: Vec<Found>,
) -> Result<(Vec<Vec<u32>>, Vec<Vec<u32>>), Memory>
    requires places { All HasBothPlaces all.items }
    requires count { fin.len (settled_all (kept.old, ([], [])) all.items).0 ≤ MOST_KEYS }
    ensures { IfOk result (λ lists. (kept.new, (map (λ v. v.items) lists.0.items, map (λ v. v.items) lists.1.items)) ≡ settled_all (kept.old, ([], [])) all.entry.items) }
{
    let alloc = kept.allocator();
    let mut reads = Vec::with_capacity(alloc, count)?;
    let mut writes = Vec::with_capacity(alloc, count)?;
    for found in all {
        settle_both(kept, found, &mut reads, &mut writes)?;
    }
    Ok((reads, writes))
}

/// The two lists of one request more.
fn settle_both(
    kept: &mut Kept,
    found: Found,
    reads: &mut Vec<Vec<u32>>,
    writes: &mut Vec<Vec<u32>>,
) -> Result<(), Memory>
    requires places { HasBothPlaces found }
    requires count { fin.len (settled_one (kept.old, ([], [])) found).0 ≤ MOST_KEYS }
    ensures { OnOk result ((kept.new, (map (λ v. v.items) reads.new.items, map (λ v. v.items) writes.new.items))
        ≡ settled_one (kept.old, (map (λ v. v.items) reads.old.items, map (λ v. v.items) writes.old.items)) found.entry) }
{
    let Found {
        reads: looked_reads,
        writes: looked_writes,
    } = found;
    reads.push(settle(kept, looked_reads)?)?;
    writes.push(settle(kept, looked_writes)?)?;
    Ok(())
}

/// The list from what was looked up: a key that had no number then gets the next one, if it has none
/// yet.
fn settle(kept: &mut Kept, looked: Looked) -> Result<Vec<u32>, Memory>
    requires places { HasPlaces looked }
    requires count { fin.len (settled_by kept.old looked).0 ≤ MOST_KEYS }
    ensures { IfOk result (λ numbers. (kept.new, numbers.items) ≡ settled_by kept.old looked.entry) }
{
    let Looked {
        mut numbers,
        unknown,
    } = looked;
    settle_unknown(kept, &mut numbers, &unknown)?;
    Ok(numbers)
}

/// Puts the numbers of unknown keys to their places.
fn settle_unknown(
    kept: &mut Kept,
    numbers: &mut Vec<u32>,
    unknown: &[Unknown],
) -> Result<(), Memory>
    requires places { All (λ u. u.place < length numbers.old.items) unknown.now }
    requires count { fin.len (settled (kept.old, numbers.old.items) (shown unknown.now)).0 ≤ MOST_KEYS }
    ensures { OnOk result ((kept.new, numbers.new.items) ≡ settled (kept.old, numbers.old.items) (shown unknown.now)) }
{
    for one in unknown {
        let number = kept.number_of(one.key)?;
        numbers[one.place] = number;
    }
    Ok(())
}
