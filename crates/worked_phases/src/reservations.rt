// What no clause shows: the words of batches worked out by hand. `meetings` has two workers mark at the same
// time, and counts the steps that they tell of.
ghost use Rattle.std.specs.Prelude.{◌≡◌, ◌≤◌, ◌<◌, length, map, IfOk, All};
ghost use Rattle.aria_base.specs.declared.limits.TheConstants.{MOST_WORKERS};
ghost use Rattle.dep_rules.specs.Sheets.{AllBelow};

use crate::checks::holds;
use aria_base::{Free, Memory};
use dep_rules::Numbered;
use resv_phase::reserve;
use std::alloc::Global;
use std::test::Fail;
use std::thread::Threads;

/// From this TID on each request touches one key, its TID times the factor. Keys go round.
#[derive(Clone, Copy, Drop)]
struct Touches {
    from: u32,
    factor: u32,
}

const NOTHING: Touches = Touches {
    from: 10_001,
    factor: 0,
};

/// The key that the request with this TID touches.
fn keys_of(alloc: Global, touches: Touches, tid: u32, keys: u32) -> Result<Vec<u32>, Memory>
    requires tid { tid ≤ 10000 }
    requires factor { touches.factor ≤ 1000 }
    requires keys { 1 ≤ keys }
    ensures { IfOk result (λ list. All (λ k. k < keys) list.items) }
{
    let mut list = Vec::new(alloc);
    if touches.from <= tid {
        list.push(tid * touches.factor % keys)?;
    }
    Ok(list)
}

/// The keys that each of so many requests touches.
fn lists_of(alloc: Global, touches: Touches, count: u32, keys: u32) -> Result<Vec<Vec<u32>>, Memory>
    requires count { count ≤ 10000 }
    requires factor { touches.factor ≤ 1000 }
    requires keys { 1 ≤ keys }
    ensures length { IfOk result (λ all. length all.items ≡ count) }
    ensures below { IfOk result (λ all. AllBelow keys (map (λ v. v.items) all.items)) }
{
    let mut all = Vec::new(alloc);
    for place in 0..count {
        all.push(keys_of(alloc, touches, place + 1, keys)?)?;
    }
    Ok(all)
}

/// So many requests by what they read and write.
fn batch(
    alloc: Global,
    reads: Touches,
    writes: Touches,
    count: u32,
    keys: u32,
) -> Result<Numbered, Memory>
    requires count { count ≤ 10000 }
    requires reads { reads.factor ≤ 1000 }
    requires writes { writes.factor ≤ 1000 }
    requires keys { 1 ≤ keys }
    ensures { IfOk result (λ numbered. numbered.keys ≡ keys) }
{
    let reads = lists_of(alloc, reads, count, keys)?;
    let writes = lists_of(alloc, writes, count, keys)?;
    Ok(Numbered::of(reads, writes, keys))
}

/// The words of ten thousand requests over a hundred keys, so many that five workers mark them: each reads the key of
/// its TID, and writes that of three times its TID.
fn words_by<R: Threads + Sync>(rt: &R, alloc: Global, workers: u32) -> Result<Vec<u64>, Memory>
    requires { (1 ≤ workers) × (workers ≤ MOST_WORKERS) }
{
    let reads = Touches { from: 1, factor: 1 };
    let writes = Touches { from: 1, factor: 3 };
    let batch = batch(alloc, reads, writes, 10_000, 100)?;
    let closed = reserve(rt, alloc, &batch, Vec::new(alloc), 5, workers, &Free)?;
    Ok(closed.into_words())
}

/// The same words, worked out: key k is read first by TID k, and written first by TID 67 * k, the inverse
/// of 3 being 67. TIDs go round with the keys, and key 0 is first touched by TID 100.
fn expected_words(alloc: Global) -> Result<Vec<u64>, Memory> {
    let mut words = vec![in alloc; 5 * 16_384 + 100, 5 * 16_384 + 100]?;
    for key in 1..100_u64 {
        words.push(5 * 16_384 + 67 * key % 100)?;
        words.push(5 * 16_384 + key)?;
    }
    Ok(words)
}

#[test]
fn any_number_of_workers_gives_the_same_words(rt: HostRuntime) -> Result<(), Fail> {
    let expected = expected_words(rt.alloc())?;
    for workers in [1, 2, 7, 64_u32] {
        let words = words_by(&rt, rt.alloc(), workers)?;
        holds(&rt, "the words", workers, words == expected);
    }
    Ok(())
}

#[test]
fn a_mark_stands_before_older_numbers(rt: HostRuntime) -> Result<(), Fail> {
    let alloc = rt.alloc();
    let writes = Touches { from: 2, factor: 0 };
    let batch = batch(alloc, NOTHING, writes, 2, 1)?;
    let old = vec![in alloc; 20_000, 40_000]?;
    let closed = reserve(&rt, alloc, &batch, old, 0, 2, &Free)?;
    let wanted = vec![in alloc; 2, 40_000_u64]?;
    let right = closed.words() == wanted.as_slice();
    holds(&rt, "the words", 0, right);
    Ok(())
}

#[test]
fn without_requests_the_old_numbers_stay(rt: HostRuntime) -> Result<(), Fail> {
    let alloc = rt.alloc();
    let batch = batch(alloc, NOTHING, NOTHING, 0, 1)?;
    let old = vec![in alloc; 20_000]?;
    let closed = reserve(&rt, alloc, &batch, old, 0, 7, &Free)?;
    let wanted = vec![in alloc; 20_000, u64::MAX]?;
    let right = closed.words() == wanted.as_slice();
    holds(&rt, "the words", 0, right);
    Ok(())
}

#[test]
fn the_most_requests_of_one_key(rt: HostRuntime) -> Result<(), Fail> {
    let alloc = rt.alloc();
    let all = Touches { from: 1, factor: 0 };
    let late = Touches {
        from: 10_000,
        factor: 0,
    };
    let batch = batch(alloc, all, late, 10_000, 1)?;
    let closed = reserve(&rt, alloc, &batch, Vec::new(alloc), 1, 4, &Free)?;
    let wanted = vec![in alloc; 16_384 + 10_000, 16_384 + 1_u64]?;
    let right = closed.words() == wanted.as_slice();
    holds(&rt, "the words", 0, right);
    Ok(())
}

#[test]
fn more_workers_than_requests(rt: HostRuntime) -> Result<(), Fail> {
    let alloc = rt.alloc();
    let each = Touches { from: 1, factor: 1 };
    let batch = batch(alloc, each, NOTHING, 3, 3)?;
    let closed = reserve(&rt, alloc, &batch, Vec::new(alloc), 0, 64, &Free)?;
    let wanted = vec![in alloc; u64::MAX, 3, u64::MAX, 1, u64::MAX, 2]?;
    let right = closed.words() == wanted.as_slice();
    holds(&rt, "the words", 0, right);
    Ok(())
}
