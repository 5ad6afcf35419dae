// That the workers' numbers are those of one caller alone, also where searches are long or keys are hot.
ghost use Rattle.std.specs.Prelude.{◌≤◌};
ghost use Rattle.aria_base.specs.declared.limits.TheConstants.{MOST_WORKERS};

use crate::checks::holds;
use aria_base::{Key, Keys, Memory, Part, Parts};
use dep_rules::{Numbered, Sets};
use key_numbering::{may_be_numbered, number};
use std::alloc::Global;
use std::hash::{BuildHasher, BuildHasherDefault, FoldHasher};
use std::process::Abort;
use std::test::Fail;
use std::thread::Threads;
use touch_numbers::number_by;

/// The keys with these numbers for their parts.
fn keys(alloc: Global, numbers: &[u32]) -> Result<Keys, Memory> {
    let mut keys = Vec::new(alloc);
    for &number in numbers {
        keys.push(Key {
            table: 0,
            parts: Parts::one(Part::Int(i64::from(number))),
        })?;
    }
    Ok(Keys::from_vec(keys))
}

/// The sets of a request by the keys that it reads and writes.
fn request(alloc: Global, reads: &[u32], writes: &[u32]) -> Result<Sets, Memory> {
    Ok(Sets {
        reads: keys(alloc, reads)?,
        writes: keys(alloc, writes)?,
    })
}

#[test]
fn a_key_has_its_place_in_order_of_first_touch(rt: HostRuntime) -> Result<(), Fail> {
    let alloc = rt.alloc();
    let mut sets = Vec::new(alloc);
    sets.push(request(alloc, &[7, 3], &[3])?)?;
    sets.push(request(alloc, &[3, 9], &[7, 8])?)?;
    if !may_be_numbered(&sets) {
        panic!(&rt; "too many sets");
    }
    let numbered = number_by(&rt, alloc, &sets, 1)?;
    let lists = lists_of(alloc, &numbered)?;
    let right = are_lists(&lists, &[&[0, 1], &[1], &[1, 2], &[0, 3]]);
    holds(&rt, "the lists", 1, right);
    holds(&rt, "the keys", 1, numbered.keys() == 4);
    Ok(())
}

/// Whether these are the lists.
pub fn are_lists(found: &[Vec<u32>], wanted: &[&[u32]]) -> bool {
    found.len() == wanted.len()
        && found
            .iter()
            .zip(wanted.iter())
            .all(|(list, other)| list.as_slice() == *other)
}

/// The number that stands for the key, where it begins its search among the first slots.
fn first_slots(alloc: Global, count: usize) -> Result<Vec<u32>, Memory> {
    let hasher = BuildHasherDefault::<FoldHasher>::new();
    let mut found = Vec::new(alloc);
    for number in 0..1_000_000_u32 {
        let key = Key {
            table: 0,
            parts: Parts::one(Part::Int(i64::from(number))),
        };
        if found.len() < count && (hasher.hash_one(&key) & 0xFFFF_FFFF) < 0x0400_0000 {
            found.push(number)?;
        }
    }
    Ok(found)
}

/// The lists of all requests, their reads and their writes in turn.
pub fn lists_of(alloc: Global, numbered: &Numbered) -> Result<Vec<Vec<u32>>, Memory> {
    let mut lists = Vec::new(alloc);
    for tid in 1..=numbered.len() {
        lists.push(copy(alloc, numbered.reads_of(tid))?)?;
        lists.push(copy(alloc, numbered.writes_of(tid))?)?;
    }
    Ok(lists)
}

/// An equal list.
fn copy(alloc: Global, list: &[u32]) -> Result<Vec<u32>, Memory> {
    let mut copy = Vec::new(alloc);
    copy.extend_from_slice(list)?;
    Ok(copy)
}

/// How many keys these sets touch, where the workers give the numbers that one caller alone gives.
fn keys_of_both<R: Abort + Threads + Sync>(
    rt: &R,
    alloc: Global,
    sets: &[Sets],
    workers: u32,
) -> Result<u32, Fail>
    requires { (1 ≤ workers) × (workers ≤ MOST_WORKERS) }
{
    if !may_be_numbered(sets) {
        panic!(rt; "too many sets");
    }
    let alone = number(alloc, sets)?;
    let numbered = number_by(rt, alloc, sets, workers)?;
    let wanted = lists_of(alloc, &alone)?;
    let found = lists_of(alloc, &numbered)?;
    holds(rt, "the lists", workers, found == wanted);
    Ok(numbered.keys())
}

/// Keys that begin their searches at neighbouring slots are numbered all the same.
#[test]
fn a_crowd_is_numbered(rt: HostRuntime) -> Result<(), Fail> {
    let alloc = rt.alloc();
    let crowd = first_slots(alloc, 200)?;
    let mut sets = Vec::new(alloc);
    sets.push(request(alloc, &crowd, &[])?)?;
    sets.push(request(alloc, &[], &crowd)?)?;
    let keys = keys_of_both(&rt, alloc, &sets, 2)?;
    holds(&rt, "two hundred keys", 2, keys == 200);
    Ok(())
}

/// So many requests that four workers number them, who all touch the same ten keys, each request five, so
/// that the workers' parts begin and end inside requests.
fn hot(alloc: Global) -> Result<Vec<Sets>, Memory> {
    let mut sets = Vec::new(alloc);
    for place in 0..1_100_u32 {
        let reads = [place % 7, place % 3, place % 2];
        let writes = [9 - place % 10, place % 5];
        sets.push(request(alloc, &reads, &writes)?)?;
    }
    Ok(sets)
}

#[test]
fn hot_keys_have_the_numbers_of_one_caller(rt: HostRuntime) -> Result<(), Fail> {
    let alloc = rt.alloc();
    let sets = hot(alloc)?;
    let keys = keys_of_both(&rt, alloc, &sets, 4)?;
    holds(&rt, "ten keys", 4, keys == 10);
    Ok(())
}
