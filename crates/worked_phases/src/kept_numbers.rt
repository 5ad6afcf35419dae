// The numbers of one caller alone, and those that are kept from batch to batch: worked out by hand, of keys of every
// kind, by several workers, and of keys that crowd one stretch of the table.
ghost use Rattle.std.specs.Prelude.{◌≤◌, vec_len};
ghost use Rattle.aria_base.specs.declared.limits.TheConstants.{MOST_WORKERS};

use crate::accounts::{account, accounts, holds, sets};
use crate::numbers::{are_lists, lists_of};
use aria_base::{Draws, Key, Keys, Memory, Part, Parts, Txt};
use dep_rules::Sets;
use key_numbering::{Kept, may_be_numbered, number, number_ordered};
use std::alloc::Global;
use std::hash::{BuildHasher, BuildHasherDefault, FoldHasher};
use std::process::Abort;
use std::test::Fail;
use std::thread::Threads;

/// The sets of requests by the accounts that they read and write in turn.
fn sets_of(alloc: Global, requests: &[[&[u32]; 2]]) -> Result<Vec<Sets>, Memory> {
    let mut list = Vec::new(alloc);
    for numbers in requests {
        list.push(sets(alloc, numbers[0], numbers[1])?)?;
    }
    Ok(list)
}

/// The lists by the numbers of these requests alone, which are the same by the order of keys, and how many keys there
/// are.
fn alone(rt: &impl Abort, alloc: Global, sets: &[Sets]) -> Result<(Vec<Vec<u32>>, u32), Fail> {
    if !may_be_numbered(sets) {
        panic!(rt; "too many sets");
    }
    let numbered = number(alloc, sets)?;
    let lists = lists_of(alloc, &numbered)?;
    let by_order = lists_of(alloc, &number_ordered(alloc, sets)?)?;
    holds(rt, "the lists by order", 1, by_order == lists);
    Ok((lists, numbered.keys()))
}

/// The lists by the numbers that are kept, how many keys there are, and what is kept then.
fn kept_on<R: Abort + Threads + Sync>(
    rt: &R,
    alloc: Global,
    kept: Kept,
    sets: &[Sets],
    workers: u32,
) -> Result<(Kept, Vec<Vec<u32>>, u32), Fail>
    requires { (1 ≤ workers) × (workers ≤ MOST_WORKERS) }
{
    if kept.full() || !may_be_numbered(sets) {
        panic!(rt; "too many keys or sets");
    }
    let (kept, numbered) = kept.number(rt, sets, workers)?;
    let lists = lists_of(alloc, &numbered)?;
    Ok((kept, lists, numbered.keys()))
}

/// Asserts that these are the lists of the sets and the count of their keys, alone and where nothing was kept.
fn both_are<R: Abort + Threads + Sync>(
    rt: &R,
    alloc: Global,
    sets: &[Sets],
    wanted: &[&[u32]],
    keys: u32,
) -> Result<(), Fail> {
    let (lists, count) = alone(rt, alloc, sets)?;
    holds(rt, "alone", 1, are_lists(&lists, wanted) && count == keys);
    let (_kept, lists, count) = kept_on(rt, alloc, Kept::new(alloc), sets, 2)?;
    holds(rt, "kept", 2, are_lists(&lists, wanted) && count == keys);
    Ok(())
}

#[test]
fn first_touch_gives_the_next_number(rt: HostRuntime) -> Result<(), Fail> {
    let alloc = rt.alloc();
    let sets = sets_of(alloc, &[[&[5, 3], &[3, 8]], [&[8], &[1, 5]], [&[], &[]]])?;
    let wanted: [&[u32]; 6] = [&[0, 1], &[1, 2], &[2], &[3, 0], &[], &[]];
    both_are(&rt, alloc, &sets, &wanted, 4)
}

#[test]
fn requests_without_keys_have_no_numbers(rt: HostRuntime) -> Result<(), Fail> {
    let alloc = rt.alloc();
    both_are(&rt, alloc, &Vec::new(alloc), &[], 0)?;
    let bare = sets_of(alloc, &[[&[], &[]], [&[], &[]]])?;
    both_are(&rt, alloc, &bare, &[&[], &[], &[], &[]], 0)
}

#[test]
fn kept_keys_keep_their_numbers(rt: HostRuntime) -> Result<(), Fail> {
    let alloc = rt.alloc();
    let batches: [[[&[u32]; 2]; 2]; 3] = [
        [[&[50], &[30]], [&[30, 40], &[]]],
        [[&[70, 30], &[50, 20]], [&[20], &[70]]],
        [[&[20, 40], &[70, 50]], [&[30], &[90]]],
    ];
    let wanted: [([&[u32]; 4], u32); 3] = [
        ([&[0], &[1], &[1, 2], &[]], 3),
        ([&[3, 1], &[0, 4], &[4], &[3]], 5),
        ([&[4, 2], &[3, 0], &[1], &[5]], 6),
    ];
    let mut kept = Kept::new(alloc);
    for (batch, (lists, keys)) in batches.iter().zip(wanted.iter()) {
        let sets = sets_of(alloc, batch)?;
        let (next, found, count) = kept_on(&rt, alloc, kept, &sets, 2)?;
        holds(
            &rt,
            "the lists behind so many keys",
            *keys,
            are_lists(&found, lists) && count == *keys,
        );
        kept = next;
    }
    Ok(())
}

/// None to seven of a thousand accounts.
fn made_up_accounts(alloc: Global, draws: &mut Draws) -> Result<Vec<u32>, Memory> {
    let mut numbers = Vec::new(alloc);
    for _place in 0..draws.word() % 8 {
        numbers.push(draws.word() % 1_000)?;
    }
    Ok(numbers)
}

/// Three hundred requests that read and write such accounts.
fn made_up(alloc: Global, draws: &mut Draws) -> Result<Vec<Sets>, Memory> {
    let mut list = Vec::new(alloc);
    for _place in 0..300 {
        let reads = made_up_accounts(alloc, draws)?;
        let writes = made_up_accounts(alloc, draws)?;
        list.push(sets(alloc, &reads, &writes)?)?;
    }
    Ok(list)
}

/// The lists of two batches, the second by the numbers that the first leaves.
fn two_batches<R: Abort + Threads + Sync>(
    rt: &R,
    alloc: Global,
    first: &[Sets],
    second: &[Sets],
    workers: u32,
) -> Result<(Vec<Vec<u32>>, Vec<Vec<u32>>), Fail>
    requires { (1 ≤ workers) × (workers ≤ MOST_WORKERS) }
{
    let (kept, lists, _keys) = kept_on(rt, alloc, Kept::new(alloc), first, workers)?;
    let (_kept, more, _keys) = kept_on(rt, alloc, kept, second, workers)?;
    Ok((lists, more))
}

#[test]
fn all_workers_give_one_answer(rt: HostRuntime) -> Result<(), Fail> {
    let alloc = rt.alloc();
    let mut draws = Draws::of(16, 1);
    let first = made_up(alloc, &mut draws)?;
    let second = made_up(alloc, &mut draws)?;
    let (wanted, _keys) = alone(&rt, alloc, &first)?;
    let (_lists, then) = two_batches(&rt, alloc, &first, &second, 1)?;
    for workers in [1, 2, 7, 64_u32] {
        let (lists, more) = two_batches(&rt, alloc, &first, &second, workers)?;
        holds(&rt, "the first batch", workers, lists == wanted);
        holds(&rt, "the second batch", workers, more == then);
    }
    Ok(())
}

/// The key with these parts.
fn key(table: u16, parts: Vec<Part>) -> Key
    requires { (1 ≤ vec_len parts) × (vec_len parts ≤ 5) }
{
    let parts = Parts::from_vec(parts);
    Key { table, parts }
}

/// A text as a part.
fn text(alloc: Global, bytes: &[u8]) -> Result<Part, Fail> {
    Ok(Part::Text(Txt::of(alloc, bytes)?))
}

/// Keys with texts, of which the second and the fifth are one, the key of an account, and one of two texts.
fn keys_of_all_kinds(alloc: Global) -> Result<Keys, Fail> {
    let mut keys = Vec::new(alloc);
    for (table, word) in [(0, "1"), (0, "11"), (0, ""), (1, "1"), (0, "11")] {
        let part = text(alloc, word.as_bytes())?;
        keys.push(key(table, vec![in alloc; part]?))?;
    }
    keys.push(account(1))?;
    let parts = vec![in alloc; text(alloc, b"1")?, text(alloc, b"1")?]?;
    keys.push(key(0, parts))?;
    Ok(Keys::from_vec(keys))
}

#[test]
fn keys_of_all_kinds_are_told_apart(rt: HostRuntime) -> Result<(), Fail> {
    let alloc = rt.alloc();
    let reads = keys_of_all_kinds(alloc)?;
    let writes = accounts(alloc, &[1])?;
    let sets = vec![in alloc; Sets { reads, writes }]?;
    both_are(&rt, alloc, &sets, &[&[0, 1, 2, 3, 1, 4, 5], &[4]], 6)
}

/// Three hundred accounts whose keys belong to one of 64 stretches of sixteen groups, by the hash of the table of kept
/// numbers, and so to one where a table has a half of these or fewer. A stretch takes 176.
fn crowd(alloc: Global) -> Result<Vec<u32>, Memory> {
    let hasher = BuildHasherDefault::<FoldHasher>::new();
    let mut found = Vec::new(alloc);
    for number in 0..40_000_u32 {
        let hash = hasher.hash_one(&account(number));
        let word = (hash ^ (hash >> 32)) & 0xFFFF_FFFF;
        if found.len() < 300 && word / 16 % 64 == 0 {
            found.push(number)?;
        }
    }
    Ok(found)
}

#[test]
fn crowded_keys_are_told_apart(rt: HostRuntime) -> Result<(), Fail> {
    let alloc = rt.alloc();
    let numbers = crowd(alloc)?;
    let mut list = Vec::new(alloc);
    list.push(sets(alloc, &numbers, &[])?)?;
    list.push(sets(alloc, &[], &numbers)?)?;
    let (wanted, keys) = alone(&rt, alloc, &list)?;
    holds(&rt, "three hundred keys", keys, keys == 300);
    let (kept, found, count) = kept_on(&rt, alloc, Kept::new(alloc), &list, 1)?;
    holds(&rt, "the first batch", 1, found == wanted && count == 300);
    let (_kept, again, count) = kept_on(&rt, alloc, kept, &list, 1)?;
    holds(&rt, "the second batch", 2, again == wanted && count == 300);
    Ok(())
}
