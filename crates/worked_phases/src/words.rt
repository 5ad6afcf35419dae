// Marks by several threads and their words, against a fold over the same marks.
ghost use Rattle.std.specs.Prelude.{◌≡◌, ◌+◌, ◌<◌, ◌≤◌, length, IfOk};
ghost use Rattle.std.specs.Thread.{IsSync};
ghost use Rattle.aria_base.specs.declared.limits.TheConstants.{MOST_WORKERS};

use crate::checks::holds;
use aria_base::Memory;
use resv_words::{Closed, WordSeat, Words};
use std::alloc::Global;
use std::test::Fail;
use std::thread::{Threads, join};

const KEYS: u32 = 2_000;

const MARKED_TAG: u64 = 77;

// The TID by which a worker writes a key, or reads it where the stride is another.
fn tid_of(worker: u32, key: u32, stride: u32) -> u32
    requires worker { worker < MOST_WORKERS }
    requires key { key < KEYS }
    requires stride { stride < 1000 }
    ensures { (1 ≤ result) × (result ≤ 10000) }
{
    1 + (worker * stride + key * 7) % 10_000
}

// Marks every key, upwards or downwards.
fn mark_all(words: &Words, mut seat: WordSeat, worker: u32) -> WordSeat
    requires own { seat.table ≡ words.now.table }
    requires keys { words.now.keys ≡ KEYS }
    requires worker { worker < MOST_WORKERS }
    ensures { (result.table ≡ seat.table) × (result.share ≡ seat.share) }
{
    for step in 0..KEYS {
        let key = if worker % 2 == 0 {
            step
        } else {
            KEYS - 1 - step
        };
        words.mark_write(&mut seat, tid_of(worker, key, 997), key);
        words.mark_read(&mut seat, tid_of(worker, key, 61), key);
    }
    seat
}

// Marks by the workers from 0 to `last`, each in a thread of its own.
fn mark_by<R: Threads + Sync>(
    rt: &R,
    words: &Words,
    mut seat: WordSeat,
    last: u32,
) -> Result<WordSeat, Memory>
    requires own { seat.table ≡ words.now.table }
    requires keys { words.now.keys ≡ KEYS }
    requires worker { last < MOST_WORKERS }
    requires share { last < seat.share }
    ensures { IfOk result (λ all. (all.table ≡ seat.table) × (all.share ≡ seat.share)) }
{
    if last == 0 {
        return Ok(mark_all(words, seat, 0));
    }
    let fewer = last - 1;
    let other = words.split(&mut seat)?;
    let (other, seat) = join(
        rt,
        move || mark_all(words, other, last),
        move || -> Result<WordSeat, Memory>
            requires { IsSync R.row × (seat.table ≡ words.now.table) × (words.now.keys ≡ KEYS) × (fewer < 63) × (fewer < seat.share) }
            ensures { IfOk result (λ all. (all.table ≡ seat.table) × (all.share ≡ seat.share)) }
        { mark_by(rt, words, seat, fewer) },
    );
    let mut seat = seat?;
    words.join(&mut seat, other);
    Ok(seat)
}

// The words of the same marks, each folded in after the others.
fn folded(alloc: Global, workers: u32) -> Result<Vec<u64>, Memory>
    requires { workers ≤ MOST_WORKERS }
{
    let mut words = Vec::from_elem(alloc, u64::MAX, 2 * KEYS as usize)?;
    for worker in 0..workers {
        for key in 0..KEYS {
            let place = 2 * key as usize;
            let write = MARKED_TAG * 16_384 + u64::from(tid_of(worker, key, 997));
            let read = MARKED_TAG * 16_384 + u64::from(tid_of(worker, key, 61));
            words[place] = words[place].min(write);
            words[place + 1] = words[place + 1].min(read);
        }
    }
    Ok(words)
}

fn close_after<R: Threads + Sync>(rt: &R, alloc: Global, workers: u32) -> Result<Closed, Memory>
    requires { (1 ≤ workers) × (workers ≤ MOST_WORKERS) }
{
    let (words, seat) = Words::over(alloc, Vec::new(alloc), KEYS, MARKED_TAG)?;
    let seat = mark_by(rt, &words, seat, workers - 1)?;
    words.close(seat)
}

#[test]
fn any_number_of_seats_gives_the_words_of_a_fold(rt: HostRuntime) -> Result<(), Fail> {
    for workers in [1, 2, 7, 64] {
        let closed = close_after(&rt, rt.alloc(), workers)?;
        let expected = folded(rt.alloc(), workers)?;
        let right = closed.words() == expected.as_slice();
        holds(&rt, "the words", workers, right);
        holds(&rt, "the tag", workers, closed.tag() == MARKED_TAG);
    }
    Ok(())
}

#[test]
fn a_mark_stands_before_older_numbers(rt: HostRuntime) -> Result<(), Fail> {
    let old = vec![in rt.alloc(); 20_000, 40_000]?;
    let (words, mut seat) = Words::over(rt.alloc(), old, 1, 0)?;
    words.mark_write(&mut seat, 2, 0);
    let closed = words.close(seat)?;
    let right = closed.words() == [2, 40_000].as_slice();
    holds(&rt, "the words", 1, right);
    Ok(())
}

#[test]
fn without_marks_the_old_numbers_stay(rt: HostRuntime) -> Result<(), Fail> {
    let old = vec![in rt.alloc(); 20_000]?;
    let (words, seat) = Words::over(rt.alloc(), old, 2, 0)?;
    let closed = words.close(seat)?;
    let right = closed.words() == [20_000, u64::MAX, u64::MAX, u64::MAX].as_slice();
    holds(&rt, "the words", 0, right);
    Ok(())
}

#[test]
fn without_keys_there_are_no_words(rt: HostRuntime) -> Result<(), Fail> {
    let (words, mut seat) = Words::over(rt.alloc(), Vec::new(rt.alloc()), 0, 5)?;
    let other = words.split(&mut seat)?;
    words.join(&mut seat, other);
    let closed = words.close(seat)?;
    holds(&rt, "no words", 0, closed.words().is_empty());
    Ok(())
}

#[test]
fn words_of_one_batch_are_old_in_the_next(rt: HostRuntime) -> Result<(), Fail> {
    let (words, mut seat) = Words::over(rt.alloc(), Vec::new(rt.alloc()), 1, 9)?;
    words.mark_write(&mut seat, 3, 0);
    let last = words.close(seat)?;
    let (words, mut seat) = Words::over(rt.alloc(), last.into_words(), 2, 8)?;
    words.mark_read(&mut seat, 7, 0);
    words.mark_read(&mut seat, 4, 0);
    words.mark_read(&mut seat, 4, 1);
    let closed = words.close(seat)?;
    let read = 8 * 16_384 + 4;
    let right = closed.words() == [9 * 16_384 + 3, read, u64::MAX, read].as_slice();
    holds(&rt, "the words", 2, right);
    Ok(())
}

/// Whether the first word and the last one of two for each of the most keys are these, and no other is marked.
fn are_marked(words: &[u64], first: u64, last: u64) -> bool {
    let [begin, between @ .., end] = words else {
        return false;
    };
    *begin == first
        && *end == last
        && between.len() == 7_119_998
        && between.iter().all(|&word| word == u64::MAX)
}

#[test]
fn the_most_keys_and_the_greatest_tag(rt: HostRuntime) -> Result<(), Fail> {
    let tag = (1 << 49) - 1;
    let (words, mut seat) = Words::over(rt.alloc(), Vec::new(rt.alloc()), 3_560_000, tag)?;
    words.mark_write(&mut seat, 10_000, 0);
    words.mark_read(&mut seat, 1, 3_559_999);
    let words = words.close(seat)?.into_words();
    let right = are_marked(&words, tag * 16_384 + 10_000, tag * 16_384 + 1);
    holds(&rt, "the first and the last word", 0, right);
    Ok(())
}
