// The verdict of one request, by keys and by reservation words.
ghost use Rattle.std.specs.Prelude.{◌≡◌, ◌≤◌, ◌<◌, ◌+◌, ◌-◌, ◌*◌, ◌^◌, length, take, All, IfSome, None};
ghost use Rattle.std.specs.List.{slice_get};
ghost use Rattle.std.specs.Ordering.{nat_cmp};
ghost use Rattle.aria_base.specs.Orders.{key_cmp};
ghost use Rattle.aria_base.specs.Reserved.{tid_under};
ghost use Rattle.aria_base.specs.declared.limits.TheConstants.{TAGS};
ghost use Rattle.batch_rules.specs.Verdicts.{meets, least, verdict, verdict_by};
ghost use Rattle.dep_rules.specs.Decisions.{reads_of, writes_of, side_of};
ghost use Rattle.dep_rules.specs.Sheets.{IsTid, reads_at, writes_at};
ghost use Rattle.dep_rules.specs.Words.{Tell, tids_before, earlier_only, lesser, least_of, told};

use crate::numberings::Numbered;
use crate::sets::Sets;
use aria_base::{Keys, TAG_SPAN, contains_key};
use batch_rules::verdicts::{Cause, Rule, Verdict};

/// One of the two sets of a request, and of the two words of a key: reads, or writes.
#[derive(Clone, Copy, PartialEq, Eq)]
enum Side {
    Reads,
    Writes,
}

/// What the commit phase decides of the request at place `tid` of the list, from 1, by comparing its
/// keys with those of every earlier request, waiting ones included. It takes no memory.
///
/// Under `Plain` a request waits where an earlier one writes a key that it writes or reads. Under
/// `Reorder` it waits where an earlier one writes a key that it writes, or where an earlier one
/// writes a key that it reads and an earlier one reads a key that it writes.
pub fn decide_listed(sets: &[Sets], tid: u32, rule: Rule) -> Verdict
    requires first { 1 ≤ tid }
    requires last { tid ≤ length sets.now }
    ensures { IfSome (slice_get sets.now (tid - 1)) (λ me.
        result ≡ verdict key_cmp reads_of writes_of rule (take (tid - 1) sets.now) me) }
{
    let place = tid as usize - 1;
    let me = &sets[place];
    let earlier = &sets[..place];
    let waw = least_meeting(&me.writes, earlier, Side::Writes);
    let raw = least_meeting(&me.reads, earlier, Side::Writes);
    let war = least_meeting(&me.writes, earlier, Side::Reads);
    decided(rule, waw, raw, war)
}

/// What the commit phase decides of the request with this TID, by the words of its keys: what
/// [`decide_listed`] decides of it, in time that grows with its own keys alone. It takes no memory.
///
/// Under the tag each word stands for the least request that writes its key, or that reads it, and for
/// none where no request does. The request's own marks count for nothing, since its TID is not below
/// itself.
pub fn decide(numbered: &Numbered, words: &[u64], tag: u64, tid: u32, rule: Rule) -> Verdict
    requires tid { IsTid numbered.now tid }
    requires tag { tag < TAGS }
    requires words { Tell numbered.now tag words.now }
    ensures { result ≡ verdict nat_cmp (reads_at numbered.now) (writes_at numbered.now) rule (tids_before tid) tid }
{
    let reads = numbered.reads_of(tid);
    let writes = numbered.writes_of(tid);
    let waw = least_before(words, tag, writes, Side::Writes, tid);
    let raw = least_before(words, tag, reads, Side::Writes, tid);
    let war = least_before(words, tag, writes, Side::Reads, tid);
    decided(rule, waw, raw, war)
}

/// The verdict by the least request of each dependency. No memory.
pub fn decided(rule: Rule, waw: Option<u32>, raw: Option<u32>, war: Option<u32>) -> Verdict
    ensures { result ≡ verdict_by rule waw raw war }
{
    match (rule, waw, raw, war) {
        (_, Some(waw), _, _) => Verdict::Wait(Cause::Waw(waw)),
        (Rule::Plain, None, Some(raw), _) => Verdict::Wait(Cause::Raw(raw)),
        (Rule::Reorder, None, Some(raw), Some(war)) => Verdict::Wait(Cause::Both(raw, war)),
        (Rule::Reorder, None, Some(_), None) => Verdict::Finish { raw: true },
        (_, None, None, _) => Verdict::Finish { raw: false },
    }
}

/// The place, from 1, of the first of these requests whose keys of that side meet the given ones.
fn least_meeting(keys: &Keys, earlier: &[Sets], side: Side) -> Option<u32>
    requires { length earlier.now < 2 ^ 32 }
    ensures { result ≡ least (λ other. meets key_cmp keys.now (side_of side other)) earlier.now }
{
    let mut tid = 0;
    for other in earlier {
        tid += 1;
        let others = match side {
            Side::Reads => &other.reads,
            Side::Writes => &other.writes,
        };
        if meet(keys, others) {
            return Some(tid);
        }
    }
    None
}

/// Whether the two lists have a common key.
fn meet(keys: &Keys, others: &Keys) -> bool
    ensures { result ≡ meets key_cmp keys.now others.now }
{
    keys.as_slice()
        .iter()
        .any(|key| contains_key(others.as_slice(), key))
}

/// The least TID below `tid` that the words of these keys stand for on this side.
fn least_before(words: &[u64], tag: u64, keys: &[u32], side: Side, tid: u32) -> Option<u32>
    requires { All (λ k. 2 * k + 1 < length words.now) keys.now }
    ensures { result ≡ least_of (told words.now tag side tid) None keys.now }
{
    let mut least = None;
    for &key in keys {
        let word = match side {
            Side::Reads => words[2 * key as usize + 1],
            Side::Writes => words[2 * key as usize],
        };
        least = lesser_of(least, stands_before(word, tag, tid));
    }
    least
}

/// The TID that a word stands for under the tag, where it is below `tid`. No memory.
pub fn stands_before(word: u64, tag: u64, tid: u32) -> Option<u32>
    ensures { result ≡ earlier_only tid (tid_under tag word) }
{
    if word / TAG_SPAN != tag {
        return None;
    }
    let other = (word % TAG_SPAN) as u32;
    if other < tid { Some(other) } else { None }
}

/// The lesser TID of the two, where there is one. No memory.
pub fn lesser_of(least: Option<u32>, other: Option<u32>) -> Option<u32>
    ensures { result ≡ lesser least other }
{
    match (least, other) {
        (Some(least), Some(other)) => Some(least.min(other)),
        (Some(least), None) => Some(least),
        (None, other) => other,
    }
}
