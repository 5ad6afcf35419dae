// The verdicts of a batch, by the words of keys and prefixes.
ghost use Rattle.std.specs.Prelude.{◌≡◌, ◌+◌, ◌*◌, ◌<◌, ◌≤◌, ◌-◌, length, None, slice_index_or, IfOk};
ghost use Rattle.std.specs.List.{All};
ghost use Rattle.aria_base.specs.declared.limits.TheConstants.{TAGS};
ghost use Rattle.dep_rules.specs.Sheets.{IsTid, writes_at};
ghost use Rattle.dep_rules.specs.Words.{Tell, least_of};
ghost use Rattle.range_marks.specs.Decisions.{AreCounted, scan_verdict, scan_verdicts, writer_of, reader_of};

use aria_base::Memory;
use batch_rules::verdicts::{Rule, Verdict};
use dep_rules::{Numbered, decided, lesser_of, stands_before};
use std::alloc::Global;

/// The verdicts, in the order of the list. `counts` tells of each work how many of the numbers that it writes are
/// those of keys. One worker decides all of them: a batch has at most 1,000 works, and one worker decided as many
/// requests of ten keys in 40 microseconds, four in 99.
pub(crate) fn decide_all(
    alloc: Global,
    numbered: &Numbered,
    counts: &[usize],
    words: &[u64],
    tag: u64,
    rule: Rule,
) -> Result<Vec<Verdict>, Memory>
    requires tag { tag < TAGS }
    requires words { Tell numbered.now tag words.now }
    requires counted { AreCounted numbered.now counts.now }
    ensures { IfOk result (λ verdicts. verdicts.items ≡ scan_verdicts rule numbered.now counts.now) }
{
    let count = numbered.len();
    let mut verdicts = Vec::with_capacity(alloc, count as usize)?;
    for place in 0..count {
        let verdict = decide_scanning(numbered, counts, words, tag, place + 1, rule);
        verdicts.push(verdict)?;
    }
    Ok(verdicts)
}

/// What is decided of the work with this TID, by the words of its keys and prefixes. `counts` tells of each
/// work how many of the numbers that it writes are those of keys: they stand in front of the prefixes that
/// it marks. Two that mark one prefix do not depend on each other for that. No memory.
fn decide_scanning(
    numbered: &Numbered,
    counts: &[usize],
    words: &[u64],
    tag: u64,
    tid: u32,
    rule: Rule,
) -> Verdict
    requires tid { IsTid numbered.now tid }
    requires tag { tag < TAGS }
    requires words { Tell numbered.now tag words.now }
    requires counted { length counts.now ≡ length numbered.now.reads }
    requires own { slice_index_or counts.now (tid - 1) 0 ≤ length (writes_at numbered.now tid) }
    ensures { result ≡ scan_verdict rule numbered.now counts.now tid }
{
    let reads = numbered.reads_of(tid);
    let writes = numbered.writes_of(tid);
    let own = counts[tid as usize - 1];
    let waw = least_writer(words, tag, &writes[..own], tid);
    let raw = least_writer(words, tag, reads, tid);
    let war = least_reader(words, tag, writes, tid);
    decided(rule, waw, raw, war)
}

/// The least TID below `tid` that the words of these keys stand for, of those that write them.
fn least_writer(words: &[u64], tag: u64, keys: &[u32], tid: u32) -> Option<u32>
    requires { All (λ k. 2 * k + 1 < length words.now) keys.now }
    ensures { result ≡ least_of (writer_of words.now tag tid) None keys.now }
{
    let mut least = None;
    for &key in keys {
        least = lesser_of(least, stands_before(words[2 * key as usize], tag, tid));
    }
    least
}

/// The least TID below `tid` that the words of these keys stand for, of those that read them.
fn least_reader(words: &[u64], tag: u64, keys: &[u32], tid: u32) -> Option<u32>
    requires { All (λ k. 2 * k + 1 < length words.now) keys.now }
    ensures { result ≡ least_of (reader_of words.now tag tid) None keys.now }
{
    let mut least = None;
    for &key in keys {
        least = lesser_of(least, stands_before(words[2 * key as usize + 1], tag, tid));
    }
    least
}
