// What the words tell of one request.
ghost use Rattle.std.specs.Prelude.{◌≡◌, None};
ghost use Rattle.batch_rules.specs.Touches.{keys_of};
ghost use Rattle.core_machine.specs.Machines.{decide, least_told};
ghost use Rattle.core_machine.specs.Words.{word_in, ran};
ghost use Rattle.core_machine.specs.declared.decisions.TheConstants.{TAG};

use crate::words::Words;
use aria_base::{Key, Row};
use dep_rules::{Rule, Verdict, decided, lesser_of, stands_before};
use proc_exec::Outcome;

/// The tag under which the machine's words stand for TIDs: no other batch shares them.
pub(crate) const TAG: u64 = 0;

/// What is decided of the request with this TID and this outcome, by the words of its keys.
pub(crate) fn decide(
    outcome: &Outcome,
    tid: u32,
    rule: Rule,
    writers: &Words,
    readers: &Words,
) -> Verdict
    ensures { result ≡ decide ran rule TAG (word_in writers.now) (word_in readers.now) tid outcome.now }
{
    let waw = least_of_rows(writers, tid, outcome.writes.as_slice());
    let raw = least_of_keys(writers, tid, outcome.reads.as_slice());
    let war = least_of_rows(readers, tid, outcome.writes.as_slice());
    decided(rule, waw, raw, war)
}

/// The least TID below `tid` that the words of these keys stand for.
fn least_of_keys(words: &Words, tid: u32, keys: &[Key]) -> Option<u32>
    ensures { result ≡ least_told TAG (word_in words.now) tid None keys.now }
{
    let mut least = None;
    for key in keys {
        least = lesser_of(least, stands_before(words.get(key), TAG, tid));
    }
    least
}

/// The least TID below `tid` that the words of the keys of these rows stand for.
fn least_of_rows(words: &Words, tid: u32, rows: &[(Key, Option<Row>)]) -> Option<u32>
    ensures { result ≡ least_told TAG (word_in words.now) tid None (keys_of rows.now) }
{
    let mut least = None;
    for row in rows {
        least = lesser_of(least, stands_before(words.get(&row.0), TAG, tid));
    }
    least
}
