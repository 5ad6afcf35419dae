// The waves of waiting requests.
ghost use Rattle.std.specs.Prelude.{◌≡◌, ◌≤◌, length, All, IfOk, OnOk};
ghost use Rattle.aria_base.specs.declared.limits.TheConstants.{MOST_REQUESTS};
ghost use Rattle.batch_rules.specs.Touches.{is_among};
ghost use Rattle.dep_rules.specs.Sheets.{IsTid};
ghost use Rattle.fallback_locks.specs.LastWaves.{with_reader, with_writer, last_writer, last_toucher, wave_by, AreSame, HasPlacesOf, IsBelow};
ghost use Rattle.fallback_locks.specs.Numbers.{waves_by};
ghost use Rattle.fallback_locks.specs.Reruns.{waves_of};

use crate::lasts::Table;
use crate::tables::{ByKey, ByNumber};
use aria_base::Memory;
use dep_rules::Numbered;
use proc_exec::Waiting;
use std::alloc::Global;

/// The wave of each waiting request, in the order of the list. It is 1 where the request conflicts with
/// no earlier one, and else one more than the greatest wave of the earlier ones that it conflicts with.
/// Two conflict where one declares to write a key that the other declares to read or to write.
///
/// One pass, over an ordered map from keys to their last waves: no keys that a stranger may choose
/// make it slow.
pub fn waves(alloc: Global, waiting: &[Waiting]) -> Result<Vec<u32>, Memory>
    requires { length waiting.now ≤ MOST_REQUESTS }
    ensures { IfOk result (λ waves. waves.items ≡ waves_of waiting.now) }
{
    let mut table = ByKey::new(alloc);
    let mut waves = Vec::with_capacity(alloc, waiting.len())?;
    for one in waiting {
        let reads = one.declared.reads.as_slice();
        let writes = one.declared.writes.as_slice();
        let wave = next_wave(&mut table, reads, writes)?;
        waves.push(wave)?;
    }
    Ok(waves)
}

/// The same of the requests with these TIDs, in their order, by the numbers of the keys that they declare.
///
/// One pass, over a list that has the last waves of each key at its number.
pub fn waves_numbered(alloc: Global, numbered: &Numbered, tids: &[u32]) -> Result<Vec<u32>, Memory>
    requires few { length tids.now ≤ MOST_REQUESTS }
    requires tids { All (λ tid. IsTid numbered.now tid) tids.now }
    ensures { IfOk result (λ waves. waves.items ≡ waves_by numbered.now tids.now) }
{
    let mut table = ByNumber::new(alloc, numbered.keys())?;
    let mut waves = Vec::with_capacity(alloc, tids.len())?;
    for tid in tids {
        let reads = numbered.reads_of(*tid);
        let writes = numbered.writes_of(*tid);
        let wave = next_wave(&mut table, reads, writes)?;
        waves.push(wave)?;
    }
    Ok(waves)
}

/// The wave of a request that declares these keys, by the last waves of those before it; noted at the keys.
fn next_wave<T: Table>(table: &mut T, reads: &[T::Key], writes: &[T::Key]) -> Result<u32, Memory>
    requires low { (q : T.Key) → IsBelow MOST_REQUESTS (T.last table.old q) }
    requires reads { All (T.holds table.old) reads.now }
    requires writes { All (T.holds table.old) writes.now }
    ensures wave { IfOk result (λ wave. wave ≡ wave_by (T.last table.old) (record { reads = reads.now; writes = writes.now })) }
    ensures noted { IfOk result (λ wave. AreSame (T.last table.new)
        (λ q. with_writer wave (is_among T.order writes.now q) (with_reader wave (is_among T.order reads.now q) (T.last table.old q)))) }
    ensures held { IfOk result (λ _. HasPlacesOf (T.holds table.old) (T.holds table.new)) }
{
    let read = last_writer(table, reads);
    let written = last_toucher(table, writes);
    let wave = read.max(written) + 1;
    note_reads(table, reads, wave)?;
    note_writes(table, writes, wave)?;
    Ok(wave)
}

/// The last wave that writes one of the keys.
fn last_writer<T: Table>(table: &T, keys: &[T::Key]) -> u32
    requires { All (T.holds table.now) keys.now }
    ensures { result ≡ last_writer (T.last table.now) keys.now }
{
    let mut most = 0;
    for key in keys {
        most = most.max(table.last_of(key).writer);
    }
    most
}

/// The last wave that reads or writes one of the keys.
fn last_toucher<T: Table>(table: &T, keys: &[T::Key]) -> u32
    requires { All (T.holds table.now) keys.now }
    ensures { result ≡ last_toucher (T.last table.now) keys.now }
{
    let mut most = 0;
    for key in keys {
        let last = table.last_of(key);
        most = most.max(last.reader.max(last.writer));
    }
    most
}

/// Notes that a wave reads the keys.
fn note_reads<T: Table>(table: &mut T, keys: &[T::Key], wave: u32) -> Result<(), Memory>
    requires { All (T.holds table.old) keys.now }
    ensures noted { OnOk result (AreSame (T.last table.new) (λ q. with_reader wave (is_among T.order keys.now q) (T.last table.old q))) }
    ensures held { OnOk result (HasPlacesOf (T.holds table.old) (T.holds table.new)) }
{
    for key in keys {
        table.note_read(key, wave)?;
    }
    Ok(())
}

/// Notes that a wave writes the keys.
fn note_writes<T: Table>(table: &mut T, keys: &[T::Key], wave: u32) -> Result<(), Memory>
    requires { All (T.holds table.old) keys.now }
    ensures noted { OnOk result (AreSame (T.last table.new) (λ q. with_writer wave (is_among T.order keys.now q) (T.last table.old q))) }
    ensures held { OnOk result (HasPlacesOf (T.holds table.old) (T.holds table.new)) }
{
    for key in keys {
        table.note_write(key, wave)?;
    }
    Ok(())
}
