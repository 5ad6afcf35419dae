// The scanned prefixes that a write marks.
ghost use Rattle.std.specs.Prelude.{◌≡◌, ◌≤◌, ◌++◌, [], ◌∷◌, if◌then◌else◌, length, map, IfOk, OnOk};
ghost use Rattle.std.specs.FinMap as fin;
ghost use Rattle.batch_rules.specs.Touches.{keys_of};
ghost use Rattle.range_marks.specs.Marks.{front_count, front_of, fronts_below, marks_on, with_scans};
ghost use Rattle.range_runs.specs.Indexes.{with_keys};
ghost use Rattle.range_runs.specs.Marks.{mark_of};

use aria_base::{Key, MOST_PARTS, Memory, Parts, Row};
use range_rules::{Prefix, Ran};
use range_runs::{Index, mark_of, whole_table};
use std::alloc::Global;

/// The marks of the prefixes that these runs scanned.
pub(crate) fn all_scanned(alloc: Global, rans: &[Ran]) -> Result<Index, Memory>
    ensures { IfOk result (λ scanned. scanned ≡ with_scans fin.empty rans.now) }
{
    let mut scanned = Index::new(alloc);
    for ran in rans {
        add_all(alloc, &mut scanned, ran.scans.as_slice())?;
    }
    Ok(scanned)
}

/// Adds the marks of prefixes.
fn add_all(alloc: Global, scanned: &mut Index, prefixes: &[Prefix]) -> Result<(), Memory>
    ensures { OnOk result (scanned.new ≡ with_keys scanned.old (map mark_of prefixes.now)) }
{
    for prefix in prefixes {
        scanned.add(mark_of(alloc, prefix)?)?;
    }
    Ok(())
}

/// The marks of the scanned prefixes that one of the keys written is under: at most five are looked up for each key. One may stand there
/// several times.
pub(crate) fn marks_on(
    alloc: Global,
    scanned: &Index,
    writes: &[(Key, Option<Row>)],
) -> Result<Vec<Key>, Memory>
    ensures { IfOk result (λ marks. marks.items ≡ marks_on scanned.now (keys_of writes.now)) }
{
    let mut marks = Vec::new(alloc);
    for (key, _) in writes {
        add_marks(alloc, scanned, key, &mut marks)?;
    }
    Ok(marks)
}

/// Adds the marks of those that the key is under.
fn add_marks(alloc: Global, scanned: &Index, key: &Key, marks: &mut Vec<Key>) -> Result<(), Memory>
    ensures { OnOk result (marks.new.items ≡ marks.old.items ++ fronts_below scanned.now key.now (front_count key.now)) }
{
    let fronts = (key.parts.as_slice().len() + 1).min(MOST_PARTS);
    for count in 0..fronts {
        let front = front(alloc, key, count)?;
        let there = scanned.contains(&front);
        push_if(marks, front, there)?;
    }
    Ok(())
}

/// Adds the key, if that is so.
fn push_if(marks: &mut Vec<Key>, key: Key, so: bool) -> Result<(), Memory>
    ensures { OnOk result (marks.new.items ≡ marks.old.items ++ (if so then key ∷ [] else [])) }
{
    if !so {
        return Ok(());
    }
    marks.push(key)?;
    Ok(())
}

/// The mark of the prefix of a key's first parts.
fn front(alloc: Global, key: &Key, count: usize) -> Result<Key, Memory>
    requires { count ≤ length key.now.parts }
    ensures { IfOk result (λ front. front ≡ front_of key.now count) }
{
    if count == 0 {
        return whole_table(alloc, key.table);
    }
    Ok(Key {
        table: key.table,
        parts: Parts::copy_of(alloc, &key.parts.as_slice()[..count])?,
    })
}
