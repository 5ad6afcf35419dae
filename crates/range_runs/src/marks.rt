// The keys that stand for prefixes.
ghost use Rattle.std.specs.Prelude.{◌≡◌, IfOk};
ghost use Rattle.range_runs.specs.Marks.{mark_of, whole_table};

use aria_base::{Key, Memory, Part, Parts};
use range_rules::Prefix;
use std::alloc::Global;

/// No table has this number: a catalogue has at most 256.
pub(crate) const NO_TABLE: u16 = u16::MAX;

/// The mark of a prefix: the key that stands for it where prefixes are kept as keys are. Two prefixes have one
/// mark exactly where they are one. An error: there was no memory.
pub fn mark_of(alloc: Global, prefix: &Prefix) -> Result<Key, Memory>
    ensures { IfOk result (λ key. key ≡ mark_of prefix.now) }
{
    match prefix.parts.as_slice() {
        [] => whole_table(alloc, prefix.table),
        parts => Ok(Key {
            table: prefix.table,
            parts: Parts::copy_of(alloc, parts)?,
        }),
    }
}

/// The mark of the prefix without parts, a scan of the whole table. No other prefix's mark has so many parts,
/// and no row's key has such a table. An error: there was no memory.
pub fn whole_table(alloc: Global, table: u16) -> Result<Key, Memory>
    ensures { IfOk result (λ key. key ≡ whole_table table) }
{
    let number = Part::Int(i64::from(table));
    let parts = Parts::five(
        alloc,
        number,
        Part::Int(0),
        Part::Int(0),
        Part::Int(0),
        Part::Int(0),
    )?;
    Ok(Key {
        table: NO_TABLE,
        parts,
    })
}
