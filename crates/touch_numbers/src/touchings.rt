// What a request touched, by references to where the keys lie.
ghost use Rattle.std.specs.Prelude.{◌≡◌, ◌++◌, length, map, IfOk, OnOk};
ghost use Rattle.batch_rules.specs.Touches.{keys_of};
ghost use Rattle.touch_numbers.specs.Slots.{shown};
ghost use Rattle.touch_numbers.specs.Touchings.{sets_of, written_in};

use aria_base::{Duplicate, Key, Keys, Memory, Row};
use dep_rules::Sets;
use std::alloc::Global;

/// The keys that a request wrote, where they lie.
#[derive(Drop)]
pub enum Written<'a> {
    /// In a list of their own.
    Keys(&'a [Key]),
    /// Each beside the row that was written, or its absence.
    Rows(&'a [(Key, Option<Row>)]),
}

/// The keys that a request touched: those that it read before it wrote them, and those that it wrote.
#[derive(Drop)]
pub struct Touching<'a> {
    /// Those that it read before it wrote them.
    pub reads: &'a [Key],
    /// Those that it wrote.
    pub writes: Written<'a>,
}

impl<'a> Touching<'a> {
    /// The keys of these sets.
    pub fn of_sets(sets: &'a Sets) -> Touching<'a>
        ensures { sets_of result ≡ sets.now }
    {
        Touching {
            reads: sets.reads.as_slice(),
            writes: Written::Keys(sets.writes.as_slice()),
        }
    }

    /// How many keys were read.
    pub(crate) fn count_reads(&self) -> usize
        ensures { result ≡ length (sets_of self.now).reads }
    {
        self.reads.len()
    }

    /// How many keys were written.
    pub(crate) fn count_writes(&self) -> usize
        ensures { result ≡ length (sets_of self.now).writes }
    {
        match &self.writes {
            Written::Keys(keys) => keys.len(),
            Written::Rows(rows) => rows.len(),
        }
    }

    /// Appends the keys that were read, and then those that were written.
    pub(crate) fn append(&self, keys: &mut Vec<&'a Key>) -> Result<(), Memory>
        ensures { OnOk result (shown keys.new.items ≡ shown keys.old.items ++ ((sets_of self.now).reads ++ (sets_of self.now).writes)) }
    {
        append_keys(keys, self.reads)?;
        match self.writes {
            Written::Keys(written) => append_keys(keys, written),
            Written::Rows(rows) => append_rows(keys, rows),
        }
    }

    /// The sets of the keys, copied.
    pub(crate) fn copy(&self, alloc: Global) -> Result<Sets, Memory>
        ensures { IfOk result (λ sets. sets ≡ sets_of self.now) }
    {
        let mut shown = Vec::new(alloc);
        append_keys(&mut shown, self.reads)?;
        let reads = copy_keys(alloc, &shown)?;
        let mut shown = Vec::new(alloc);
        match self.writes {
            Written::Keys(written) => append_keys(&mut shown, written)?,
            Written::Rows(rows) => append_rows(&mut shown, rows)?,
        }
        let writes = copy_keys(alloc, &shown)?;
        Ok(Sets { reads, writes })
    }
}

/// Appends these keys.
fn append_keys<'a>(keys: &mut Vec<&'a Key>, more: &'a [Key]) -> Result<(), Memory>
    ensures { OnOk result (shown keys.new.items ≡ shown keys.old.items ++ more.now) }
{
    for key in more {
        keys.push(key)?;
    }
    Ok(())
}

/// Appends the keys of these rows.
fn append_rows<'a>(keys: &mut Vec<&'a Key>, rows: &'a [(Key, Option<Row>)]) -> Result<(), Memory>
    ensures { OnOk result (shown keys.new.items ≡ shown keys.old.items ++ keys_of rows.now) }
{
    for row in rows {
        keys.push(&row.0)?;
    }
    Ok(())
}

/// Copies of these keys.
fn copy_keys(alloc: Global, keys: &[&Key]) -> Result<Keys, Memory>
    ensures { IfOk result (λ copies. copies ≡ shown keys.now) }
{
    let mut copies = Vec::with_capacity(alloc, keys.len())?;
    for key in keys {
        copies.push(key.duplicate(alloc)?)?;
    }
    Ok(Keys::from_vec(copies))
}

/// The sets of all, copied.
pub(crate) fn copy_all(alloc: Global, list: &[Touching]) -> Result<Vec<Sets>, Memory>
    ensures { IfOk result (λ sets. sets.items ≡ map sets_of list.now) }
{
    let mut sets = Vec::with_capacity(alloc, list.len())?;
    for one in list {
        sets.push(one.copy(alloc)?)?;
    }
    Ok(sets)
}

/// What these sets touch.
pub(crate) fn of_all<'a>(alloc: Global, sets: &'a [Sets]) -> Result<Vec<Touching<'a>>, Memory>
    ensures { IfOk result (λ list. map sets_of list.items ≡ sets.now) }
{
    let mut list = Vec::with_capacity(alloc, sets.len())?;
    for set in sets {
        list.push(Touching::of_sets(set))?;
    }
    Ok(list)
}
