// The rows of a bucket behind its first one: a few, in any order.
ghost use Rattle.std.specs.Prelude.{◌≡◌, ◌^◌, ◌<◌, ◌≤◌, None, length, map, not, position, IfOk, IfErr, OnOk, OnErr, MatchOption};
ghost use Rattle.std.specs.List.{filter};
ghost use Rattle.std.specs.Option.{option_copied, IfSome};
ghost use Rattle.std.specs.Vec.{vec_len, vec_capacity};
ghost use Rattle.std.specs.Ordering.{eq_by_cmp};
ghost use Rattle.std.specs.Map.Iter.{deref_pair};
ghost use Rattle.std.specs.FinMap as fin;
ghost use Rattle.aria_base.specs.Orders.{key_cmp};
ghost use Rattle.tbl_rows.specs.Hashes.{hash_of};
ghost use Rattle.tbl_rows.specs.Pools.{is_moved, Adds};
ghost use Rattle.tbl_rows.specs.declared.homes.TheConstants.{LAST_LEVEL};

use crate::entries::Entry;
use crate::refusals::Refused;
use crate::spents::Spent;
use aria_base::{Duplicate, Key, Memory, Row};
use std::alloc::{AllocError, Global};
use std::marker::Model;
use std::mem;

/// A few rows, which are searched from the front. A contract sees the map of them.
#[derive(Drop)]
pub(crate) struct MoreRows {
    entries: Vec<Entry>,
}

impl Model for MoreRows {
    ghost use Rattle.std.specs.FinMap as fin;
    ghost use Rattle.aria_base.specs.Orders.{Database};
    ghost use Rattle.aria_base.specs.Codes.{database_code};
    ghost use Rattle.tbl_rows.specs.Pools.{AllApart};

    ghost Value = { Database };

    ghost coded = { database_code };

    ghost view = { λ a. fin.from_entries a.entries.items };

    ghost invariant = { λ a. AllApart a.entries.items };
}

impl MoreRows {
    /// No rows.
    pub(crate) fn new(alloc: Global) -> MoreRows
        ensures { result ≡ fin.empty }
    {
        MoreRows {
            entries: Vec::new(alloc),
        }
    }

    /// How many rows it has.
    pub(crate) fn len(&self) -> usize
        ensures { result ≡ fin.len self.now }
    {
        self.entries.len()
    }

    /// The row at the key of this hash.
    pub(crate) fn get(&self, hash: u64, key: &Key) -> Option<&Row>
        requires { hash ≡ hash_of key.now }
        ensures { option_copied result ≡ fin.get self.now key.now }
    {
        match place_of(&self.entries, hash, key) {
            Some(place) => Some(self.entries[place].row()),
            None => None,
        }
    }

    /// Sets the row at the key of this hash, and tells whether there was none, with what is left over.
    /// `Refused` means out of memory.
    pub(crate) fn put(&mut self, hash: u64, key: Key, row: Row) -> Result<(bool, Spent), Refused>
        requires { hash ≡ hash_of key }
        ensures put { OnOk result (self.new ≡ fin.insert self.old key row) }
        ensures added { IfOk result (λ r. r.0 ≡ not (fin.contains_key self.old key)) }
        ensures refused { IfErr result (λ refused. (refused.key ≡ key) × (refused.row ≡ row)) }
        ensures kept { OnErr result (self.new ≡ self.old) }
    {
        match place_of(&self.entries, hash, &key) {
            Some(place) => {
                let entry = &mut self.entries[place];
                let was = entry.set_row(row);
                drop(key);
                Ok((false, Spent::of_row(Some(was))))
            }
            None => match make_room(&mut self.entries) {
                Ok(spent) => {
                    self.entries.push_reserved(Entry::new(hash, key, row));
                    Ok((true, spent))
                }
                Err(_) => Err(Refused { key, row }),
            },
        }
    }

    /// Removes the row at the key of this hash, and tells whether there was one.
    pub(crate) fn delete(&mut self, hash: u64, key: &Key) -> bool
        requires { hash ≡ hash_of key.now }
        ensures found { result ≡ fin.contains_key self.old key.now }
        ensures deleted { self.new ≡ fin.remove self.old key.now }
    {
        match place_of(&self.entries, hash, key) {
            Some(place) => {
                drop(self.entries.swap_remove(place));
                true
            }
            None => false,
        }
    }

    /// Takes out one of the rows, if there is one. The block of the last one goes with it.
    pub(crate) fn take_one(&mut self) -> Option<Entry>
        ensures taken { MatchOption result (self.new ≡ self.old) (λ e. self.old ≡ fin.insert self.new e.0 e.1) }
        ensures apart { IfSome result (λ e. fin.get self.new e.0 ≡ None) }
    {
        let taken = self.entries.pop();
        drop_empty(&mut self.entries);
        taken
    }

    /// Adds the rows to a list, in any order.
    pub(crate) fn list<'a>(&'a self, out: &mut Vec<(&'a Key, &'a Row)>) -> Result<(), Memory>
        ensures { OnOk result (Adds self.now (map deref_pair out.old.items) (map deref_pair out.new.items)) }
    {
        for entry in &self.entries {
            out.push((entry.key(), entry.row()))?;
        }
        Ok(())
    }

    /// Takes out the rows that belong to the next of so many buckets. Both get room for the rows that they
    /// have: most of a table's memory is in its buckets.
    pub(crate) fn split(&mut self, level: u32, count: usize) -> Result<MoreRows, Memory>
        requires level { level ≤ LAST_LEVEL }
        requires least { 2 ^ level ≤ count }
        requires most { count < 2 ^ 32 }
        ensures moved { IfOk result (λ moved. moved ≡ fin.retain_keys self.old (is_moved level count)) }
        ensures stayed { OnOk result (self.new ≡ fin.retain_keys self.old (λ q. not (is_moved level count q))) }
        ensures kept { OnErr result (self.new ≡ self.old) }
    {
        let alloc = *self.entries.allocator();
        let leaving = count_moved(&self.entries, level, count);
        let mut stay = Vec::with_capacity(alloc, self.entries.len() - leaving)?;
        let mut moved = Vec::with_capacity(alloc, leaving)?;
        for entry in mem::replace(&mut self.entries, Vec::new(alloc)) {
            if entry.is_moved(level, count) {
                moved.push_reserved(entry);
            } else {
                stay.push_reserved(entry);
            }
        }
        self.entries = stay;
        Ok(MoreRows { entries: moved })
    }
}

/// The place of a key's row.
fn place_of(entries: &Vec<Entry>, hash: u64, key: &Key) -> Option<usize>
    requires { hash ≡ hash_of key.now }
    ensures { result ≡ position (λ e. eq_by_cmp key_cmp key.now e.0) entries.now.items }
{
    entries.iter().position(|entry| entry.is_at(hash, key))
}

/// Makes room for one more row, and hands out the block that was too small. A list grows by a quarter, and
/// not to its double, since a bucket is short and a table has many.
fn make_room(entries: &mut Vec<Entry>) -> Result<Spent, AllocError>
    ensures items { entries.new.items ≡ entries.old.items }
    ensures room { OnOk result (vec_len entries.new < vec_capacity entries.new) }
{
    let len = entries.len();
    if len < entries.capacity() {
        return Ok(Spent::of_row(None));
    }
    let mut more = Vec::with_capacity(*entries.allocator(), len + 1 + len / 4)?;
    more.append(entries)?;
    Ok(Spent {
        row: None,
        list: Some(mem::replace(entries, more)),
    })
}

/// Gives the block of a list back that has come to have no rows.
fn drop_empty(entries: &mut Vec<Entry>)
    ensures { entries.new.items ≡ entries.old.items }
{
    if entries.is_empty() {
        let alloc = *entries.allocator();
        drop(mem::replace(entries, Vec::new(alloc)));
    }
}

/// How many of the rows move when the next of so many buckets is made.
fn count_moved(entries: &Vec<Entry>, level: u32, count: usize) -> usize
    requires level { level ≤ LAST_LEVEL }
    requires least { 2 ^ level ≤ count }
    requires most { count < 2 ^ 32 }
    ensures { result ≡ length (filter (λ e. is_moved level count e.0) entries.now.items) }
{
    entries
        .iter()
        .filter(|entry| entry.is_moved(level, count))
        .count()
}

impl Duplicate for MoreRows {
    fn duplicate(&self, alloc: Global) -> Result<Self, Memory> {
        let mut entries = Vec::with_capacity(alloc, self.entries.len())?;
        for entry in &self.entries {
            entries.push(entry.duplicate(alloc)?)?;
        }
        Ok(MoreRows { entries })
    }
}
