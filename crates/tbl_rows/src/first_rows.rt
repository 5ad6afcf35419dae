// The first row of a bucket, which lies in the bucket itself.
ghost use Rattle.std.specs.Prelude.{◌≡◌, ◌^◌, ◌<◌, ◌≤◌, None, true, map, not, IfErr, OnOk, OnErr};
ghost use Rattle.std.specs.Option.{option_copied, IsSome};
ghost use Rattle.std.specs.Map.Iter.{deref_pair};
ghost use Rattle.std.specs.FinMap as fin;
ghost use Rattle.tbl_rows.specs.Hashes.{hash_of};
ghost use Rattle.tbl_rows.specs.Pools.{is_moved, Adds};
ghost use Rattle.tbl_rows.specs.declared.homes.TheConstants.{LAST_LEVEL};

use crate::entries::Entry;
use aria_base::{Duplicate, Key, Memory, Row};
use std::alloc::Global;
use std::marker::Model;

/// One row or none. A contract sees the map of it.
#[derive(Drop)]
pub(crate) struct FirstRow {
    entry: Option<Entry>,
}

impl Model for FirstRow {
    ghost use Rattle.aria_base.specs.Orders.{Database};
    ghost use Rattle.aria_base.specs.Codes.{database_code};
    ghost use Rattle.tbl_rows.specs.Pools.{only};

    ghost Value = { Database };

    ghost coded = { database_code };

    ghost view = { λ a. only a.entry };
}

impl FirstRow {
    /// No row.
    pub(crate) fn new() -> FirstRow
        ensures { result ≡ fin.empty }
    {
        FirstRow { entry: None }
    }

    /// Whether there is no row.
    pub(crate) fn is_vacant(&self) -> bool
        ensures { result ≡ true → self.now ≡ fin.empty }
    {
        self.entry.is_none()
    }

    /// The row at the key of this hash.
    pub(crate) fn get(&self, hash: u64, key: &Key) -> Option<&Row>
        requires { hash ≡ hash_of key.now }
        ensures { option_copied result ≡ fin.get self.now key.now }
    {
        match &self.entry {
            Some(entry) => {
                if entry.is_at(hash, key) {
                    return Some(entry.row());
                }
                None
            }
            None => None,
        }
    }

    /// Sets the row where there is none.
    pub(crate) fn set(&mut self, entry: Entry)
        requires { self.old ≡ fin.empty }
        ensures { self.new ≡ fin.insert self.old entry.0 entry.1 }
    {
        self.entry = Some(entry);
    }

    /// Sets the row at the key of this hash, and hands out the one that stood there. Where none stands there the new
    /// one comes back.
    pub(crate) fn replace(&mut self, hash: u64, key: &Key, row: Row) -> Result<Row, Row>
        requires { hash ≡ hash_of key.now }
        ensures set { OnOk result (self.new ≡ fin.insert self.old key.now row) }
        ensures there { OnOk result (IsSome (fin.get self.old key.now)) }
        ensures back { IfErr result (λ back. back ≡ row) }
        ensures kept { OnErr result (self.new ≡ self.old) }
        ensures absent { OnErr result (fin.get self.old key.now ≡ None) }
    {
        match &mut self.entry {
            Some(entry) => {
                if entry.is_at(hash, key) {
                    return Ok(entry.set_row(row));
                }
                Err(row)
            }
            None => Err(row),
        }
    }

    /// Removes the row at the key of this hash, and tells whether there was one.
    pub(crate) fn delete(&mut self, hash: u64, key: &Key) -> bool
        requires { hash ≡ hash_of key.now }
        ensures found { result ≡ fin.contains_key self.old key.now }
        ensures deleted { self.new ≡ fin.remove self.old key.now }
    {
        let found = self.get(hash, key).is_some();
        if found {
            drop(self.entry.take());
        }
        found
    }

    /// Adds the row to a list.
    pub(crate) fn list<'a>(&'a self, out: &mut Vec<(&'a Key, &'a Row)>) -> Result<(), Memory>
        ensures { OnOk result (Adds self.now (map deref_pair out.old.items) (map deref_pair out.new.items)) }
    {
        match &self.entry {
            Some(entry) => out.push((entry.key(), entry.row()))?,
            None => {}
        }
        Ok(())
    }

    /// Takes out the row if it belongs to the next of so many buckets.
    pub(crate) fn leave(&mut self, level: u32, count: usize) -> FirstRow
        requires level { level ≤ LAST_LEVEL }
        requires least { 2 ^ level ≤ count }
        requires most { count < 2 ^ 32 }
        ensures moved { result ≡ fin.retain_keys self.old (is_moved level count) }
        ensures stayed { self.new ≡ fin.retain_keys self.old (λ q. not (is_moved level count q)) }
    {
        match &self.entry {
            Some(entry) => {
                if entry.is_moved(level, count) {
                    return FirstRow {
                        entry: self.entry.take(),
                    };
                }
                FirstRow::new()
            }
            None => FirstRow::new(),
        }
    }
}

impl Duplicate for FirstRow {
    fn duplicate(&self, alloc: Global) -> Result<Self, Memory> {
        match &self.entry {
            Some(entry) => Ok(FirstRow {
                entry: Some(entry.duplicate(alloc)?),
            }),
            None => Ok(FirstRow::new()),
        }
    }
}
