// One bucket of a shard: a few rows, in any order.
ghost use Rattle.std.specs.Prelude.{◌≡◌, ◌^◌, ◌<◌, ◌≤◌, None, true, map, not, IfOk, IfErr, OnOk, OnErr};
ghost use Rattle.std.specs.Option.{option_copied};
ghost use Rattle.std.specs.Map.Iter.{deref_pair};
ghost use Rattle.std.specs.FinMap as fin;
ghost use Rattle.tbl_rows.specs.Hashes.{hash_of};
ghost use Rattle.tbl_rows.specs.Pools.{beside, is_moved, Adds, IsApart};
ghost use Rattle.tbl_rows.specs.declared.homes.TheConstants.{LAST_LEVEL};

use crate::entries::Entry;
use crate::first_rows::FirstRow;
use crate::more_rows::MoreRows;
use crate::refusals::Refused;
use crate::spents::Spent;
use aria_base::{Duplicate, Key, Memory, Row};
use std::alloc::Global;
use std::marker::Model;

/// From how many rows on behind its first one a bucket is crowded. By chance hardly one in a billion is, while
/// buckets that wait for their split have two rows on average.
const CROWD: usize = 15;

/// A few rows, the first of which lies in the bucket itself: most searches read the bucket and no more. A contract
/// sees the map of them. Where the first one goes another takes its place.
#[derive(Drop)]
pub(crate) struct Bucket {
    first: FirstRow,
    more: MoreRows,
}

impl Model for Bucket {
    ghost use Rattle.aria_base.specs.Orders.{Database};
    ghost use Rattle.aria_base.specs.Codes.{database_code};
    ghost use Rattle.tbl_rows.specs.Pools.{beside, IsApart};

    ghost Value = { Database };

    ghost coded = { database_code };

    ghost view = { λ a. beside a.first a.more };

    ghost invariant = { λ a. IsApart a.first a.more };
}

impl Bucket {
    /// A bucket with no rows.
    pub(crate) fn new(alloc: Global) -> Bucket
        ensures { result ≡ fin.empty }
    {
        Bucket {
            first: FirstRow::new(),
            more: MoreRows::new(alloc),
        }
    }

    /// Whether it has so many rows that no more belong there.
    pub(crate) fn is_crowded(&self) -> bool {
        self.more.len() >= CROWD
    }

    /// The row at the key of this hash.
    pub(crate) fn get(&self, hash: u64, key: &Key) -> Option<&Row>
        requires { hash ≡ hash_of key.now }
        ensures { option_copied result ≡ fin.get self.now key.now }
    {
        match self.first.get(hash, key) {
            Some(row) => Some(row),
            None => self.more.get(hash, key),
        }
    }

    /// Sets the row at the key of this hash, and tells whether there was none, with what is left over.
    /// `Refused` means out of memory.
    pub(crate) fn put(&mut self, hash: u64, key: Key, row: Row) -> Result<(bool, Spent), Refused>
        requires { hash ≡ hash_of key }
        ensures put { OnOk result (self.new ≡ fin.insert self.old key row) }
        ensures added { IfOk result (λ r. r.0 ≡ not (fin.contains_key self.old key)) }
        ensures refused { IfErr result (λ refused. (refused.key ≡ key) × (refused.row ≡ row)) }
        ensures kept { OnErr result (self.new ≡ self.old) }
    {
        if is_free(&self.first, &self.more, hash, &key) {
            self.first.set(Entry::new(hash, key, row));
            return Ok((true, Spent::of_row(None)));
        }
        match self.first.replace(hash, &key, row) {
            Ok(was) => {
                drop(key);
                Ok((false, Spent::of_row(Some(was))))
            }
            Err(row) => {
                let put = self.more.put(hash, key, row)?;
                Ok(put)
            }
        }
    }

    /// Removes the row at the key of this hash, and tells whether there was one.
    pub(crate) fn delete(&mut self, hash: u64, key: &Key) -> bool
        requires { hash ≡ hash_of key.now }
        ensures found { result ≡ fin.contains_key self.old key.now }
        ensures deleted { self.new ≡ fin.remove self.old key.now }
    {
        if self.first.delete(hash, key) {
            fill(&mut self.first, &mut self.more);
            return true;
        }
        self.more.delete(hash, key)
    }

    /// Adds the rows to a list, in any order.
    pub(crate) fn list<'a>(&'a self, out: &mut Vec<(&'a Key, &'a Row)>) -> Result<(), Memory>
        ensures { OnOk result (Adds self.now (map deref_pair out.old.items) (map deref_pair out.new.items)) }
    {
        self.first.list(out)?;
        self.more.list(out)?;
        Ok(())
    }

    /// Takes out the rows that belong to the next of so many buckets, as that bucket.
    pub(crate) fn split(&mut self, level: u32, count: usize) -> Result<Bucket, Memory>
        requires level { level ≤ LAST_LEVEL }
        requires least { 2 ^ level ≤ count }
        requires most { count < 2 ^ 32 }
        ensures moved { IfOk result (λ moved. moved ≡ fin.retain_keys self.old (is_moved level count)) }
        ensures stayed { OnOk result (self.new ≡ fin.retain_keys self.old (λ q. not (is_moved level count q))) }
        ensures kept { OnErr result (self.new ≡ self.old) }
    {
        let mut more = self.more.split(level, count)?;
        let mut first = self.first.leave(level, count);
        fill(&mut self.first, &mut self.more);
        fill(&mut first, &mut more);
        Ok(Bucket { first, more })
    }
}

/// Whether there is no first row, and no other one at the key of this hash.
fn is_free(first: &FirstRow, more: &MoreRows, hash: u64, key: &Key) -> bool
    requires { hash ≡ hash_of key.now }
    ensures { result ≡ true → (first.now ≡ fin.empty) × (fin.get more.now key.now ≡ None) }
{
    first.is_vacant() && more.get(hash, key).is_none()
}

/// Makes one of the others the first row where there is none.
fn fill(first: &mut FirstRow, more: &mut MoreRows)
    requires { IsApart first.old more.old }
    ensures same { beside first.new more.new ≡ beside first.old more.old }
    ensures apart { IsApart first.new more.new }
{
    if first.is_vacant() {
        match more.take_one() {
            Some(entry) => first.set(entry),
            None => {}
        }
    }
}

impl Duplicate for Bucket {
    fn duplicate(&self, alloc: Global) -> Result<Self, Memory> {
        Ok(Bucket {
            first: self.first.duplicate(alloc)?,
            more: self.more.duplicate(alloc)?,
        })
    }
}
