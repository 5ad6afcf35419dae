// The buckets of a shard: as many as its rows want.
ghost use Rattle.std.specs.Prelude.{◌≡◌, ◌^◌, ◌<◌, ◌≤◌, length, map, IfOk, IfErr, OnOk, OnErr};
ghost use Rattle.std.specs.Option.{option_copied};
ghost use Rattle.std.specs.Map.Iter.{deref_pair};
ghost use Rattle.std.specs.FinMap as fin;
ghost use Rattle.tbl_rows.specs.Hashes.{hash_of};
ghost use Rattle.tbl_rows.specs.Pools.{slot, Adds};
ghost use Rattle.tbl_rows.specs.declared.homes.TheConstants.{LAST_LEVEL};

use crate::buckets::Bucket;
use crate::homes::{LAST_LEVEL, bucket_at};
use crate::refusals::Refused;
use crate::spents::Spent;
use aria_base::{Duplicate, Key, Memory, Row};
use std::alloc::Global;
use std::marker::Model;

/// How many rows a bucket has on average at most, while there is memory for more buckets. Most searches
/// read the bucket alone.
const MEAN: usize = 1;

/// Rows in buckets. A contract sees the map of them. The buckets grow one by one, so that no call
/// moves more than a bucket's rows. `len` counts the rows, and nothing but growth rests on it.
#[derive(Drop)]
pub(crate) struct Pool {
    level: u32,
    len: usize,
    buckets: Vec<Bucket>,
}

impl Model for Pool {
    ghost use Rattle.aria_base.specs.Orders.{Database};
    ghost use Rattle.aria_base.specs.Codes.{database_code};
    ghost use Rattle.tbl_rows.specs.Pools.{pooled, IsPool};

    ghost Value = { Database };

    ghost coded = { database_code };

    ghost view = { λ a. pooled a.buckets.items };

    ghost invariant = { λ a. IsPool a.level a.buckets.items };
}

impl Pool {
    /// One bucket with no rows.
    pub(crate) fn new(alloc: Global) -> Result<Pool, Memory>
        ensures { IfOk result (λ pool. pool ≡ fin.empty) }
    {
        let mut buckets = Vec::new(alloc);
        buckets.push(Bucket::new(alloc))?;
        Ok(Pool {
            level: 0,
            len: 0,
            buckets,
        })
    }

    /// The row at the key of this hash.
    pub(crate) fn get(&self, hash: u64, key: &Key) -> Option<&Row>
        requires { hash ≡ hash_of key.now }
        ensures { option_copied result ≡ fin.get self.now key.now }
    {
        let bucket = &self.buckets[place_of(self.level, &self.buckets, hash, key)];
        bucket.get(hash, key)
    }

    /// Whether the bucket of the key of this hash has so many rows that no more belong there.
    pub(crate) fn is_crowded(&self, hash: u64, key: &Key) -> bool
        requires { hash ≡ hash_of key.now }
    {
        let bucket = &self.buckets[place_of(self.level, &self.buckets, hash, key)];
        bucket.is_crowded()
    }

    /// Sets the row at the key of this hash. `Refused` means out of memory.
    pub(crate) fn put(&mut self, hash: u64, key: Key, row: Row) -> Result<Spent, Refused>
        requires { hash ≡ hash_of key }
        ensures put { OnOk result (self.new ≡ fin.insert self.old key row) }
        ensures refused { IfErr result (λ refused. (refused.key ≡ key) × (refused.row ≡ row)) }
        ensures kept { OnErr result (self.new ≡ self.old) }
    {
        if self.len / MEAN >= self.buckets.len() {
            self.grow();
        }
        self.put_here(hash, key, row)
    }

    /// Sets the row at the key of this hash, in the buckets that there are. `Refused` means out of memory.
    fn put_here(&mut self, hash: u64, key: Key, row: Row) -> Result<Spent, Refused>
        requires { hash ≡ hash_of key }
        ensures put { OnOk result (self.new ≡ fin.insert self.old key row) }
        ensures refused { IfErr result (λ refused. (refused.key ≡ key) × (refused.row ≡ row)) }
        ensures kept { OnErr result (self.new ≡ self.old) }
    {
        let place = place_of(self.level, &self.buckets, hash, &key);
        let bucket = &mut self.buckets[place];
        let (added, spent) = bucket.put(hash, key, row)?;
        self.len = self.len.saturating_add(usize::from(added));
        Ok(spent)
    }

    /// Makes buckets for so many rows, as far as there is memory, so that puts of them split none.
    pub(crate) fn reserve(&mut self, rows: usize)
        ensures { self.new ≡ self.old }
    {
        let count = self.buckets.as_slice().len();
        let more = (rows / MEAN).saturating_sub(count);
        if self.buckets.reserve(more).is_err() {
            return;
        }
        for _ in 0..more {
            self.grow();
        }
    }

    /// Makes one bucket more, if there is memory.
    fn grow(&mut self)
        ensures { self.new ≡ self.old }
    {
        self.begin_round();
        self.split_next();
    }

    /// Begins the next round, if every bucket is split in this one.
    fn begin_round(&mut self)
        ensures { self.new ≡ self.old }
    {
        if self.buckets.len() == 2 << self.level && self.level < LAST_LEVEL {
            self.level += 1;
        }
    }

    /// Splits the next bucket in turn, if one is left in this round and there is memory.
    fn split_next(&mut self)
        ensures { self.new ≡ self.old }
    {
        let count = self.buckets.as_slice().len();
        if count == 2 << self.level || self.buckets.reserve(1).is_err() {
            return;
        }
        let place = count - (1 << self.level);
        let bucket = &mut self.buckets[place];
        match bucket.split(self.level, count) {
            Ok(moved) => self.buckets.push_reserved(moved),
            Err(_) => {}
        }
    }

    /// Removes the row at the key of this hash, and tells whether there was one.
    pub(crate) fn delete(&mut self, hash: u64, key: &Key) -> bool
        requires { hash ≡ hash_of key.now }
        ensures found { result ≡ fin.contains_key self.old key.now }
        ensures deleted { self.new ≡ fin.remove self.old key.now }
    {
        let place = place_of(self.level, &self.buckets, hash, key);
        let bucket = &mut self.buckets[place];
        let found = bucket.delete(hash, key);
        self.len = self.len.saturating_sub(usize::from(found));
        found
    }

    /// Adds the rows to a list, in any order.
    pub(crate) fn list<'a>(&'a self, out: &mut Vec<(&'a Key, &'a Row)>) -> Result<(), Memory>
        ensures { OnOk result (Adds self.now (map deref_pair out.old.items) (map deref_pair out.new.items)) }
    {
        for bucket in &self.buckets {
            bucket.list(out)?;
        }
        Ok(())
    }
}

/// The place of the bucket of a key, whose hash it is.
#[tactic(auto, unfolding(crate::specs::Pools::slot))]
fn place_of(level: u32, buckets: &Vec<Bucket>, hash: u64, key: &Key) -> usize
    requires hash { hash ≡ hash_of key.now }
    requires level { level ≤ LAST_LEVEL }
    requires least { 2 ^ level ≤ length buckets.now.items }
    ensures slot { result ≡ slot level (length buckets.now.items) key.now }
    ensures below { result < length buckets.now.items }
{
    bucket_at(level, buckets.as_slice().len(), hash)
}

impl Duplicate for Pool {
    fn duplicate(&self, alloc: Global) -> Result<Self, Memory> {
        let mut buckets = Vec::with_capacity(alloc, self.buckets.len())?;
        for bucket in &self.buckets {
            buckets.push(bucket.duplicate(alloc)?)?;
        }
        Ok(Pool {
            level: self.level,
            len: self.len,
            buckets,
        })
    }
}
