// The rows of a shard, wherever they stand in it.
ghost use Rattle.std.specs.Prelude.{◌≡◌, ◌++◌, None, map, IfOk, IfErr, OnOk, OnErr};
ghost use Rattle.std.specs.Bool.{MatchBool};
ghost use Rattle.std.specs.Option.{option_copied};
ghost use Rattle.std.specs.Map.Iter.{deref_pair};
ghost use Rattle.std.specs.FinMap as fin;
ghost use Rattle.tbl_rows.specs.Hashes.{hash_of};
ghost use Rattle.tbl_rows.specs.Pools.{IsApart};

use crate::pools::Pool;
use crate::refusals::Refused;
use crate::sorted_rows::SortedRows;
use crate::spents::Spent;
use aria_base::{Duplicate, Key, Memory, Row};
use std::alloc::Global;
use std::marker::Model;

/// Rows in buckets, and in an ordered map where their bucket is crowded: nearly always a search looks
/// into one bucket alone, and with keys that somebody chose to share a bucket it is as quick as in an
/// ordered map. A contract sees the map of all.
#[derive(Drop)]
pub(crate) struct Rows {
    pool: Pool,
    overflow: SortedRows,
}

impl Model for Rows {
    ghost use Rattle.aria_base.specs.Orders.{Database};
    ghost use Rattle.aria_base.specs.Codes.{database_code};
    ghost use Rattle.tbl_rows.specs.Pools.{beside, IsApart};

    ghost Value = { Database };

    ghost coded = { database_code };

    ghost view = { λ a. beside a.pool a.overflow };

    ghost invariant = { λ a. IsApart a.pool a.overflow };
}

impl Rows {
    /// No rows.
    pub(crate) fn new(alloc: Global) -> Result<Rows, Memory>
        ensures { IfOk result (λ rows. rows ≡ fin.empty) }
    {
        let pool = Pool::new(alloc)?;
        let overflow = SortedRows::new(alloc);
        Ok(Rows { pool, overflow })
    }

    /// Makes room for so many rows, as far as there is memory.
    pub(crate) fn reserve(&mut self, rows: usize)
        ensures { self.new ≡ self.old }
    {
        self.pool.reserve(rows);
    }

    /// The row at the key of this hash.
    pub(crate) fn get(&self, hash: u64, key: &Key) -> Option<&Row>
        requires { hash ≡ hash_of key.now }
        ensures { option_copied result ≡ fin.get self.now key.now }
    {
        match self.pool.get(hash, key) {
            Some(row) => Some(row),
            None => self.overflow.get(key),
        }
    }

    /// Sets the row at the key of this hash. `Refused` means out of memory.
    pub(crate) fn put(&mut self, hash: u64, key: Key, row: Row) -> Result<Spent, Refused>
        requires { hash ≡ hash_of key }
        ensures put { OnOk result (self.new ≡ fin.insert self.old key row) }
        ensures refused { IfErr result (λ refused. (refused.key ≡ key) × (refused.row ≡ row)) }
        ensures kept { OnErr result (self.new ≡ self.old) }
    {
        if overflows(&self.pool, &self.overflow, hash, &key) {
            let spent = self.overflow.put(key, row)?;
            return Ok(spent);
        }
        let spent = self.pool.put(hash, key, row)?;
        Ok(spent)
    }

    /// Removes the row at the key of this hash, and tells whether there was one.
    pub(crate) fn delete(&mut self, hash: u64, key: &Key) -> bool
        requires { hash ≡ hash_of key.now }
        ensures found { result ≡ fin.contains_key self.old key.now }
        ensures deleted { self.new ≡ fin.remove self.old key.now }
    {
        if self.pool.delete(hash, key) {
            return true;
        }
        self.overflow.delete(key)
    }

    /// Appends the rows in the order of their keys.
    pub(crate) fn list<'a>(&'a self, out: &mut Vec<(&'a Key, &'a Row)>) -> Result<(), Memory>
        ensures { OnOk result (map deref_pair out.new.items ≡ map deref_pair out.old.items ++ fin.entries self.now) }
    {
        let mut rows = Vec::new(*out.allocator());
        self.pool.list(&mut rows)?;
        self.overflow.list(&mut rows)?;
        rows.sort_by(|a, b| a.0.cmp(b.0))?;
        out.append(&mut rows)?;
        Ok(())
    }
}

/// Whether the row of this key belongs to the overflow: it stands there, or its bucket is crowded by
/// others.
fn overflows(pool: &Pool, overflow: &SortedRows, hash: u64, key: &Key) -> bool
    requires hash { hash ≡ hash_of key.now }
    requires apart { IsApart pool.now overflow.now }
    ensures { MatchBool result (fin.get pool.now key.now ≡ None) (fin.get overflow.now key.now ≡ None) }
{
    if pool.is_crowded(hash, key) {
        return !pool.get(hash, key).is_some();
    }
    overflow.get(key).is_some()
}

impl Duplicate for Rows {
    fn duplicate(&self, alloc: Global) -> Result<Self, Memory> {
        Ok(Rows {
            pool: self.pool.duplicate(alloc)?,
            overflow: self.overflow.duplicate(alloc)?,
        })
    }
}
