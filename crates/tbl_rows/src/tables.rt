// All rows, as one map.
ghost use Rattle.std.specs.Prelude.{◌≡◌, ◌<◌, map, length, IfOk, IfErr, OnOk, OnErr};
ghost use Rattle.std.specs.Option.{option_copied};
ghost use Rattle.std.specs.Map.Iter.{deref_pair};
ghost use Rattle.std.specs.FinMap as fin;
ghost use Rattle.aria_base.specs.declared.keys.Key.{Key as Name};
ghost use Rattle.tbl_rows.specs.Hashes.{hash_of};
ghost use Rattle.tbl_rows.specs.Shards.{IsWhole, AllNumbered, joined, at_home};
ghost use Rattle.tbl_rows.specs.declared.homes.TheConstants.{SHARDS};

use crate::hashes::hash_of;
use crate::homes::{SHARDS, shard_at};
use crate::refusals::Refused;
use crate::shards::Shard;
use aria_base::{Duplicate, Key, Memory, Row};
use std::alloc::Global;
use std::marker::Model;

/// The rows of a database. A contract sees the finite map from keys to rows. It grows by the
/// allocator that it was made with.
#[derive(Drop)]
pub struct Tables {
    shards: Vec<Shard>,
}

impl Model for Tables {
    ghost use Rattle.aria_base.specs.Orders.{Database};
    ghost use Rattle.aria_base.specs.Codes.{database_code};
    ghost use Rattle.tbl_rows.specs.Shards.{IsWhole, joined};

    ghost Value = { Database };

    ghost coded = { database_code };

    ghost view = { λ a. joined a.shards.items };

    ghost invariant = { λ a. IsWhole a.shards.items };
}

impl Tables {
    /// Tables with no rows.
    pub fn new(alloc: Global) -> Result<Tables, Memory>
        ensures { IfOk result (λ tables. tables ≡ fin.empty) }
    {
        let mut shards = Vec::with_capacity(alloc, usize::from(SHARDS))?;
        for number in 0..SHARDS {
            shards.push(Shard::new(alloc, number)?)?;
        }
        Ok(Tables { shards })
    }

    /// Makes room for so many rows in all, as far as there is memory: puts of new rows take less time then,
    /// and leave no small blocks between those of the rows. Without memory for it everything stays as it was.
    pub fn reserve(&mut self, rows: usize)
        ensures { self.new ≡ self.old }
    {
        let each = rows / usize::from(SHARDS);
        for number in 0..SHARDS {
            self.reserve_in(number, each);
        }
    }

    /// Makes room for so many rows in the shard with this number, as far as there is memory.
    fn reserve_in(&mut self, number: u8, rows: usize)
        requires { number < SHARDS }
        ensures { self.new ≡ self.old }
    {
        let shard = &mut self.shards[usize::from(number)];
        shard.reserve(rows);
    }

    /// The row at a key. No memory.
    pub fn get(&self, key: &Key) -> Option<&Row>
        ensures { option_copied result ≡ fin.get self.now key.now }
    {
        self.get_at(hash_of(key), key)
    }

    /// The row at a key with this hash. No memory.
    pub fn get_at(&self, hash: u64, key: &Key) -> Option<&Row>
        requires { hash ≡ hash_of key.now }
        ensures { option_copied result ≡ fin.get self.now key.now }
    {
        let shard = &self.shards[usize::from(shard_at(hash, key))];
        shard.get(hash, key)
    }

    /// Sets the row at a key. `Refused` means out of memory.
    pub fn put(&mut self, key: Key, row: Row) -> Result<(), Refused>
        ensures put { OnOk result (self.new ≡ fin.insert self.old key row) }
        ensures refused { IfErr result (λ refused. (refused.key ≡ key) × (refused.row ≡ row)) }
        ensures kept { OnErr result (self.new ≡ self.old) }
    {
        let hash = hash_of(&key);
        let shard = &mut self.shards[usize::from(shard_at(hash, &key))];
        let _spent = shard.put_at(hash, key, row)?;
        Ok(())
    }

    /// Removes the row at a key, and tells whether there was one. No memory.
    pub fn delete(&mut self, key: &Key) -> bool
        ensures found { result ≡ fin.contains_key self.old key.now }
        ensures deleted { self.new ≡ fin.remove self.old key.now }
    {
        let hash = hash_of(key);
        let shard = &mut self.shards[usize::from(shard_at(hash, key))];
        shard.delete_at(hash, key)
    }

    /// All rows with their keys, in the order of the keys.
    pub fn rows(&self) -> Result<Vec<(&Key, &Row)>, Memory>
        ensures { IfOk result (λ rows. map deref_pair rows.items ≡ fin.entries self.now) }
    {
        let mut rows = Vec::new(*self.shards.allocator());
        for shard in &self.shards {
            shard.list(&mut rows)?;
        }
        rows.sort_by(|a, b| a.0.cmp(b.0))?;
        Ok(rows)
    }

    /// Tables with the same rows.
    pub fn copy(&self) -> Result<Tables, Memory>
        ensures { IfOk result (λ copy. copy ≡ self.now) }
    {
        self.duplicate(*self.shards.allocator())
    }

    /// The sixteen shards, in the order of their numbers. No memory.
    pub fn split(self) -> Vec<Shard>
        ensures whole { IsWhole result.items }
        ensures together { joined result.items ≡ self }
        ensures each { (q : Name) → at_home result.items q ≡ fin.get self q }
    {
        self.shards
    }

    /// The tables that sixteen shards are together. No memory.
    pub fn gather(shards: Vec<Shard>) -> Tables
        requires count { length shards.items ≡ SHARDS }
        requires numbered { AllNumbered shards.items }
        ensures together { result ≡ joined shards.items }
        ensures each { (q : Name) → fin.get result q ≡ at_home shards.items q }
    {
        for shard in &shards {
            shard.owns();
        }
        Tables { shards }
    }
}

impl Duplicate for Tables {
    fn duplicate(&self, alloc: Global) -> Result<Self, Memory> {
        let mut shards = Vec::with_capacity(alloc, self.shards.len())?;
        for shard in &self.shards {
            shards.push(shard.duplicate(alloc)?)?;
        }
        Ok(Tables { shards })
    }
}
