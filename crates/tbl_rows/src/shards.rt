// One shard: the rows of the keys that belong to it.
ghost use Rattle.std.specs.Prelude.{◌≡◌, ◌<◌, ◌++◌, map, IfOk, IfErr, OnOk, OnErr};
ghost use Rattle.std.specs.Option.{option_copied};
ghost use Rattle.std.specs.Map.Iter.{deref_pair};
ghost use Rattle.std.specs.FinMap as fin;
ghost use Rattle.tbl_rows.specs.Hashes.{hash_of};
ghost use Rattle.tbl_rows.specs.Shards.{home, bare, with_row, without_row, IsOwn};
ghost use Rattle.tbl_rows.specs.declared.homes.TheConstants.{SHARDS};

use crate::hashes::hash_of;
use crate::refusals::Refused;
use crate::rows::Rows;
use crate::spents::Spent;
use aria_base::{Duplicate, Key, Memory, Row};
use std::alloc::Global;
use std::marker::Model;

/// A part of the rows: those of the keys that belong to it. A contract sees its number and the map
/// of its rows.
#[derive(Drop)]
pub struct Shard {
    number: u8,
    rows: Rows,
}

impl Model for Shard {
    ghost use Rattle.tbl_rows.specs.Codes.{piece_code};
    ghost use Rattle.tbl_rows.specs.Shards.{Piece, IsShard};

    ghost Value = { Piece };

    ghost coded = { piece_code };

    ghost view = { λ a. record { number = a.number; rows = a.rows } };

    ghost invariant = { λ a. IsShard (record { number = a.number; rows = a.rows }) };
}

impl Shard {
    /// A shard with this number and no rows.
    pub(crate) fn new(alloc: Global, number: u8) -> Result<Shard, Memory>
        requires { number < SHARDS }
        ensures { IfOk result (λ shard. shard ≡ bare number) }
    {
        let rows = Rows::new(alloc)?;
        Ok(Shard { number, rows })
    }

    /// The shard's number.
    pub fn number(&self) -> u8
        ensures number { result ≡ self.now.number }
        ensures below { result < SHARDS }
    {
        self.number
    }

    /// Makes room for so many rows, as far as there is memory.
    pub(crate) fn reserve(&mut self, rows: usize)
        ensures { self.new ≡ self.old }
    {
        self.rows.reserve(rows);
    }

    /// The row at the key of this hash.
    pub(crate) fn get(&self, hash: u64, key: &Key) -> Option<&Row>
        requires { hash ≡ hash_of key.now }
        ensures { option_copied result ≡ fin.get self.now.rows key.now }
    {
        self.rows.get(hash, key)
    }

    /// Sets the row at a key. `Refused` means out of memory.
    pub fn put(&mut self, key: Key, row: Row) -> Result<Spent, Refused>
        requires { home key ≡ self.old.number }
        ensures put { OnOk result (self.new ≡ with_row self.old key row) }
        ensures refused { IfErr result (λ refused. (refused.key ≡ key) × (refused.row ≡ row)) }
        ensures kept { OnErr result (self.new ≡ self.old) }
        ensures number { self.new.number ≡ self.old.number }
        ensures own { IsOwn self.new }
    {
        self.put_at(hash_of(&key), key, row)
    }

    /// Sets the row at a key with this hash. `Refused` means out of memory.
    pub(crate) fn put_at(&mut self, hash: u64, key: Key, row: Row) -> Result<Spent, Refused>
        requires hash { hash ≡ hash_of key }
        requires home { home key ≡ self.old.number }
        ensures put { OnOk result (self.new ≡ with_row self.old key row) }
        ensures refused { IfErr result (λ refused. (refused.key ≡ key) × (refused.row ≡ row)) }
        ensures kept { OnErr result (self.new ≡ self.old) }
        ensures number { self.new.number ≡ self.old.number }
        ensures own { IsOwn self.new }
    {
        let spent = self.rows.put(hash, key, row)?;
        Ok(spent)
    }

    /// Removes the row at a key, and tells whether there was one.
    pub fn delete(&mut self, key: &Key) -> bool
        requires { home key.now ≡ self.old.number }
        ensures found { result ≡ fin.contains_key self.old.rows key.now }
        ensures deleted { self.new ≡ without_row self.old key.now }
        ensures own { IsOwn self.new }
    {
        self.delete_at(hash_of(key), key)
    }

    /// Removes the row at a key with this hash, and tells whether there was one.
    pub(crate) fn delete_at(&mut self, hash: u64, key: &Key) -> bool
        requires hash { hash ≡ hash_of key.now }
        requires home { home key.now ≡ self.old.number }
        ensures found { result ≡ fin.contains_key self.old.rows key.now }
        ensures deleted { self.new ≡ without_row self.old key.now }
        ensures own { IsOwn self.new }
    {
        self.rows.delete(hash, key)
    }

    /// Appends the rows in the order of their keys.
    pub(crate) fn list<'a>(&'a self, out: &mut Vec<(&'a Key, &'a Row)>) -> Result<(), Memory>
        ensures { OnOk result (map deref_pair out.new.items ≡ map deref_pair out.old.items ++ fin.entries self.now.rows) }
    {
        self.rows.list(out)
    }

    /// Takes up, for a caller that has the shard alone, that its keys belong to it.
    pub(crate) fn owns(&self)
        ensures { IsOwn self.now }
    {
        let _ = &self.number;
    }
}

impl Duplicate for Shard {
    fn duplicate(&self, alloc: Global) -> Result<Self, Memory> {
        Ok(Shard {
            number: self.number,
            rows: self.rows.duplicate(alloc)?,
        })
    }
}
