// Keys in order.
ghost use Rattle.std.specs.Prelude.{◌≡◌, if◌then◌else◌, map, is_some, IfOk, OnOk, OnErr};
ghost use Rattle.std.specs.List.{filter};
ghost use Rattle.std.specs.FinMap as fin;
ghost use Rattle.batch_rules.specs.Touches.{keys_of};
ghost use Rattle.range_rules.specs.Scans.{is_under};
ghost use Rattle.range_runs.specs.Indexes.{IsIndexOf, HasExactly, followed};

use crate::leasts::{least_under, see_key};
use aria_base::{Duplicate, Key, Memory, Row};
use range_rules::Prefix;
use std::alloc::Global;
use std::collections::BTreeMap;
use std::marker::Model;
use tbl_rows::Tables;

/// Keys in order, as those of all rows. A contract sees the map that has something at each of them.
#[derive(Drop)]
pub struct Index {
    keys: BTreeMap<Key, ()>,
}

impl Model for Index {
    ghost use Rattle.std.specs.FinMap as fin;
    ghost use Rattle.range_runs.specs.Indexes.{Listed, listed_code, HasKeys};

    ghost Value = { Listed };

    ghost coded = { listed_code };

    ghost view = { λ a. fin.from_entries a.keys.entries };

    ghost invariant = { λ a. HasKeys (fin.from_entries a.keys.entries) };
}

impl Index {
    /// No keys. No memory.
    pub fn new(alloc: Global) -> Index
        ensures { result ≡ fin.empty }
    {
        Index {
            keys: BTreeMap::new(alloc),
        }
    }

    /// The keys of these tables.
    pub fn of(alloc: Global, tables: &Tables) -> Result<Index, Memory>
        ensures { IfOk result (λ index. IsIndexOf index tables.now) }
    {
        let mut index = Index::new(alloc);
        let rows = tables.rows()?;
        for (key, _) in &rows {
            index.add(key.duplicate(alloc)?)?;
        }
        Ok(index)
    }

    /// The keys of these writes, of those too that remove a row.
    pub(crate) fn of_writes(alloc: Global, writes: &[(Key, Option<Row>)]) -> Result<Index, Memory>
        ensures { IfOk result (HasExactly (keys_of writes.now)) }
    {
        let mut index = Index::new(alloc);
        for (key, _) in writes {
            index.add(key.duplicate(alloc)?)?;
        }
        Ok(index)
    }

    /// Adds a key. An error: there was no memory, and nothing has changed.
    pub fn add(&mut self, key: Key) -> Result<(), Memory>
        ensures added { OnOk result (self.new ≡ fin.insert self.old key tt) }
        ensures kept { OnErr result (self.new ≡ self.old) }
    {
        see_key(&key);
        let _none = self.keys.insert(key, ())?;
        Ok(())
    }

    /// Takes a key out. No memory.
    fn remove(&mut self, key: &Key)
        ensures { self.new ≡ fin.remove self.old key.now }
    {
        let _there = self.keys.remove(key);
    }

    /// Whether the key is there. No memory.
    pub fn contains(&self, key: &Key) -> bool
        ensures { result ≡ fin.contains_key self.now key.now }
    {
        self.keys.contains_key(key)
    }

    /// Follows the writes of a work that finished: what they put is there, and what they remove is not.
    /// A write costs a logarithm. An error: there was no memory, and some writes are followed.
    pub fn follow(&mut self, alloc: Global, writes: &[(Key, Option<Row>)]) -> Result<(), Memory>
        ensures { OnOk result (self.new ≡ followed self.old writes.now) }
    {
        let count = writes.len();
        for behind in 0..count {
            let (key, row) = &writes[count - 1 - behind];
            self.follow_one(alloc, key, row.is_some())?;
        }
        Ok(())
    }

    /// Follows one write. A key that is there, and stays, is not copied.
    pub(crate) fn follow_one(&mut self, alloc: Global, key: &Key, put: bool) -> Result<(), Memory>
        ensures { OnOk result (self.new ≡ (if put then fin.insert self.old key.now tt else fin.remove self.old key.now)) }
    {
        if !put {
            self.remove(key);
            return Ok(());
        }
        if self.contains(key) {
            return Ok(());
        }
        self.add(key.duplicate(alloc)?)
    }

    /// The keys under a prefix, in order. It costs what it finds, and a logarithm.
    pub fn under(&self, alloc: Global, prefix: &Prefix) -> Result<Vec<&Key>, Memory>
        ensures { IfOk result (λ keys. map (λ k. k.now) keys.items ≡ filter (is_under prefix.now) (fin.keys self.now)) }
    {
        let least = least_under(alloc, prefix)?;
        let mut keys = Vec::new(alloc);
        for (key, _) in self.keys.range(&least..) {
            if !prefix.covers(key) {
                return Ok(keys);
            }
            keys.push(key)?;
        }
        Ok(keys)
    }
}
