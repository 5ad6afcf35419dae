// Rows in the order of their keys.
ghost use Rattle.std.specs.Prelude.{◌≡◌, ◌++◌, map, IfOk, IfErr, OnOk, OnErr};
ghost use Rattle.std.specs.Option.{option_copied};
ghost use Rattle.std.specs.Map.Iter.{deref_pair};
ghost use Rattle.std.specs.FinMap as fin;

use crate::refusals::Refused;
use crate::spents::Spent;
use aria_base::{Duplicate, Items, Key, Memory, Row};
use std::alloc::Global;
use std::collections::BTreeMap;
use std::marker::Model;

/// Rows in an ordered map, where a search takes logarithmic time whatever the keys are. A contract sees
/// the map of them. A shard's rows that found their bucket crowded stand in one.
#[derive(Drop)]
pub struct SortedRows {
    rows: BTreeMap<Key, Row>,
}

impl Model for SortedRows {
    ghost use Rattle.std.specs.FinMap as fin;
    ghost use Rattle.aria_base.specs.Orders.{Database};
    ghost use Rattle.aria_base.specs.Codes.{database_code};

    ghost Value = { Database };

    ghost coded = { database_code };

    ghost view = { λ a. fin.from_entries a.rows.entries };
}

impl SortedRows {
    /// No rows.
    pub fn new(alloc: Global) -> SortedRows
        ensures { result ≡ fin.empty }
    {
        SortedRows {
            rows: BTreeMap::new(alloc),
        }
    }

    /// The row at a key.
    pub fn get(&self, key: &Key) -> Option<&Row>
        ensures { option_copied result ≡ fin.get self.now key.now }
    {
        self.rows.get(key)
    }

    /// Sets the row at a key. `Refused` means out of memory.
    pub fn put(&mut self, key: Key, row: Row) -> Result<Spent, Refused>
        ensures put { OnOk result (self.new ≡ fin.insert self.old key row) }
        ensures refused { IfErr result (λ refused. (refused.key ≡ key) × (refused.row ≡ row)) }
        ensures kept { OnErr result (self.new ≡ self.old) }
    {
        match self.rows.insert(key, row) {
            Ok(row) => Ok(Spent::of_row(row)),
            Err(failed) => {
                let (key, row) = failed.value;
                Err(Refused { key, row })
            }
        }
    }

    /// Removes the row at a key, and tells whether there was one.
    pub fn delete(&mut self, key: &Key) -> bool
        ensures found { result ≡ fin.contains_key self.old key.now }
        ensures deleted { self.new ≡ fin.remove self.old key.now }
    {
        self.rows.remove(key).is_some()
    }

    /// Appends the rows in the order of their keys.
    pub(crate) fn list<'a>(&'a self, out: &mut Vec<(&'a Key, &'a Row)>) -> Result<(), Memory>
        ensures { OnOk result (map deref_pair out.new.items ≡ map deref_pair out.old.items ++ fin.entries self.now) }
    {
        for (key, row) in &self.rows {
            out.push((key, row))?;
        }
        Ok(())
    }

    /// The rows with their keys, in order. An error: there was no memory.
    pub fn into_pairs(self, alloc: Global) -> Result<Items<(Key, Row)>, Memory>
        ensures { IfOk result (λ pairs. pairs ≡ fin.entries self) }
    {
        let mut pairs = Vec::new(alloc);
        for (key, row) in self.rows {
            pairs.push((key, row))?;
        }
        Ok(Items::from_vec(pairs))
    }
}

impl Duplicate for SortedRows {
    fn duplicate(&self, alloc: Global) -> Result<Self, Memory> {
        let mut rows = BTreeMap::new(alloc);
        for (key, row) in &self.rows {
            rows.insert(key.duplicate(alloc)?, row.duplicate(alloc)?)?;
        }
        Ok(SortedRows { rows })
    }
}
