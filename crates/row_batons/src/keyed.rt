// Keys that get numbers as they come.
ghost use Rattle.std.specs.Prelude.{◌≡◌, ◌++◌, ◌∷◌, [], map, IfOk, OnOk};
ghost use Rattle.std.specs.FinMap as fin;
ghost use Rattle.key_numbering.specs.Numbers.{with_key, with_keys, number_in};
ghost use Rattle.row_batons.specs.Numbers.{with_waiting, read_numbers, write_numbers};

use crate::numbers::Numbers;
use aria_base::{Duplicate, Key, Memory};
use baton_crew::Lists;
use proc_exec::Waiting;
use std::alloc::Global;
use std::collections::BTreeMap;
use std::marker::Model;

/// Keys with their numbers, which are those below the count of the keys. A contract sees the map.
#[derive(Drop)]
struct Keyed {
    map: BTreeMap<Key, usize>,
}

impl Model for Keyed {
    ghost use Rattle.std.specs.FinMap as fin;
    ghost use Rattle.key_numbering.specs.Numbers.{Numbers, numbers_code};

    ghost Value = { Numbers };

    ghost coded = { numbers_code };

    ghost view = { λ a. fin.from_entries a.map.entries };
}

impl Keyed {
    /// No keys.
    fn new(alloc: Global) -> Keyed
        ensures { result ≡ fin.empty }
    {
        Keyed {
            map: BTreeMap::new(alloc),
        }
    }

    /// How many keys there are.
    fn len(&self) -> usize
        ensures { result ≡ fin.len self.now }
    {
        self.map.len()
    }

    /// The key's number.
    fn get(&self, key: &Key) -> Option<usize>
        ensures { result ≡ fin.get self.now key.now }
    {
        self.map.get(key).copied()
    }

    /// Gives the key this number.
    fn insert(&mut self, key: Key, number: usize) -> Result<(), Memory>
        ensures { OnOk result (self.new ≡ fin.insert self.old key number) }
    {
        let _none = self.map.insert(key, number)?;
        Ok(())
    }

    /// The number of this key, which gets the next one if it has none.
    fn number_of(&mut self, alloc: Global, key: &Key) -> Result<usize, Memory>
        ensures keys { OnOk result (self.new ≡ with_key self.old key.now) }
        ensures number { IfOk result (λ n. n ≡ number_in (with_key self.old key.now) key.now) }
    {
        match self.get(key) {
            Some(number) => Ok(number),
            None => self.add_key(alloc, key),
        }
    }

    /// Gives a new key the next number.
    fn add_key(&mut self, alloc: Global, key: &Key) -> Result<usize, Memory>
        ensures keys { OnOk result (self.new ≡ fin.insert self.old key.now (fin.len self.old)) }
        ensures number { IfOk result (λ n. n ≡ fin.len self.old) }
    {
        let number = self.len();
        self.insert(key.duplicate(alloc)?, number)?;
        Ok(number)
    }

    /// Adds the numbers of the keys as a list, by way of a list that is overwritten.
    fn add(
        &mut self,
        alloc: Global,
        lists: &mut Lists<usize>,
        list: &mut Vec<usize>,
        keys: &[Key],
    ) -> Result<(), Memory>
        ensures keys { OnOk result (self.new ≡ with_keys self.old keys.now) }
        ensures list { OnOk result (lists.new ≡ lists.old ++ map (number_in (with_keys self.old keys.now)) keys.now ∷ []) }
    {
        list.clear();
        self.append(alloc, list, keys)?;
        lists.push(list.as_slice())
    }

    /// Appends the numbers of the keys.
    fn append(&mut self, alloc: Global, list: &mut Vec<usize>, keys: &[Key]) -> Result<(), Memory>
        ensures keys { OnOk result (self.new ≡ with_keys self.old keys.now) }
        ensures list { OnOk result (list.new.items ≡ list.old.items ++ map (number_in (with_keys self.old keys.now)) keys.now) }
    {
        for key in keys {
            list.push(self.number_of(alloc, key)?)?;
        }
        Ok(())
    }
}

/// The keys that the requests declare get numbers in the order in which they come.
pub(crate) fn numbers_of(alloc: Global, waiting: &[Waiting]) -> Result<Numbers, Memory>
    ensures reads { IfOk result (λ numbers. numbers.reads ≡ read_numbers (with_waiting fin.empty waiting.now) waiting.now) }
    ensures writes { IfOk result (λ numbers. numbers.writes ≡ write_numbers (with_waiting fin.empty waiting.now) waiting.now) }
    ensures keys { IfOk result (λ numbers. numbers.keys ≡ fin.len (with_waiting fin.empty waiting.now)) }
{
    let mut keyed = Keyed::new(alloc);
    let mut reads = Lists::with_capacity(alloc, waiting.len())?;
    let mut writes = Lists::with_capacity(alloc, waiting.len())?;
    let mut list = Vec::new(alloc);
    for one in waiting {
        keyed.add(alloc, &mut reads, &mut list, one.declared.reads.as_slice())?;
        keyed.add(
            alloc,
            &mut writes,
            &mut list,
            one.declared.writes.as_slice(),
        )?;
    }
    Ok(Numbers {
        reads,
        writes,
        keys: keyed.len(),
    })
}
