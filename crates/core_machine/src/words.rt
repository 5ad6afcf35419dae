// Reservation words of keys.
ghost use Rattle.std.specs.Prelude.{◌≡◌, ◌-◌, ◌^◌, Some, OnOk};
ghost use Rattle.aria_base.specs.Orders.{key_cmp};
ghost use Rattle.aria_base.specs.declared.keys.Key.{Key as Name};
ghost use Rattle.core_machine.specs.Machines.{marked};
ghost use Rattle.core_machine.specs.Words.{word_in};

use aria_base::{Duplicate, Key, Memory};
use std::alloc::Global;
use std::collections::BTreeMap;

/// A reservation word for each key, which is the greatest one until the key is marked. It is found in
/// logarithmic time.
#[derive(Drop)]
pub(crate) struct Words {
    map: BTreeMap<Key, u64>,
}

impl Words {
    /// The words of keys of which none was marked.
    pub(crate) fn new(alloc: Global) -> Words
        ensures { (key : Name) → word_in result key ≡ 2 ^ 64 - 1 }
    {
        Words {
            map: BTreeMap::new(alloc),
        }
    }

    /// The word of the key.
    pub(crate) fn get(&self, key: &Key) -> u64
        ensures { result ≡ word_in self.now key.now }
    {
        match self.map.get(key) {
            Some(word) => *word,
            None => u64::MAX,
        }
    }

    /// Marks the key with this number: its word is the lesser of the two after it.
    pub(crate) fn mark(&mut self, alloc: Global, key: &Key, number: u64) -> Result<(), Memory>
        ensures { OnOk result ((q : Name) → word_in self.new q ≡ marked key_cmp (word_in self.old) (Some key.now) number q) }
    {
        if self.get(key) <= number {
            return Ok(());
        }
        self.map.insert(key.duplicate(alloc)?, number)?;
        Ok(())
    }
}
