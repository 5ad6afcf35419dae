// The two tables of last waves: by keys, and by the numbers of keys.
ghost use Rattle.std.specs.Prelude.{◌≡◌, ◌<◌, ℕ, length, IfOk};
ghost use Rattle.std.specs.BTreeMap as tree;
ghost use Rattle.fallback_locks.specs.LastWaves.{last_in, last_at};
ghost use Rattle.aria_base.specs.declared.keys.Key.{Key as Name};

use crate::lasts::{Last, Table};
use aria_base::{Duplicate, Key, Memory};
use std::alloc::Global;
use std::collections::BTreeMap;

/// The last waves by keys. No keys that a stranger may choose make it slow.
#[derive(Drop)]
pub(crate) struct ByKey {
    alloc: Global,
    lasts: BTreeMap<Key, Last>,
}

impl ByKey {
    /// No key is touched.
    pub(crate) fn new(alloc: Global) -> ByKey
        ensures { (q : Name) → last_in result.lasts q ≡ record { reader = 0; writer = 0 } }
    {
        ByKey {
            alloc,
            lasts: BTreeMap::new(alloc),
        }
    }
}

impl Table for ByKey {
    ghost use Rattle.aria_base.specs.Orders.{key_cmp};

    type Key = Key;

    ghost order = { key_cmp };

    ghost holds = { λ _ _. Unit };

    ghost last = { λ t. last_in t.lasts };

    fn last_of(&self, key: &Key) -> Last {
        match self.lasts.get(key) {
            Some(last) => *last,
            None => Last::none(),
        }
    }

    fn note_read(&mut self, key: &Key, wave: u32) -> Result<(), Memory> {
        let next = self.last_of(key).read_in(wave);
        self.lasts.insert(key.duplicate(self.alloc)?, next)?;
        Ok(())
    }

    fn note_write(&mut self, key: &Key, wave: u32) -> Result<(), Memory> {
        let next = self.last_of(key).written_in(wave);
        self.lasts.insert(key.duplicate(self.alloc)?, next)?;
        Ok(())
    }
}

/// The last waves by the numbers of keys, each at its number.
#[derive(Drop)]
pub(crate) struct ByNumber {
    lasts: Vec<Last>,
}

impl ByNumber {
    /// Of so many keys none is touched.
    pub(crate) fn new(alloc: Global, keys: u32) -> Result<ByNumber, Memory>
        ensures length { IfOk result (λ t. length t.lasts.items ≡ keys) }
        ensures none { IfOk result (λ t. (q : ℕ) → last_at t.lasts.items q ≡ record { reader = 0; writer = 0 }) }
    {
        Ok(ByNumber {
            lasts: Vec::from_elem(alloc, Last::none(), keys as usize)?,
        })
    }
}

impl Table for ByNumber {
    ghost use Rattle.std.specs.Ordering.{nat_cmp};

    type Key = u32;

    ghost order = { nat_cmp };

    ghost holds = { λ t q. q < length t.lasts.items };

    ghost last = { λ t. last_at t.lasts.items };

    fn last_of(&self, number: &u32) -> Last {
        self.lasts[*number as usize]
    }

    fn note_read(&mut self, number: &u32, wave: u32) -> Result<(), Memory> {
        let next = self.last_of(number).read_in(wave);
        self.lasts[*number as usize] = next;
        Ok(())
    }

    fn note_write(&mut self, number: &u32, wave: u32) -> Result<(), Memory> {
        let next = self.last_of(number).written_in(wave);
        self.lasts[*number as usize] = next;
        Ok(())
    }
}
