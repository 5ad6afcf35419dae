// Where the numbers of keys are kept.
ghost use Rattle.std.specs.Prelude.{◌≡◌, None, OnOk, OnErr};
ghost use Rattle.std.specs.FinMap as fin;

use crate::hashed::Hashed;
use crate::ordered::Ordered;
use aria_base::{Key, Memory};
use std::alloc::Global;
use std::marker::Model;

/// Numbers of keys in a hash table, and in an ordered map where the table is crowded: nearly always a
/// look-up looks into the table alone. With keys that somebody chose against the hash it compares those
/// of one stretch of the table, at most 176, before it goes on in the ordered map. A contract sees the map
/// of all.
#[derive(Drop)]
pub(crate) struct Places {
    hashed: Hashed,
    ordered: Ordered,
}

impl Model for Places {
    ghost use Rattle.key_numbering.specs.Numbers.{Numbers, numbers_code};
    ghost use Rattle.key_numbering.specs.Beside.{beside, IsApart};

    ghost Value = { Numbers };

    ghost coded = { numbers_code };

    ghost view = { λ a. beside a.hashed a.ordered };

    ghost invariant = { λ a. IsApart a.hashed a.ordered };
}

impl Places {
    /// No numbers. Those to come stand in the ordered map alone where the table is closed.
    pub(crate) fn new(alloc: Global, closed: bool) -> Places
        ensures { result ≡ fin.empty }
    {
        Places {
            hashed: Hashed::new(alloc, closed),
            ordered: Ordered::new(alloc),
        }
    }

    /// The key's number.
    pub(crate) fn get(&self, key: &Key) -> Option<u32>
        ensures { result ≡ fin.get self.now key.now }
    {
        match self.hashed.get(key) {
            Some(number) => Some(number),
            None => self.ordered.get(key),
        }
    }

    /// Gives a new key this number.
    pub(crate) fn put(&mut self, key: Key, number: u32) -> Result<(), Memory>
        requires { fin.get self.old key ≡ None }
        ensures put { OnOk result (self.new ≡ fin.insert self.old key number) }
        ensures kept { OnErr result (self.new ≡ self.old) }
    {
        if self.hashed.admits(&key)? {
            self.hashed.insert(key, number)?;
            return Ok(());
        }
        self.ordered.insert(key, number)?;
        Ok(())
    }
}
