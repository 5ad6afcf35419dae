// The numbers of keys whose places in the hash table are crowded.
ghost use Rattle.std.specs.Prelude.{◌≡◌, OnOk, OnErr};
ghost use Rattle.std.specs.FinMap as fin;

use aria_base::{Key, Memory};
use std::alloc::Global;
use std::collections::BTreeMap;
use std::marker::Model;

/// Numbers of keys in an ordered map, where a look-up takes logarithmic time whatever the keys are. A
/// contract sees the map.
#[derive(Drop)]
pub(crate) struct Ordered {
    map: BTreeMap<Key, u32>,
}

impl Model for Ordered {
    ghost use Rattle.std.specs.FinMap as fin;
    ghost use Rattle.key_numbering.specs.Numbers.{Numbers, numbers_code};

    ghost Value = { Numbers };

    ghost coded = { numbers_code };

    ghost view = { λ a. fin.from_entries a.map.entries };
}

impl Ordered {
    /// No numbers.
    pub(crate) fn new(alloc: Global) -> Ordered
        ensures { result ≡ fin.empty }
    {
        Ordered {
            map: BTreeMap::new(alloc),
        }
    }

    /// The key's number.
    pub(crate) fn get(&self, key: &Key) -> Option<u32>
        ensures { result ≡ fin.get self.now key.now }
    {
        self.map.get(key).copied()
    }

    /// Gives the key this number.
    pub(crate) fn insert(&mut self, key: Key, number: u32) -> Result<(), Memory>
        ensures inserted { OnOk result (self.new ≡ fin.insert self.old key number) }
        ensures kept { OnErr result (self.new ≡ self.old) }
    {
        let _none = self.map.insert(key, number)?;
        Ok(())
    }
}
