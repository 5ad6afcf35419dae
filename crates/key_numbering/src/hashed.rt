// The numbers of keys in a hash table that no choice of keys can crowd.
ghost use Rattle.std.specs.Prelude.{◌≡◌, OnOk, OnErr};
ghost use Rattle.std.specs.FinMap as fin;

use aria_base::{Key, Memory};
use indexmap::IndexMap;
use std::alloc::Global;
use std::hash::BuildHasher;
use std::marker::Model;

/// How many keys the table has for each of its groups at most.
const GROUP_LOAD: usize = 9;

/// How many groups in a row are counted together. A group of the table has twelve places, so that they
/// have room for 192 keys.
const STRETCH: usize = 16;

/// How many keys may belong to a stretch, which has 144 on average at most: fewer than it has room for, so
/// that a stretch takes up what the one before leaves over, and full groups in a row come to an end. By
/// chance some four in a thousand stretches of a full table would have more.
const CROWD: u8 = 176;

/// Numbers of keys in a hash table. A contract sees the map. The hash is no secret, so that keys can
/// be chosen to lie together in the table: how many belong to each stretch of it is counted, so that
/// the next one can be kept out of it. Nothing but time rests on the counts.
#[derive(Drop)]
pub(crate) struct Hashed {
    map: IndexMap<Key, u32>,
    counts: Vec<u8>,
    capacity: usize,
    closed: bool,
}

impl Model for Hashed {
    ghost use Rattle.std.specs.FinMap as fin;
    ghost use Rattle.key_numbering.specs.Numbers.{Numbers, numbers_code};

    ghost Value = { Numbers };

    ghost coded = { numbers_code };

    ghost view = { λ a. fin.from_entries a.map.entries };
}

impl Hashed {
    /// No numbers. It takes none where it is closed.
    pub(crate) fn new(alloc: Global, closed: bool) -> Hashed
        ensures { result ≡ fin.empty }
    {
        Hashed {
            map: IndexMap::new(alloc),
            counts: Vec::new(alloc),
            capacity: 0,
            closed,
        }
    }

    /// The key's number.
    pub(crate) fn get(&self, key: &Key) -> Option<u32>
        ensures { result ≡ fin.get self.now key.now }
    {
        self.map.get(key).copied()
    }

    /// Gives the key this number.
    pub(crate) fn insert(&mut self, key: Key, number: u32) -> Result<(), Memory>
        ensures inserted { OnOk result (self.new ≡ fin.insert self.old key number) }
        ensures kept { OnErr result (self.new ≡ self.old) }
    {
        let _none = self.map.insert(key, number)?;
        Ok(())
    }

    /// Whether the table takes this key, which is counted then.
    pub(crate) fn admits(&mut self, key: &Key) -> Result<bool, Memory>
        ensures { self.new ≡ self.old }
    {
        if self.closed {
            return Ok(false);
        }
        if self.counts.is_empty() || self.map.capacity() != self.capacity {
            self.count_anew()?;
        }
        let stretch = stretch_of(self.map.hasher().hash_one(key), self.counts.len());
        Ok(count_one(&mut self.counts, stretch))
    }

    /// Counts the keys of each stretch of the table as it is now.
    fn count_anew(&mut self) -> Result<(), Memory>
        ensures { self.new ≡ self.old }
    {
        let capacity = self.map.capacity();
        let stretches = (capacity / (GROUP_LOAD * STRETCH)).max(1);
        let mut counts = Vec::from_elem(*self.counts.allocator(), 0_u8, stretches)?;
        for key in self.map.keys() {
            let stretch = stretch_of(self.map.hasher().hash_one(key), stretches);
            let _counted = count_one(&mut counts, stretch);
        }
        self.counts = counts;
        self.capacity = capacity;
        Ok(())
    }
}

/// Counts a key of the stretch, unless that is crowded.
fn count_one(counts: &mut Vec<u8>, stretch: usize) -> bool {
    let Some(count) = counts.get_mut(stretch) else {
        return false;
    };
    if *count >= CROWD {
        return false;
    }
    *count += 1;
    true
}

/// Of so many stretches the one in which a search for a key of this hash begins.
pub(crate) fn stretch_of(hash: u64, stretches: usize) -> usize {
    let word = ((hash ^ (hash >> 32)) & 0xFFFF_FFFF) as u32;
    word as usize / STRETCH % stretches.max(1)
}
