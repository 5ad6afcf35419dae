// Keys that keep their numbers.
ghost use Rattle.std.specs.Prelude.{◌≡◌, ◌≤◌, ◌<◌, nat_lt, None, IfOk, OnOk};
ghost use Rattle.std.specs.FinMap as fin;
ghost use Rattle.key_numbering.specs.Numbers.{AreNumbers, number_in, with_key};
ghost use Rattle.key_numbering.specs.declared.kept.TheConstants.{MOST_KEPT, MOST_KEYS};

use crate::places::Places;
use aria_base::{Duplicate, Key, Memory};
use std::alloc::Global;
use std::marker::Model;

/// How many kept keys a batch may find at most.
pub const MOST_KEPT: u32 = 1_000_000;

/// How many keys the requests of a batch touch at most.
pub const MOST_TOUCHED: u32 = 2_560_000;

/// How many keys have numbers at most.
pub(crate) const MOST_KEYS: u32 = MOST_KEPT + MOST_TOUCHED;

/// The keys that batches have touched, each with its number. The numbers are those below the count of
/// the keys. A contract sees the map from the keys to their numbers.
#[derive(Drop)]
pub struct Kept {
    alloc: Global,
    places: Places,
    len: u32,
}

impl Model for Kept {
    ghost use Rattle.std.specs.Prelude.{◌≡◌};
    ghost use Rattle.std.specs.FinMap as fin;
    ghost use Rattle.key_numbering.specs.Numbers.{Numbers, AreNumbers, numbers_code};

    ghost Value = { Numbers };

    ghost coded = { numbers_code };

    ghost view = { λ a. a.places };

    ghost invariant = { λ a. (a.len ≡ fin.len a.places) × AreNumbers a.places };
}

impl Kept {
    /// No keys. It grows by this allocator. No memory.
    pub fn new(alloc: Global) -> Kept
        ensures { result ≡ fin.empty }
    {
        Kept::with(alloc, false)
    }

    /// No keys. Those to come are looked up by their order alone where this is asked for.
    pub(crate) fn with(alloc: Global, order_alone: bool) -> Kept
        ensures { result ≡ fin.empty }
    {
        Kept {
            alloc,
            places: Places::new(alloc, order_alone),
            len: 0,
        }
    }

    /// Whether it has more keys than a batch may find. No memory.
    pub fn full(&self) -> bool
        ensures { result ≡ nat_lt MOST_KEPT (fin.len self.now) }
    {
        self.len > MOST_KEPT
    }

    /// The allocator by which it grows.
    pub(crate) fn allocator(&self) -> Global {
        self.alloc
    }

    /// How many keys there are.
    pub(crate) fn len(&self) -> u32
        ensures len { result ≡ fin.len self.now }
        ensures numbers { AreNumbers self.now }
    {
        self.len
    }

    /// The key's number.
    pub(crate) fn get(&self, key: &Key) -> Option<u32>
        ensures { result ≡ fin.get self.now key.now }
    {
        self.places.get(key)
    }

    /// The number of this key, which gets the next one if it has none.
    pub(crate) fn number_of(&mut self, key: &Key) -> Result<u32, Memory>
        requires { fin.len (with_key self.old key.now) ≤ MOST_KEYS }
        ensures kept { OnOk result (self.new ≡ with_key self.old key.now) }
        ensures number { IfOk result (λ n. n ≡ number_in (with_key self.old key.now) key.now) }
    {
        match self.get(key) {
            Some(number) => Ok(number),
            None => self.add(key),
        }
    }

    /// Gives a new key the next number.
    fn add(&mut self, key: &Key) -> Result<u32, Memory>
        requires new { fin.get self.old key.now ≡ None }
        requires count { fin.len self.old < MOST_KEYS }
        ensures kept { OnOk result (self.new ≡ fin.insert self.old key.now (fin.len self.old)) }
        ensures number { IfOk result (λ n. n ≡ fin.len self.old) }
    {
        let number = self.len;
        let key = key.duplicate(self.alloc)?;
        self.places.put(key, number)?;
        self.len = number + 1;
        Ok(number)
    }
}
