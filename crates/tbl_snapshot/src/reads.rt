// The keys that a run read.
ghost use Rattle.std.specs.Prelude.{◌≡◌, ◌++◌, ◌∷◌, [], OnOk, OnErr};
ghost use Rattle.aria_base.specs.Orders.{key_cmp};
ghost use Rattle.batch_rules.specs.Touches.{is_among};
ghost use Rattle.tbl_rows.specs.Hashes.{hash_of};

use crate::bits::{has_bit, with_bit};
use crate::places::{Places, places_with};
use aria_base::{Key, Memory, contains_key};
use std::alloc::{AllocError, Global};
use std::marker::Model;

/// How many keys there is room for from the first one on.
const FIRST_ROOM: usize = 8;

/// Keys in the order of their first reads. A contract sees the list of them. Their hashes' bits spare a
/// search for nearly every key that is not there, while the keys are few; the places of many keys are kept.
#[derive(Drop)]
pub(crate) struct Reads {
    keys: Vec<Key>,
    bits: u128,
    places: Option<Places>,
}

impl Model for Reads {
    ghost use Rattle.std.specs.Prelude.{List};
    ghost use Rattle.aria_base.specs.declared.keys.Key.{Key as Name};
    ghost use Rattle.std.specs.Option.{IfSome};
    ghost use Rattle.tbl_snapshot.specs.Marks.{AllMarked};
    ghost use Rattle.tbl_snapshot.specs.Places.{HasPlaces};

    ghost Value = { List Name };

    ghost view = { λ a. a.keys.items };

    ghost invariant = { λ a. AllMarked a.bits a.keys.items × IfSome a.places (HasPlaces a.keys.items) };
}

impl Reads {
    /// No keys.
    pub(crate) fn new(alloc: Global) -> Reads
        ensures { result ≡ [] }
    {
        Reads {
            keys: Vec::new(alloc),
            bits: 0,
            places: None,
        }
    }

    /// Whether the key of this hash is one of them.
    #[tactic(auto, using(crate::proofs::Marked::not_among))]
    pub(crate) fn has(&self, hash: u64, key: &Key) -> bool
        requires { hash ≡ hash_of key.now }
        ensures { result ≡ is_among key_cmp self.now key.now }
    {
        if !has_bit(self.bits, hash) {
            return false;
        }
        match &self.places {
            Some(places) => places.get(key).is_some(),
            None => contains_key(self.keys.as_slice(), key),
        }
    }

    /// Adds the key of this hash.
    pub(crate) fn add(&mut self, alloc: Global, hash: u64, key: Key) -> Result<(), Memory>
        requires { hash ≡ hash_of key }
        ensures added { OnOk result (self.new ≡ self.old ++ key ∷ []) }
        ensures kept { OnErr result (self.new ≡ self.old) }
    {
        make_room(&mut self.keys, FIRST_ROOM)?;
        let places = places_with(alloc, self.places.take(), self.keys.as_slice(), &key)?;
        self.keys.push(key)?;
        self.bits = with_bit(self.bits, hash);
        self.places = places;
        Ok(())
    }

    /// The keys by value.
    pub(crate) fn into_keys(self) -> Vec<Key>
        ensures { result.items ≡ self }
    {
        self.keys
    }
}

/// Makes room for the first few at once: so many.
pub(crate) fn make_room<T>(list: &mut Vec<T>, room: usize) -> Result<(), AllocError>
    ensures { list.new.items ≡ list.old.items }
{
    if 0 < list.capacity() {
        return Ok(());
    }
    list.reserve(room)
}
