// The rows that a run wrote.
ghost use Rattle.std.specs.Prelude.{◌≡◌, ◌++◌, ◌∷◌, [], Some, None, OnOk, OnErr, position, MatchOption};
ghost use Rattle.std.specs.Ordering.{eq_by_cmp};
ghost use Rattle.std.specs.Option.{option_copied};
ghost use Rattle.std.specs.FinMap as fin;
ghost use Rattle.aria_base.specs.Orders.{key_cmp};
ghost use Rattle.batch_rules.specs.Touches.{is_among, keys_of, with_write};
ghost use Rattle.tbl_rows.specs.Hashes.{hash_of};

use crate::bits::{has_bit, with_bit};
use crate::places::{Places, places_with_write};
use crate::reads::make_room;
use crate::searches::place_of;
use aria_base::{Key, Memory, Row};
use std::alloc::Global;
use std::marker::Model;

/// How many writes there is room for from the first one on. One is wider than a cache line.
const FIRST_ROOM: usize = 4;

/// Writes in the order of first writes, each with its last row or absence. A contract sees the list of
/// them. Their hashes' bits spare a search for nearly every key that is not there, while the writes are
/// few; the places of many are kept.
#[derive(Drop)]
pub(crate) struct Writes {
    rows: Vec<(Key, Option<Row>)>,
    bits: u128,
    places: Option<Places>,
}

impl Model for Writes {
    ghost use Rattle.tbl_snapshot.specs.Layers.{Buffer, buffer_code};
    ghost use Rattle.batch_rules.specs.Touches.{keys_of};
    ghost use Rattle.std.specs.Option.{IfSome};
    ghost use Rattle.tbl_snapshot.specs.Marks.{AllMarked};
    ghost use Rattle.tbl_snapshot.specs.Places.{HasPlaces};

    ghost Value = { Buffer };

    ghost coded = { buffer_code };

    ghost view = { λ a. a.rows.items };

    ghost invariant = { λ a. AllMarked a.bits (keys_of a.rows.items) × IfSome a.places (HasPlaces (keys_of a.rows.items)) };
}

impl Writes {
    /// No writes.
    pub(crate) fn new(alloc: Global) -> Writes
        ensures { result ≡ [] }
    {
        Writes {
            rows: Vec::new(alloc),
            bits: 0,
            places: None,
        }
    }

    /// The place of a key's write.
    fn place(&self, hash: u64, key: &Key) -> Option<usize>
        requires { hash ≡ hash_of key.now }
        ensures { MatchOption result (fin.find key_cmp key.now self.now ≡ None) (λ i. position (λ w. eq_by_cmp key_cmp key.now w.0) self.now ≡ Some i) }
    {
        if !has_bit(self.bits, hash) {
            return None;
        }
        match &self.places {
            Some(places) => places.get(key),
            None => place_of(&self.rows, key),
        }
    }

    /// What was written at the key of this hash.
    pub(crate) fn find(&self, hash: u64, key: &Key) -> Option<&Option<Row>>
        requires { hash ≡ hash_of key.now }
        ensures { option_copied result ≡ fin.find key_cmp key.now self.now }
    {
        match self.place(hash, key) {
            Some(place) => Some(&self.rows[place].1),
            None => None,
        }
    }

    /// Whether the key of this hash is written.
    pub(crate) fn has(&self, hash: u64, key: &Key) -> bool
        requires { hash ≡ hash_of key.now }
        ensures { result ≡ is_among key_cmp (keys_of self.now) key.now }
    {
        match self.place(hash, key) {
            Some(_) => true,
            None => false,
        }
    }

    /// Sets what is written at the key of this hash.
    pub(crate) fn set(
        &mut self,
        alloc: Global,
        hash: u64,
        key: Key,
        row: Option<Row>,
    ) -> Result<(), Memory>
        requires { hash ≡ hash_of key }
        ensures written { OnOk result (self.new ≡ with_write key_cmp self.old key row) }
        ensures kept { OnErr result (self.new ≡ self.old) }
    {
        match self.place(hash, &key) {
            Some(place) => {
                self.rows[place].1 = row;
                drop(key);
            }
            None => self.add(alloc, hash, key, row)?,
        }
        Ok(())
    }

    /// Adds a write at the end.
    fn add(&mut self, alloc: Global, hash: u64, key: Key, row: Option<Row>) -> Result<(), Memory>
        requires { hash ≡ hash_of key }
        ensures added { OnOk result (self.new ≡ self.old ++ (key, row) ∷ []) }
        ensures kept { OnErr result (self.new ≡ self.old) }
    {
        make_room(&mut self.rows, FIRST_ROOM)?;
        let places = places_with_write(alloc, self.places.take(), self.rows.as_slice(), &key)?;
        self.rows.push((key, row))?;
        self.bits = with_bit(self.bits, hash);
        self.places = places;
        Ok(())
    }

    /// The writes.
    pub(crate) fn rows(&self) -> &[(Key, Option<Row>)]
        ensures { result.now ≡ self.now }
    {
        self.rows.as_slice()
    }

    /// The writes by value.
    pub(crate) fn into_rows(self) -> Vec<(Key, Option<Row>)>
        ensures { result.items ≡ self }
    {
        self.rows
    }
}
