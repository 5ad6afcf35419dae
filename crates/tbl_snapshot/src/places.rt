// Where the keys of a long list stand, so that it is not searched from its front.
ghost use Rattle.std.specs.Prelude.{◌≡◌, ◌++◌, ◌∷◌, [], List, length, IfOk, OnOk};
ghost use Rattle.std.specs.Option.{IfSome};
ghost use Rattle.aria_base.specs.declared.keys.Key.{Key as Name};
ghost use Rattle.batch_rules.specs.Touches.{keys_of};
ghost use Rattle.tbl_snapshot.specs.Places.{place_in, HasPlaces};

use aria_base::{Duplicate, Key, Memory, Row};
use std::alloc::Global;
use std::collections::BTreeMap;

/// How many keys a list has that is searched from its front: so many are compared sooner than a map is
/// kept.
pub(crate) const FEW: usize = 64;

/// The place of each key of a list, which is found in logarithmic time whatever the keys are.
#[derive(Drop)]
pub(crate) struct Places {
    map: BTreeMap<Key, usize>,
}

impl Places {
    /// Of no keys.
    pub(crate) fn new(alloc: Global) -> Places
        ensures { HasPlaces [] result }
    {
        Places {
            map: BTreeMap::new(alloc),
        }
    }

    /// The place of the key.
    pub(crate) fn get(&self, key: &Key) -> Option<usize>
        ensures { result ≡ place_in self.now key.now }
    {
        self.map.get(key).copied()
    }

    /// With one more key behind those of a list of this length. Nothing changes where it is in the list
    /// already.
    fn append(&mut self, alloc: Global, key: &Key, place: usize) -> Result<(), Memory>
        ensures { OnOk result ((keys : List Name) → length keys ≡ place → HasPlaces keys self.old → HasPlaces (keys ++ key.now ∷ []) self.new) }
    {
        if self.map.contains_key(key) {
            return Ok(());
        }
        self.map.insert(key.duplicate(alloc)?, place)?;
        Ok(())
    }

    /// Of the keys of a list.
    fn of_keys(alloc: Global, keys: &[Key]) -> Result<Places, Memory>
        ensures { IfOk result (λ places. HasPlaces keys.now places) }
    {
        let mut places = Places::new(alloc);
        for place in 0..keys.len() {
            places.append(alloc, &keys[place], place)?;
        }
        Ok(places)
    }

    /// Of the keys of a list of writes.
    fn of_writes(alloc: Global, writes: &[(Key, Option<Row>)]) -> Result<Places, Memory>
        ensures { IfOk result (λ places. HasPlaces (keys_of writes.now) places) }
    {
        let mut places = Places::new(alloc);
        for place in 0..writes.len() {
            places.append(alloc, &writes[place].0, place)?;
        }
        Ok(places)
    }
}

/// The places of a list with one more key behind it, where the list is then long. They were those of
/// the list or are made now.
pub(crate) fn places_with(
    alloc: Global,
    places: Option<Places>,
    keys: &[Key],
    key: &Key,
) -> Result<Option<Places>, Memory>
    requires { IfSome places (HasPlaces keys.now) }
    ensures { IfOk result (λ places. IfSome places (HasPlaces (keys.now ++ key.now ∷ []))) }
{
    if keys.len() < FEW {
        return Ok(None);
    }
    let mut all = match places {
        Some(all) => all,
        None => Places::of_keys(alloc, keys)?,
    };
    all.append(alloc, key, keys.len())?;
    Ok(Some(all))
}

/// As [`places_with`], of a list of writes.
pub(crate) fn places_with_write(
    alloc: Global,
    places: Option<Places>,
    writes: &[(Key, Option<Row>)],
    key: &Key,
) -> Result<Option<Places>, Memory>
    requires { IfSome places (HasPlaces (keys_of writes.now)) }
    ensures { IfOk result (λ places. IfSome places (HasPlaces (keys_of writes.now ++ key.now ∷ []))) }
{
    if writes.len() < FEW {
        return Ok(None);
    }
    let mut all = match places {
        Some(all) => all,
        None => Places::of_writes(alloc, writes)?,
    };
    all.append(alloc, key, writes.len())?;
    Ok(Some(all))
}
