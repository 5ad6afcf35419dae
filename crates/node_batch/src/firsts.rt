// The least earlier holders of each request of a batch, at one node.
ghost use Rattle.std.specs.Prelude.{◌≡◌, ◌<◌, ◌+◌, ◌-◌, ◌^◌, ◌++◌, ◌∷◌, [], None, List, map, length, IfOk, OnOk};
ghost use Rattle.std.specs.Ordering.{eq_by_cmp};
ghost use Rattle.aria_base.specs.Orders.{key_cmp, Cells};
ghost use Rattle.aria_base.specs.declared.keys.Key.{Key as Name};
ghost use Rattle.batch_rules.specs.Touches.{is_among, keys_of};
ghost use Rattle.node_rules.specs.Dues.{lesser, by_sets, holders_on};
ghost use Rattle.node_rules.specs.Messages.{Sets};
ghost use Rattle.node_batch.specs.Firsts.{first_in, or_first, least_told, reads_in, writes_in, Knows, holders_behind};
ghost use Rattle.node_batch.specs.Letters.{sets_of, holders_of};

use crate::letters::{Least, Part};
use aria_base::{Duplicate, Key, Memory, Row};
use std::alloc::Global;
use std::collections::BTreeMap;

/// The first TID that was noted at each key. It is found in logarithmic time.
#[derive(Drop)]
pub struct Firsts {
    map: BTreeMap<Key, u32>,
}

impl Firsts {
    /// Nothing was noted.
    fn new(alloc: Global) -> Firsts
        ensures { (key : Name) → first_in result key ≡ None }
    {
        Firsts {
            map: BTreeMap::new(alloc),
        }
    }

    /// The first TID at the key.
    fn get(&self, key: &Key) -> Option<u32>
        ensures { result ≡ first_in self.now key.now }
    {
        match self.map.get(key) {
            Some(tid) => Some(*tid),
            None => None,
        }
    }

    /// Notes the TID at the key, where none was noted.
    fn note(&mut self, alloc: Global, key: &Key, tid: u32) -> Result<(), Memory>
        ensures { OnOk result ((q : Name) → first_in self.new q ≡ or_first (first_in self.old q) (eq_by_cmp key_cmp q key.now) tid) }
    {
        if self.get(key).is_some() {
            return Ok(());
        }
        self.map.insert(key.duplicate(alloc)?, tid)?;
        Ok(())
    }
}

/// The lesser of two.
pub fn lesser_of(a: Option<u32>, b: Option<u32>) -> Option<u32>
    ensures { result ≡ lesser a b }
{
    match (a, b) {
        (None, other) => other,
        (Some(t), None) => Some(t),
        (Some(t), Some(u)) => Some(t.min(u)),
    }
}

/// The least TID at these keys.
fn least_of_keys(firsts: &Firsts, keys: &[Key]) -> Option<u32>
    ensures { result ≡ least_told (first_in firsts.now) None keys.now }
{
    let mut least = None;
    for key in keys {
        least = lesser_of(least, firsts.get(key));
    }
    least
}

/// The least TID at the keys of these rows.
fn least_of_rows(firsts: &Firsts, rows: &[(Key, Option<Row>)]) -> Option<u32>
    ensures { result ≡ least_told (first_in firsts.now) None (keys_of rows.now) }
{
    let mut least = None;
    for row in rows {
        least = lesser_of(least, firsts.get(&row.0));
    }
    least
}

/// Notes the TID at each of these keys.
fn note_keys(alloc: Global, firsts: &mut Firsts, keys: &[Key], tid: u32) -> Result<(), Memory>
    ensures { OnOk result ((q : Name) → first_in firsts.new q ≡ or_first (first_in firsts.old q) (is_among key_cmp keys.now q) tid) }
{
    for key in keys {
        firsts.note(alloc, key, tid)?;
    }
    Ok(())
}

/// Notes the TID at the key of each of these rows.
fn note_rows(
    alloc: Global,
    firsts: &mut Firsts,
    rows: &[(Key, Option<Row>)],
    tid: u32,
) -> Result<(), Memory>
    ensures { OnOk result ((q : Name) → first_in firsts.new q ≡ or_first (first_in firsts.old q) (is_among key_cmp (keys_of rows.now) q) tid) }
{
    for row in rows {
        firsts.note(alloc, &row.0, tid)?;
    }
    Ok(())
}

/// The least earlier holders of each request, by the parts of their sets, in the order of the list.
pub fn leasts(alloc: Global, parts: &[Part]) -> Result<Vec<Least>, Memory>
    requires { length parts.now < 2 ^ 32 - 1 }
    ensures { IfOk result (λ leasts. map holders_of leasts.items ≡ holders_behind [] (map sets_of parts.now)) }
{
    let mut leasts = Vec::with_capacity(alloc, parts.len())?;
    let mut writers = Firsts::new(alloc);
    let mut readers = Firsts::new(alloc);
    for place in 0..parts.len() {
        let part = &parts[place];
        let tid = place as u32 + 1;
        leasts.push(least_behind(&writers, &readers, part))?;
        note_rows(alloc, &mut writers, part.rows.as_slice(), tid)?;
        note_keys(alloc, &mut readers, part.reads.as_slice(), tid)?;
    }
    Ok(leasts)
}

/// The least earlier holders of one request.
fn least_behind(writers: &Firsts, readers: &Firsts, part: &Part) -> Least
    ensures { (earlier : List (Sets Name Cells)) → Knows writes_in earlier writers.now → Knows reads_in earlier readers.now
        → holders_of result ≡ holders_on (by_sets key_cmp) earlier (sets_of part.now) }
{
    Least {
        waw: least_of_rows(writers, part.rows.as_slice()),
        raw: least_of_keys(writers, part.reads.as_slice()),
        war: least_of_rows(readers, part.rows.as_slice()),
    }
}
