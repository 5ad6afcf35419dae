// The rows that a run reads and writes, and its writes under a prefix.
ghost use Rattle.std.specs.Prelude.{◌≡◌, ◌∷◌, IfOk, OnOk};
ghost use Rattle.std.specs.Option.{IfSome};
ghost use Rattle.std.specs.FinMap as fin;
ghost use Rattle.batch_rules.specs.Plays.{after_read, after_write};
ghost use Rattle.batch_rules.specs.Touches.{keys_of, nothing};
ghost use Rattle.tbl_snapshot.specs.Layers.{seen_of};
ghost use Rattle.range_runs.specs.Indexes.{HasExactly};
ghost use Rattle.range_runs.specs.Windows.{write_under, written_under};

use crate::found::Found;
use crate::indexes::Index;
use aria_base::{Changes, Key, Keys, Memory, Row};
use lent_rows::Lends;
use range_rules::Prefix;
use std::alloc::Global;
use std::marker::Model;
use tbl_rows::hash_of;
use tbl_snapshot::{Overlay, Snapshot};

/// So many writes are gone over one by one at each scan: that is done sooner than their keys are kept in order.
const FEW: usize = 32;

/// An overlay whose writes under a prefix are found. A contract sees what it sees of an [`Overlay`]. The keys of
/// many writes are kept in order beside them, so that a scan costs a logarithm and what it finds.
#[derive(Drop)]
pub(crate) struct RangeOverlay<'a> {
    alloc: Global,
    overlay: Overlay<'a>,
    keys: Option<Index>,
}

impl<'a> Model for RangeOverlay<'a> {
    ghost use Rattle.std.specs.Option.{IfSome};
    ghost use Rattle.batch_rules.specs.Touches.{keys_of};
    ghost use Rattle.tbl_snapshot.specs.Layers.{Layer, layer_code};
    ghost use Rattle.range_runs.specs.Indexes.{HasExactly};

    ghost Value = { Layer };

    ghost coded = { layer_code };

    ghost view = { λ a. a.overlay };

    ghost invariant = { λ a. IfSome a.keys (HasExactly (keys_of a.overlay.noted.writes)) };
}

impl<'a> RangeOverlay<'a> {
    /// An overlay on a snapshot, through which nothing was read or written. No memory.
    pub(crate) fn over(alloc: Global, snapshot: Snapshot<'a>) -> RangeOverlay<'a>
        ensures { result ≡ record { base = snapshot.entry; noted = nothing } }
    {
        RangeOverlay {
            alloc,
            overlay: Overlay::over(alloc, snapshot),
            keys: None,
        }
    }

    /// The row at a key, which is noted as read, as [`Overlay::fetch`] does.
    pub(crate) fn fetch(&mut self, key: &Key) -> Result<Option<Row>, Memory>
        ensures row { IfOk result (λ row. row ≡ fin.get (seen_of self.old).map key.now) }
        ensures read { OnOk result (seen_of self.new ≡ after_read (seen_of self.old) key.now) }
        ensures base { self.new.base ≡ self.old.base }
    {
        let row = self.overlay.fetch(key)?;
        Ok(row)
    }

    /// Writes that a row stands at a key, or none, as [`Overlay::set`] does.
    pub(crate) fn set(&mut self, key: Key, row: Option<Row>) -> Result<(), Memory>
        ensures written { OnOk result (seen_of self.new ≡ after_write (seen_of self.old) key row) }
        ensures base { self.new.base ≡ self.old.base }
    {
        let kept = self.keys.take();
        let keys = keys_with(self.alloc, kept, self.overlay.written(), &key)?;
        self.overlay.set(key, row)?;
        self.keys = keys;
        Ok(())
    }

    /// Makes those of the writes that are under the prefix.
    pub(crate) fn make_writes(&self, found: &mut Found, prefix: &Prefix) -> Result<(), Memory>
        ensures { OnOk result (found.new ≡ written_under prefix.now found.old self.now.noted.writes) }
    {
        match &self.keys {
            Some(keys) => make_listed(self.alloc, found, prefix, &self.overlay, keys),
            None => make_all(found, prefix, self.overlay.written()),
        }
    }

    /// The keys that were read, and the writes. No memory.
    pub(crate) fn parts(self) -> (Keys, Changes)
        ensures reads { result.0 ≡ self.entry.noted.reads }
        ensures writes { result.1 ≡ self.entry.noted.writes }
    {
        self.overlay.parts()
    }
}

/// The keys of these writes and this one, where the writes are many. They were kept, or are found now.
fn keys_with(
    alloc: Global,
    kept: Option<Index>,
    writes: &[(Key, Option<Row>)],
    key: &Key,
) -> Result<Option<Index>, Memory>
    requires { IfSome kept (HasExactly (keys_of writes.now)) }
    ensures { IfOk result (λ keys. IfSome keys (HasExactly (key.now ∷ keys_of writes.now))) }
{
    if writes.len() < FEW {
        return Ok(None);
    }
    let mut keys = all_keys(alloc, kept, writes)?;
    keys.follow_one(alloc, key, true)?;
    Ok(Some(keys))
}

/// The keys of these writes: those that are kept, or where none are, those that are found now.
fn all_keys(
    alloc: Global,
    kept: Option<Index>,
    writes: &[(Key, Option<Row>)],
) -> Result<Index, Memory>
    requires { IfSome kept (HasExactly (keys_of writes.now)) }
    ensures { IfOk result (HasExactly (keys_of writes.now)) }
{
    match kept {
        Some(keys) => Ok(keys),
        None => Index::of_writes(alloc, writes),
    }
}

/// Makes the overlay's writes under the prefix, which are found by their keys.
fn make_listed(
    alloc: Global,
    found: &mut Found,
    prefix: &Prefix,
    overlay: &Overlay,
    written: &Index,
) -> Result<(), Memory>
    requires { HasExactly (keys_of overlay.now.noted.writes) written.now }
    ensures { OnOk result (found.new ≡ written_under prefix.now found.old overlay.now.noted.writes) }
{
    let keys = written.under(alloc, prefix)?;
    for key in &keys {
        found.set(key, overlay.look(hash_of(key), key))?;
    }
    Ok(())
}

/// Goes over the writes, and makes those under the prefix.
fn make_all(found: &mut Found, prefix: &Prefix, writes: &[(Key, Option<Row>)]) -> Result<(), Memory>
    ensures { OnOk result (found.new ≡ written_under prefix.now found.old writes.now) }
{
    let count = writes.len();
    for behind in 0..count {
        let (key, row) = &writes[count - 1 - behind];
        make_write(found, prefix, key, row)?;
    }
    Ok(())
}

/// Makes a write, if it is under the prefix.
fn make_write(
    found: &mut Found,
    prefix: &Prefix,
    key: &Key,
    row: &Option<Row>,
) -> Result<(), Memory>
    ensures { OnOk result (found.new ≡ write_under prefix.now found.old key.now row.now) }
{
    if !prefix.covers(key) {
        return Ok(());
    }
    found.set(key, row.as_ref())
}
