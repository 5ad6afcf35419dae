// The window of one run on a snapshot.
ghost use Rattle.std.specs.Prelude.{◌≡◌, IfOk, OnOk, OnErr};
ghost use Rattle.std.specs.FinMap as fin;
ghost use Rattle.batch_rules.specs.Plays.{after_read, after_write};
ghost use Rattle.batch_rules.specs.Touches.{nothing};
ghost use Rattle.tbl_rows.specs.Hashes.{hash_of};
ghost use Rattle.tbl_snapshot.specs.Layers.{seen_of};

use crate::reads::Reads;
use crate::searches::copy_found;
use crate::snapshots::Snapshot;
use crate::writes::Writes;
use aria_base::{Changes, Duplicate, Key, Keys, Memory, Row};
use lent_rows::Lends;
use proc_lang::Access;
use std::alloc::Global;
use std::marker::Model;
use tbl_rows::hash_of;

/// A window on a snapshot that keeps what is written through it to itself. A contract sees the
/// database below, the keys that were read from it in the order of their first reads, and the writes
/// in the order of their first writes, each with its last row or absence. Its calls search these
/// lists from the front while they are short, and from the sixty-fifth key on by the order of keys, so
/// that a call costs a logarithm of what was touched. The overlay has no bound.
#[derive(Drop)]
pub struct Overlay<'a> {
    alloc: Global,
    snapshot: Snapshot<'a>,
    reads: Reads,
    writes: Writes,
}

impl<'a> Model for Overlay<'a> {
    ghost use Rattle.tbl_snapshot.specs.Layers.{Layer, layer_code};

    ghost Value = { Layer };

    ghost coded = { layer_code };

    ghost view = { λ a. record { base = a.snapshot; noted = record { reads = a.reads; writes = a.writes } } };
}

impl<'a> Overlay<'a> {
    /// An overlay on a snapshot, through which nothing was read or written. It grows by `alloc`; this
    /// call takes no memory.
    pub fn over(alloc: Global, snapshot: Snapshot<'a>) -> Overlay<'a>
        ensures { result ≡ record { base = snapshot.entry; noted = nothing } }
    {
        Overlay {
            alloc,
            snapshot,
            reads: Reads::new(alloc),
            writes: Writes::new(alloc),
        }
    }

    /// What [`Access::read`] does; the database below stays.
    pub fn fetch(&mut self, key: &Key) -> Result<Option<Row>, Memory>
        ensures row { IfOk result (λ row. row ≡ fin.get (seen_of self.old).map key.now) }
        ensures read { OnOk result (seen_of self.new ≡ after_read (seen_of self.old) key.now) }
        ensures base { OnOk result (self.new.base ≡ self.old.base) }
        ensures kept { OnErr result (self.new ≡ self.old) }
    {
        let mark = hash_of(key);
        let row = copy_found(self.alloc, self.look(mark, key))?;
        let key = key.duplicate(self.alloc)?;
        self.add_read(mark, key)?;
        Ok(row)
    }

    /// What [`Access::write`] does; the database below stays.
    pub fn set(&mut self, key: Key, row: Option<Row>) -> Result<(), Memory>
        ensures written { OnOk result (seen_of self.new ≡ after_write (seen_of self.old) key row) }
        ensures base { OnOk result (self.new.base ≡ self.old.base) }
        ensures kept { OnErr result (self.new ≡ self.old) }
    {
        let mark = hash_of(&key);
        self.writes.set(self.alloc, mark, key, row)?;
        Ok(())
    }

    /// What [`Lends::note`] does; the database below stays.
    fn add_read(&mut self, mark: u64, key: Key) -> Result<(), Memory>
        requires { mark ≡ hash_of key }
        ensures noted { OnOk result (seen_of self.new ≡ after_read (seen_of self.old) key) }
        ensures base { OnOk result (self.new.base ≡ self.old.base) }
        ensures kept { OnErr result (self.new ≡ self.old) }
    {
        if self.writes.has(mark, &key) {
            return Ok(());
        }
        if self.reads.has(mark, &key) {
            return Ok(());
        }
        self.reads.add(self.alloc, mark, key)?;
        Ok(())
    }

    /// The writes so far, in the order of their first ones. No memory.
    pub fn written(&self) -> &[(Key, Option<Row>)]
        ensures { result.now ≡ (seen_of self.now).noted.writes }
    {
        self.writes.rows()
    }

    /// The keys that were read, and the writes. No memory.
    pub fn parts(self) -> (Keys, Changes)
        ensures reads { result.0 ≡ (seen_of self.entry).noted.reads }
        ensures writes { result.1 ≡ (seen_of self.entry).noted.writes }
    {
        (
            Keys::from_vec(self.reads.into_keys()),
            Changes::from_vec(self.writes.into_rows()),
        )
    }
}

impl<'a> Access for Overlay<'a> {
    ghost seen = { seen_of };

    fn read(&mut self, key: &Key) -> Result<Option<Row>, Memory> {
        self.fetch(key)
    }

    fn write(&mut self, key: Key, row: Option<Row>) -> Result<(), Memory> {
        self.set(key, row)
    }
}

impl<'a> Lends for Overlay<'a> {
    ghost mark_of = { hash_of };

    fn mark(&self, key: &Key) -> u64 {
        hash_of(key)
    }

    fn look(&self, mark: u64, key: &Key) -> Option<&Row> {
        match self.writes.find(mark, key) {
            Some(written) => written.as_ref(),
            None => self.snapshot.get_at(mark, key),
        }
    }

    fn note(&mut self, mark: u64, key: Key) -> Result<(), Memory> {
        self.add_read(mark, key)
    }
}
