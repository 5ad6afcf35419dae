// A store: checkpoints and a log of batches in four files, and its calls.
ghost use Rattle.std.specs.Prelude.{◌≡◌, ◌⊎◌, ℕ, ◌+◌, ◌≤◌, All, true, false, [], ◌∷◌, ◌++◌, List, length, None, IfOk, IfErr, IfSome, OnOk, OnErr};
ghost use Rattle.aria_base.specs.Schemas.{IsConsistent};
ghost use Rattle.aria_base.specs.declared.limits.TheConstants.{GREATEST_NUMBER, LONGEST_LINE, MOST_PERCENT, MOST_REQUESTS};
ghost use Rattle.disk_model.specs.Histories.{MayLeave, LeavesAll, Still};
ghost use Rattle.proc_lang.specs.Catalogs.{takes};
ghost use Rattle.image_text.specs.Exactly.{line_of_call};
ghost use Rattle.image_text.specs.Payloads.{Batch, payload_text};
ghost use Rattle.input_log.specs.declared.limits.TheConstants.{MOST_BEFORE};
ghost use Rattle.slot_images.specs.Images.{Checkpoint, MayCarry};
ghost use Rattle.slot_images.specs.Said.{head_in, checkpoint_in, IsInOrder};
ghost use Rattle.store_files.specs.Attachments.{Chosen, IsTaken, ReadsAlike};
ghost use Rattle.store_files.specs.Holdings.{IsSettled};
ghost use Rattle.store_files.specs.Stores.{Rests, slot_in, next_head};
ghost use Rattle.aria_store.specs.Reopens.{Reopens, Found as Holding};
ghost use Rattle.aria_store.specs.Records.{AreLater};
ghost use Rattle.aria_store.specs.Stands.{Stands, IsKnown, IsTold, MayAdd, added, with_batch, new_store, next_checkpoint, batches_in};
ghost use Rattle.aria_store.specs.Causes.{AttachCause, WriteCause, CreateCause, HasGate};

use crate::attachments::{load_taken, read_later, settings_after};
use crate::creations::may_write;
use aria_base::{Call, Request};
use batch_rules::verdicts::Rule;
use checkpoint::Head;
use dep_rules::Config;
use disk_model::Disk;
use image_text::{Logged, payload_of};
use proc_lang::Catalog;
use slot_images::{Image, body_for};
use std::alloc::Global;
use std::marker::Model;
use store_files::{Files, StoreRefused, take_slot};
use tbl_rows::Tables;

/// What attaching found.
#[derive(Drop)]
pub struct Found {
    /// The checkpoint that is taken.
    pub image: Image,
    /// The batches that stand in its log, which were run behind it, in their order.
    pub later: Vec<Logged>,
}

/// An open store. Its disk is handed in at each call.
#[derive(Drop)]
pub struct Store {
    files: Files,
    rule: Rule,
    fallback: u32,
}

impl Model for Store {
    ghost use Rattle.aria_store.specs.Stands.{Kept};

    ghost Value = { Kept };

    ghost view = { λ a. record { files = a.files; rule = a.rule; fallback = a.fallback } };
}

impl Store {
    /// Writes the first checkpoint: an image of format 2 and generation 1, without batches and requests,
    /// whose fallback is at most 101 and whose rows fit its catalogue.
    ///
    /// `Exists`: a gate is open and `over` is not set; nothing was written. `Memory`: there was none for the
    /// image's text; nothing was written. `DiskFault`: a call on the disk failed, and anything may stand
    /// there.
    pub fn create<D: Disk>(
        alloc: Global,
        disk: &mut D,
        over: bool,
        image: &Image,
    ) -> Result<Store, StoreRefused>
        requires format { image.now.format ≡ 2 }
        requires generation { image.now.generation ≡ 1 }
        requires batches { image.now.batches ≡ 0 }
        requires requests { image.now.requests ≡ 0 }
        requires held { image.now.held.items ≡ [] }
        requires fallback { image.now.fallback ≤ MOST_PERCENT }
        requires rows { IsConsistent image.now.catalog.tables image.now.tables }
        ensures stands { IfOk result (λ store. Stands (D.history disk.new) store (checkpoint_in image.now) []) }
        ensures rests { IfOk result (λ store. Rests (D.history disk.new) store.files) }
        ensures known { IfOk result (λ store. store ≡ new_store (head_in image.now)) }
        ensures free { OnOk result (over ≡ false → IsTaken (D.history disk.old) false) }

        // Where there is a store that may not be written over, nothing is written at any answer.
        ensures unwritten { over ≡ false → HasGate (D.history disk.old) → Still (D.history disk.old) (D.history disk.new) }
        ensures refused { IfErr result (CreateCause (D.history disk.old) (D.history disk.new) over) }
    {
        may_write(disk, over)?;
        let body = body_for(alloc, &image.catalog, &image.tables, image.held.as_slice())?;
        let files = Files::create(disk, image.head(), &body)?;
        Ok(Store {
            files,
            rule: image.rule,
            fallback: image.fallback,
        })
    }

    /// Syncs the four files and reads what they hold: the checkpoint of the open slot (of two, that of the
    /// greater generation) and the batches of its log. It repairs nothing.
    ///
    /// `NoStore`: neither gate is open. `Damaged`: what stands in this file, from 0 to 3, is wrong, first at
    /// this offset. `DiskFault`: a call on the disk failed. `Memory`: there was none for what was read.
    pub fn attach<D: Disk>(alloc: Global, disk: &mut D) -> Result<(Store, Found), StoreRefused>
        // A stop at any moment leaves what one could have left before.
        ensures images { LeavesAll (D.history disk.old) (D.history disk.new) (MayLeave (D.history disk.old) (D.history disk.old).now) }

        // Each file reads as it did, and where the disk told its files it tells them still.
        ensures reads { ReadsAlike (D.history disk.old) (D.history disk.new) }
        ensures told { IsTold (D.history disk.old) → IsTold (D.history disk.new) }

        // After Ok the only image is what was read, and it reads as what was found.
        ensures stands { IfOk result (λ r. IsTold (D.history disk.new) → Stands (D.history disk.new) r.0 (checkpoint_in r.1.image) (batches_in r.1.later.items)) }
        ensures rests { IfOk result (λ r. Rests (D.history disk.new) r.0.files) }

        // What was found is in order, and the store knows it.
        ensures in_order { IfOk result (λ r. IsInOrder (slot_in r.0.files) (checkpoint_in r.1.image)) }
        ensures later { IfOk result (λ r. AreLater (checkpoint_in r.1.image) (batches_in r.1.later.items)) }
        ensures known { IfOk result (λ r. IsKnown r.0 (checkpoint_in r.1.image) (batches_in r.1.later.items)) }
        ensures open { IfOk result (λ r. r.0.files.closed ≡ None) }
        ensures empty { IfOk result (λ r. r.0.files.batches ≡ 0 → r.0.files.at ≡ 0) }
        ensures refused { IfErr result (AttachCause (D.history disk.old) (D.history disk.new)) }
    {
        let (slot, head) = take_slot(disk)?;
        Store::of_slot(alloc, disk, slot, head)
    }

    /// Reads what the slot that was taken holds. It changes no image.
    fn of_slot<D: Disk>(
        alloc: Global,
        disk: &mut D,
        slot: u8,
        head: Head,
    ) -> Result<(Store, Found), StoreRefused>
        requires settled { IsSettled (D.history disk.old) }
        requires chosen { Chosen (D.history disk.old) slot head }
        ensures stands { IfOk result (λ r. IsTold (D.history disk.new) → Stands (D.history disk.new) r.0 (checkpoint_in r.1.image) (batches_in r.1.later.items)) }
        ensures rests { IfOk result (λ r. Rests (D.history disk.new) r.0.files) }
        ensures in_order { IfOk result (λ r. IsInOrder (slot_in r.0.files) (checkpoint_in r.1.image)) }
        ensures later { IfOk result (λ r. AreLater (checkpoint_in r.1.image) (batches_in r.1.later.items)) }
        ensures known { IfOk result (λ r. IsKnown r.0 (checkpoint_in r.1.image) (batches_in r.1.later.items)) }
        ensures open { IfOk result (λ r. r.0.files.closed ≡ None) }
        ensures empty { IfOk result (λ r. r.0.files.batches ≡ 0 → r.0.files.at ≡ 0) }
        ensures still { Still (D.history disk.old) (D.history disk.new) }
        ensures refused { IfErr result (AttachCause (D.history disk.old) (D.history disk.new)) }
    {
        let image = load_taken(alloc, disk, slot, &head)?;
        let (later, end) = read_later(alloc, disk, slot, &image)?;
        let (rule, fallback) = settings_after(&image, later.as_slice());
        let store = Store {
            files: Files::known(head, end),
            rule,
            fallback,
        };
        Ok((store, Found { image, later }))
    }

    /// Adds a batch to the log: at most 10,000 calls that the catalogue takes, each with a line of at most
    /// 4,096 bytes, and a fallback of at most 101. The catalogue is that of the checkpoint. The store is of
    /// format 2, and its log has at most [`MOST_BEFORE`](input_log::MOST_BEFORE) bytes before. It takes its
    /// memory before its first device call.
    ///
    /// `Memory`: nothing was done. `DiskFault`: a call on the disk failed, the batch may be there or not,
    /// and the store is closed. `Closed`: a call failed earlier, and nothing was done.
    pub fn append<D: Disk>(
        &mut self,
        alloc: Global,
        disk: &mut D,
        catalog: &Catalog,
        calls: &[Call],
        rule: Rule,
        fallback: u32,
    ) -> Result<(), StoreRefused>
        requires rests { self.old.files.closed ≡ None → Rests (D.history disk.old) self.old.files }
        requires format { self.old.files.head.format ≡ 2 }
        requires short { self.old.files.at ≤ MOST_BEFORE }
        requires fit { All (λ call. takes catalog.now call ≡ true) calls.now }
        requires few { length calls.now ≤ MOST_REQUESTS }
        requires lines { All (λ call. length (line_of_call catalog.now call) ≤ LONGEST_LINE) calls.now }
        requires fallback { fallback ≤ MOST_PERCENT }

        // A stop at any moment leaves the batches from before, or those and this one.
        ensures images { self.old.files.closed ≡ None → (c : Checkpoint) (later : List Batch) → Stands (D.history disk.old) self.old c later → MayAdd catalog.now (length calls.now) c later → LeavesAll (D.history disk.old) (D.history disk.new) (λ images. Reopens images (Holding c later) ⊎ Reopens images (Holding c (added later rule fallback calls.now))) }

        // After Ok it leaves those and this one.
        ensures stands { OnOk result ((c : Checkpoint) (later : List Batch) → Stands (D.history disk.old) self.old c later → MayAdd catalog.now (length calls.now) c later → Stands (D.history disk.new) self.new c (added later rule fallback calls.now)) }
        ensures rests { OnOk result (Rests (D.history disk.new) self.new.files) }
        ensures known { OnOk result (self.new ≡ with_batch self.old (length (payload_text catalog.now (record { rule = rule; fallback = fallback; calls = calls.now }))) rule fallback) }
        ensures open { OnOk result (self.old.files.closed ≡ None) }
        ensures faults { OnOk result ((D.history disk.old).faults ≤ (D.history disk.new).faults) }
        ensures refused { IfErr result (WriteCause D.history disk.old disk.new self.old self.new) }
    {
        if let Some(faults) = self.files.closed() {
            return Err(StoreRefused::Closed { faults });
        }
        let payload = payload_of(alloc, catalog, calls, rule, fallback)?;
        self.files.append(alloc, disk, &payload)?;
        self.rule = rule;
        self.fallback = fallback;
        Ok(())
    }

    /// Writes the next checkpoint, in format 2, with an empty log: that of the state after the batches of
    /// the log. One may come where a batch stands in the log, or where the store is of format 1. `batches`
    /// and `requests` count all so far, each at most 2^62; the fallback is at most 101, and the rows fit the
    /// catalogue. It takes its memory before its first device call.
    ///
    /// `Memory`: nothing was done. `DiskFault`: a call on the disk failed, the checkpoint from before with
    /// its batches or this one stands there, and the store is closed. `Closed`: a call failed earlier, and
    /// nothing was done.
    pub fn rotate<D: Disk>(
        &mut self,
        alloc: Global,
        disk: &mut D,
        catalog: &Catalog,
        tables: &Tables,
        held: &[Request],
        batches: u64,
        requests: u64,
        config: &Config,
    ) -> Result<(), StoreRefused>
        requires rests { self.old.files.closed ≡ None → Rests (D.history disk.old) self.old.files }
        requires due { (1 ≤ self.old.files.batches) ⊎ (self.old.files.head.format ≡ 1) }
        requires batches { batches ≡ self.old.files.head.batches + self.old.files.batches }
        requires few { batches ≤ GREATEST_NUMBER }
        requires requests { requests ≤ GREATEST_NUMBER }
        requires fallback { config.now.fallback ≤ MOST_PERCENT }
        requires rows { IsConsistent catalog.now.tables tables.now }
        requires calls { All (λ request. takes catalog.now request.call ≡ true) held.now }
        requires carried { MayCarry (next_head self.old.files.head config.now.rule config.now.fallback batches requests) held.now }

        // A stop at any moment leaves the checkpoint from before with its batches, or this one with none.
        ensures images { self.old.files.closed ≡ None → (c : Checkpoint) (later : List Batch) → Stands (D.history disk.old) self.old c later → LeavesAll (D.history disk.old) (D.history disk.new) (λ images. Reopens images (Holding c later) ⊎ Reopens images (Holding (next_checkpoint self.old config.now.rule config.now.fallback batches requests (catalog.now, tables.now, held.now)) [])) }

        // After Ok it leaves this one with none.
        ensures stands { OnOk result (Stands (D.history disk.new) self.new (next_checkpoint self.old config.now.rule config.now.fallback batches requests (catalog.now, tables.now, held.now)) []) }
        ensures rests { OnOk result (Rests (D.history disk.new) self.new.files) }
        ensures known { OnOk result (self.new ≡ new_store (next_head self.old.files.head config.now.rule config.now.fallback batches requests)) }
        ensures open { OnOk result (self.old.files.closed ≡ None) }
        ensures faults { OnOk result ((D.history disk.old).faults ≤ (D.history disk.new).faults) }
        ensures refused { IfErr result (WriteCause D.history disk.old disk.new self.old self.new) }
    {
        if let Some(faults) = self.closed() {
            return Err(StoreRefused::Closed { faults });
        }
        let body = body_for(alloc, catalog, tables, held)?;
        self.files.rotate(disk, config.rule, config.fallback, batches, requests, &body)?;
        self.rule = config.rule;
        self.fallback = config.fallback;
        Ok(())
    }

    /// The offset of the log's first closed gate. No memory.
    pub fn log_len(&self) -> u64
        ensures { result ≡ self.now.files.at }
    {
        self.files.log_len()
    }

    /// How many batches stand in the log. No memory.
    pub fn log_batches(&self) -> u64
        ensures { result ≡ self.now.files.batches }
    {
        self.files.log_batches()
    }

    /// The disk's count of faults after the call that failed, where one did. No memory.
    pub fn closed(&self) -> Option<u64>
        ensures { result ≡ self.now.files.closed }
    {
        self.files.closed()
    }

    /// The format of the checkpoint that was taken or written last. No memory.
    pub fn format(&self) -> u8
        ensures { result ≡ self.now.files.head.format }
    {
        self.files.head().format
    }

    /// The rule and the fallback of the last batch in the log, or of the checkpoint where there is none.
    /// No memory.
    pub fn settings(&self) -> (Rule, u32)
        ensures { result ≡ (self.now.rule, self.now.fallback) }
    {
        (self.rule, self.fallback)
    }
}
