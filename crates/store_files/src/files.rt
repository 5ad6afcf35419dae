// What an open store knows of its files.
ghost use Rattle.std.specs.Prelude.{◌≡◌, ℕ, ◌⊎◌, ◌+◌, ◌-◌, ◌<◌, ◌≤◌, ◌^◌, ◌%◌, [], List, length, None, IfOk, IfErr, OnOk, IfSome};
ghost use Rattle.aria_base.specs.Faults.{one_more};
ghost use Rattle.aria_base.specs.declared.limits.TheConstants.{GREATEST_NUMBER, MOST_PERCENT};
ghost use Rattle.disk_model.specs.Causes.{FaultOnly};
ghost use Rattle.disk_model.specs.Histories.{current, LeavesAll};
ghost use Rattle.input_log.specs.Layout.{Log, Ends, with_record};
ghost use Rattle.input_log.specs.declared.limits.TheConstants.{MOST_BEFORE, MOST_PAYLOAD};
ghost use Rattle.checkpoint.specs.Damage.{IsSound};
ghost use Rattle.store_files.specs.Openings.{Taken, opened_of};
ghost use Rattle.store_files.specs.Holdings.{Holds};
ghost use Rattle.store_files.specs.Stores.{Rests, StoreCause, slot_in, next_head};

use crate::creations::{put_first, shut_both, sync_all};
use crate::refusals::StoreRefused;
use crate::rotations::replace;
use batch_rules::verdicts::Rule;
use checkpoint::Head;
use disk_model::{Disk, LogRefused};
use input_log::{LogEnd, append};
use std::alloc::Global;
use std::marker::Model;

/// The files of an open store: its checkpoint's head, where its log ends, and whether a call on the disk
/// failed.
#[derive(Drop)]
pub struct Files {
    head: Head,
    end: LogEnd,
    closed: Option<u64>,
}

impl Model for Files {
    ghost use Rattle.store_files.specs.Stores.{Stored};

    ghost Value = { Stored };

    ghost use Rattle.std.specs.Prelude.{◌≡◌, ◌+◌, ◌%◌};

    ghost view = { λ a. record { head = a.head; at = a.end.at; batches = a.end.batches; closed = a.closed } };

    ghost invariant = { λ a. a.end.file ≡ 2 + a.head.generation % 2 };
}

impl Files {
    /// The files with this checkpoint and this log. No memory.
    pub fn known(head: Head, end: LogEnd) -> Files
        requires { end.file ≡ 2 + head.generation % 2 }
        ensures { result ≡ record { head = head; at = end.at; batches = end.batches; closed = None } }
    {
        Files {
            head,
            end,
            closed: None,
        }
    }

    /// The head of the checkpoint that was taken or written last. No memory.
    pub fn head(&self) -> Head
        ensures { result ≡ self.now.head }
    {
        self.head
    }

    /// The offset of the log's first closed gate. No memory.
    pub fn log_len(&self) -> u64
        ensures { result ≡ self.now.at }
    {
        self.end.at
    }

    /// How many records stand in the log. No memory.
    pub fn log_batches(&self) -> u64
        ensures { result ≡ self.now.batches }
    {
        self.end.batches
    }

    /// The disk's count of faults after the call that failed, where one did. No memory.
    pub fn closed(&self) -> Option<u64>
        ensures { result ≡ self.now.closed }
    {
        self.closed
    }

    /// Writes the first checkpoint into slot 1, whatever the files hold. The head has generation 1 and may
    /// stand there. The one refusal is `DiskFault`, where a call on the disk failed: then anything may stand
    /// there. No memory.
    pub fn create<D: Disk>(disk: &mut D, head: Head, body: &[u8]) -> Result<Files, LogRefused>
        requires generation { head.generation ≡ 1 }
        requires sound { IsSound 1 head }
        requires body { length body.now < 256 ^ 8 }
        ensures files { IfOk result (λ files. files ≡ record { head = head; at = 0; batches = 0; closed = None }) }
        ensures holds { OnOk result (Holds (D.history disk.new) 1 head body.now (Ends [] 0)) }
        ensures rests { IfOk result (λ files. Rests (D.history disk.new) files) }
        ensures refused { IfErr result (FaultOnly (D.history disk.old) (D.history disk.new)) }
    {
        sync_all(disk)?;
        shut_both(disk)?;
        let end = put_first(disk, &head, body)?;
        Ok(Files::known(head, end))
    }

    /// Adds a record to the log, which has at most [`MOST_BEFORE`](input_log::MOST_BEFORE) bytes before; the
    /// payload has at most [`MOST_PAYLOAD`](input_log::MOST_PAYLOAD). The payload is copied before the first
    /// device call.
    ///
    /// `Memory`: there was none for the copy, and nothing was done. `DiskFault`: a call on the disk failed,
    /// the record may be there or not, and the files are closed. `Closed`: a call failed earlier, and
    /// nothing was done.
    pub fn append<D: Disk>(
        &mut self,
        alloc: Global,
        disk: &mut D,
        payload: &[u8],
    ) -> Result<(), StoreRefused>
        requires rests { self.old.closed ≡ None → Rests (D.history disk.old) self.old }
        requires short { self.old.at ≤ MOST_BEFORE }
        requires payload { length payload.now ≤ MOST_PAYLOAD }

        // A stop at any moment leaves the log as it was, or with this record.
        ensures images { self.old.closed ≡ None → (b : List ℕ) (log : Log) → Holds (D.history disk.old) (slot_in self.old) self.old.head b log → LeavesAll (D.history disk.old) (D.history disk.new) (λ images. (opened_of images ≡ Taken (slot_in self.old) self.old.head b log) ⊎ (opened_of images ≡ Taken (slot_in self.old) self.old.head b (with_record payload.now log))) }

        // After Ok the record stands there, and the store knows it.
        ensures stored { OnOk result ((b : List ℕ) (log : Log) → Holds (D.history disk.old) (slot_in self.old) self.old.head b log → Holds (D.history disk.new) (slot_in self.old) self.old.head b (with_record payload.now log)) }
        ensures rests { OnOk result (Rests (D.history disk.new) self.new) }
        ensures known { OnOk result (self.new ≡ record self.old { at = self.old.at + 5 + length payload.now; batches = one_more self.old.batches }) }
        ensures counted { OnOk result (IfSome (current (D.history disk.old) (2 + slot_in self.old)) (λ _. self.new.batches ≡ self.old.batches + 1)) }
        ensures open { OnOk result (self.old.closed ≡ None) }
        ensures refused { IfErr result (StoreCause D.history disk.old disk.new self.old self.new) }
    {
        if let Some(faults) = self.closed {
            return Err(StoreRefused::Closed { faults });
        }
        match append(alloc, &mut self.end, disk, payload) {
            Ok(()) => Ok(()),
            Err(LogRefused::Memory) => Err(StoreRefused::Memory),
            Err(LogRefused::DiskFault) => {
                self.closed = Some(disk.faults());
                Err(StoreRefused::DiskFault)
            }
            Err(LogRefused::Damaged { .. }) => unreachable!(),
        }
    }

    /// Writes the next checkpoint into the other slot, in format 2, with an empty log. One may come where a
    /// batch stands in the log, or where the store is of format 1. No number is above 2^62, and the fallback
    /// is at most 101. No memory.
    ///
    /// `DiskFault`: a call on the disk failed, what was there or the next checkpoint stands there, and the
    /// files are closed. `Closed`: a call failed earlier, and nothing was done.
    pub fn rotate<D: Disk>(
        &mut self,
        disk: &mut D,
        rule: Rule,
        fallback: u32,
        batches: u64,
        requests: u64,
        body: &[u8],
    ) -> Result<(), StoreRefused>
        requires rests { self.old.closed ≡ None → Rests (D.history disk.old) self.old }

        // A rotation comes with a batch at least, or takes the store out of format 1.
        requires due { (1 ≤ self.old.batches) ⊎ (self.old.head.format ≡ 1) }
        requires batches { batches ≡ self.old.head.batches + self.old.batches }
        requires few { batches ≤ GREATEST_NUMBER }
        requires requests { requests ≤ GREATEST_NUMBER }
        requires fallback { fallback ≤ MOST_PERCENT }
        requires body { length body.now < 256 ^ 8 }

        // A stop at any moment leaves what was there, or the new checkpoint with an empty log.
        ensures images { self.old.closed ≡ None → (b : List ℕ) (log : Log) → Holds (D.history disk.old) (slot_in self.old) self.old.head b log → LeavesAll (D.history disk.old) (D.history disk.new) (λ images. (opened_of images ≡ Taken (slot_in self.old) self.old.head b log) ⊎ (opened_of images ≡ Taken (1 - slot_in self.old) (next_head self.old.head rule fallback batches requests) body.now (Ends [] 0))) }

        // After Ok the new one stands there, and the store knows it.
        ensures holds { OnOk result (Holds (D.history disk.new) (1 - slot_in self.old) (next_head self.old.head rule fallback batches requests) body.now (Ends [] 0)) }
        ensures rests { OnOk result (Rests (D.history disk.new) self.new) }
        ensures known { OnOk result (self.new ≡ record { head = next_head self.old.head rule fallback batches requests; at = 0; batches = 0; closed = None }) }
        ensures open { OnOk result (self.old.closed ≡ None) }
        ensures refused { IfErr result (StoreCause D.history disk.old disk.new self.old self.new) }
    {
        if let Some(faults) = self.closed {
            return Err(StoreRefused::Closed { faults });
        }
        let head = Head {
            format: 2,
            rule,
            fallback,
            generation: self.head.generation + 1,
            batches,
            requests,
        };
        let slot = (self.head.generation % 2) as u8;
        match replace(disk, slot, &head, body) {
            Ok(end) => {
                self.head = head;
                self.end = end;
                Ok(())
            }
            Err(LogRefused::DiskFault) => {
                self.closed = Some(disk.faults());
                Err(StoreRefused::DiskFault)
            }
            Err(LogRefused::Memory | LogRefused::Damaged { .. }) => unreachable!(),
        }
    }
}
