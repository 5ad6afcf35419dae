// What the slot that is taken and its log say: the checkpoint, and the batches behind it.
ghost use Rattle.std.specs.Prelude.{◌≡◌, ◌+◌, ◌<◌, ◌≤◌, ◌↔◌, IsTrue, IfOk, IfErr, IfSome, option_map};
ghost use Rattle.aria_base.specs.declared.limits.TheConstants.{GREATEST_NUMBER};
ghost use Rattle.disk_model.specs.Histories.{current, Still};
ghost use Rattle.slot_images.specs.Images.{Says as Reads, FileReads};
ghost use Rattle.slot_images.specs.Said.{head_in, checkpoint_in, IsInOrder};
ghost use Rattle.store_files.specs.Attachments.{Chosen};
ghost use Rattle.store_files.specs.Holdings.{IsSettled};
ghost use Rattle.aria_store.specs.Records.{IsThatBatch, IsWithin, IsNext, AreBatches, IsLater};
ghost use Rattle.aria_store.specs.Stands.{batch_in, batches_in, rule_after, fallback_after};
ghost use Rattle.aria_store.specs.Causes.{AttachCause, LaterCause, BatchesCause};

use aria_base::{GREATEST_NUMBER, MOST_REQUESTS, Memory};
use batch_rules::verdicts::Rule;
use checkpoint::{FIRST_FORMAT, Head};
use disk_model::Disk;
use image_text::{Logged, read_calls, read_payload};
use input_log::{LogEnd, Payload, scan};
use slot_images::{Image, load};
use std::alloc::Global;
use store_files::StoreRefused;

/// The image of the slot that was taken by its head. A slot that does not read as it did a moment ago is
/// damaged at its gate: a disk that tells its files has none.
pub fn load_taken<D: Disk>(
    alloc: Global,
    disk: &mut D,
    slot: u8,
    head: &Head,
) -> Result<Image, StoreRefused>
    requires low { slot < 2 }
    requires settled { IsSettled (D.history disk.old) }
    requires chosen { Chosen (D.history disk.old) slot head.now }
    ensures reads { IfOk result (λ image. IfSome (current (D.history disk.old) slot) (λ f. FileReads slot f.seen (Reads (checkpoint_in image)))) }
    ensures head { IfOk result (λ image. head_in image ≡ head.now) }
    ensures in_order { IfOk result (λ image. IsInOrder slot (checkpoint_in image)) }
    ensures still { Still (D.history disk.old) (D.history disk.new) }
    ensures refused { IfErr result (AttachCause (D.history disk.old) (D.history disk.new)) }
{
    let Some(image) = load(alloc, disk, slot)? else {
        return Err(StoreRefused::Damaged { file: slot, at: 0 });
    };
    if !has_head(&image, head) {
        return Err(StoreRefused::Damaged { file: slot, at: 0 });
    }
    Ok(image)
}

/// Whether this is the head of an image.
fn has_head(image: &Image, head: &Head) -> bool
    ensures { IsTrue result ↔ (head_in image.now ≡ head.now) }
{
    image.head() == *head
}

/// The batches in the log of a slot, behind its checkpoint, and where the log ends.
pub fn read_later<D: Disk>(
    alloc: Global,
    disk: &mut D,
    slot: u8,
    image: &Image,
) -> Result<(Vec<Logged>, LogEnd), StoreRefused>
    requires low { slot < 2 }
    requires batches { image.now.batches ≤ GREATEST_NUMBER }
    requires requests { image.now.requests ≤ GREATEST_NUMBER }
    ensures later { IfOk result (λ r. IsLater (checkpoint_in image.now) (current (D.history disk.old) (2 + slot)) (batches_in r.0.items) r.1) }
    ensures file { IfOk result (λ r. r.1.file ≡ 2 + slot) }
    ensures empty { IfOk result (λ r. r.1.batches ≡ 0 → r.1.at ≡ 0) }
    ensures still { Still (D.history disk.old) (D.history disk.new) }
    ensures refused { IfErr result (LaterCause (checkpoint_in image.now) (D.history disk.old) (D.history disk.new) slot) }
{
    let (payloads, end) = scan(alloc, disk, 2 + slot)?;
    let later = read_batches(alloc, image, 2 + slot, payloads.as_slice())?;
    Ok((later, end))
}

/// The rule and the fallback of the last batch, or of the checkpoint where there is none. No memory.
pub fn settings_after(image: &Image, later: &[Logged]) -> (Rule, u32)
    ensures rule { result.0 ≡ rule_after image.now.rule (batches_in later.now) }
    ensures fallback { result.1 ≡ fallback_after image.now.fallback (batches_in later.now) }
{
    match later.last() {
        Some(logged) => (logged.rule, logged.fallback),
        None => (image.rule, image.fallback),
    }
}

/// The batches that these payloads of a log are, behind a checkpoint. `Damaged` names the first record
/// that is no batch which may stand there.
fn read_batches(
    alloc: Global,
    image: &Image,
    file: u8,
    payloads: &[Payload],
) -> Result<Vec<Logged>, StoreRefused>
    requires batches { image.now.batches ≤ GREATEST_NUMBER }
    requires requests { image.now.requests ≤ GREATEST_NUMBER }
    ensures batches { IfOk result (λ later. AreBatches (checkpoint_in image.now) image.now.batches image.now.requests payloads.now (batches_in later.items)) }
    ensures refused { IfErr result (BatchesCause (checkpoint_in image.now) file payloads.now) }
{
    let mut later = Vec::new(alloc);
    let mut batches = image.batches;
    let mut requests = image.requests;
    for payload in payloads {
        let bytes = payload.bytes.as_slice();
        let Some(logged) = next_batch(alloc, image, batches, requests, bytes)? else {
            return Err(StoreRefused::Damaged {
                file,
                at: payload.at,
            });
        };
        batches += 1;
        requests += logged.calls.len() as u64;
        later.push(logged)?;
    }
    Ok(later)
}

/// The batch that a payload is, where it may stand behind so many batches and requests.
#[tactic(auto, using(crate::proofs::Batches::none_next, crate::proofs::Batches::past_bound))]
fn next_batch(
    alloc: Global,
    image: &Image,
    batches: u64,
    requests: u64,
    bytes: &[u8],
) -> Result<Option<Logged>, Memory>
    requires { requests ≤ GREATEST_NUMBER }
    ensures { IfOk result (λ found. IsNext (checkpoint_in image.now) batches requests bytes.now (option_map batch_in found)) }
{
    image.catalog.schema(); // which says that its names, bounds and types are in order
    let Some(logged) = read_batch(alloc, image, bytes)? else {
        return Ok(None);
    };
    if !is_within(batches, requests, logged.calls.len()) {
        return Ok(None);
    }
    Ok(Some(logged))
}

/// Whether a batch with so many calls may stand behind so many batches and requests.
fn is_within(batches: u64, requests: u64, calls: usize) -> bool
    requires { requests ≤ GREATEST_NUMBER }
    ensures { IsTrue result ↔ IsWithin batches requests calls }
{
    calls <= MOST_REQUESTS
        && batches < GREATEST_NUMBER
        && calls as u64 <= GREATEST_NUMBER - requests
}

/// The batch that a payload says, by the format of the checkpoint.
#[tactic(auto, using(crate::proofs::Batches::of_second, crate::proofs::Batches::of_first, crate::proofs::Batches::none_first))]
fn read_batch(alloc: Global, image: &Image, bytes: &[u8]) -> Result<Option<Logged>, Memory>
    ensures { IfOk result (λ found. IsThatBatch (checkpoint_in image.now) bytes.now (option_map batch_in found)) }
{
    if image.format != FIRST_FORMAT {
        return read_payload(alloc, &image.catalog, bytes);
    }
    match read_calls(alloc, &image.catalog, bytes)? {
        Some(calls) => Ok(Some(Logged {
            rule: image.rule,
            fallback: image.fallback,
            calls,
        })),
        None => Ok(None),
    }
}
