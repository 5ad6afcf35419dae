// Slots that are laid, shown and loaded.
ghost use Rattle.std.specs.Prelude.{◌<◌, ◌≤◌};
ghost use Rattle.aria_base.specs.declared.limits.TheConstants.{MOST_PERCENT};
ghost use Rattle.slot_images.specs.Said.{checkpoint_in, IsInOrder};

use crate::slots::{MEMORY, holds, same_bytes, slotted};
use batch_rules::verdicts::Rule;
use checkpoint::{Head, blank, lay, show};
use disk_model::{LogRefused, MemDisk};
use slot_images::{Image, body_for, load};
use std::alloc::Global;
use std::process::Abort;

/// The first checkpoint of a store without tables, by reorder and 101.
const FIRST: [u8; 79] =
    *b"\x01ARIA\x02\x01\x65\x01\0\0\0\0\0\0\0\0\0\0\0\0\0\0\0\0\0\0\0\0\0\0\0\x27\0\0\0\0\0\0\0catalog text\n:{\"procs\":[],\"tables\":[]}\n";

/// A checkpoint of format 1, plain and 7, generation 2, 513 batches, 3 requests numbered and two of them
/// carried; its body has 183 bytes.
const SECOND: [u8; 223] =
    *b"\x01ARIA\x01\0\x07\x02\0\0\0\0\0\0\0\x01\x02\0\0\0\0\0\0\x03\0\0\0\0\0\0\0\xb7\0\0\0\0\0\0\0catalog text\n:{\"procs\":[{\"args\":[\"text\"],\"body\":[],\"name\":\"p\",\"regs\":[]}],\"tables\":[{\"cols\":[\"int\"],\"key\":[\"text\"],\"name\":\"t\"}]}\nrow t \"a\" = 1\nrow t \"b\" = -2\nheld 1 p \"x\"\nheld 3 p \"\"\n";

/// Lays an image in this slot and shows it.
fn lay_shown(disk: &mut MemDisk, slot: u8, head: &Head, body: &[u8]) -> Result<(), LogRefused>
    requires slot { slot < 2 }
    requires fallback { head.now.fallback ≤ MOST_PERCENT }
{
    blank(disk, slot)?;
    lay(disk, slot, head, body)?;
    show(disk, slot)
}

/// The image of a slot that shows one.
fn image_of(rt: &impl Abort, alloc: Global, disk: &mut MemDisk, slot: u8) -> Image
    requires { slot < 2 }
    ensures { IsInOrder slot (checkpoint_in result) }
{
    let found = load(alloc, disk, slot).expect(rt, "the disk answers");
    found.expect(rt, "the slot shows an image")
}

/// The bytes of this slot on a new disk, where the image is laid in it.
fn laid(rt: &impl Abort, alloc: Global, slot: u8, image: &Image) -> Vec<u8>
    requires slot { slot < 2 }
    requires image { IsInOrder slot (checkpoint_in image.now) }
{
    let body = body_for(alloc, &image.catalog, &image.tables, image.held.as_slice());
    let body = body.expect(rt, MEMORY);
    let mut disk = slotted(rt, alloc, &[], &[], 0);
    let laid = lay_shown(&mut disk, slot, &image.head(), body.as_slice());
    laid.expect(rt, "the disk answers");
    disk.bytes(slot).to_vec(alloc).expect(rt, MEMORY)
}

/// Asserts that what the slot of this disk shows is laid with these bytes.
fn is_laid_again(rt: &impl Abort, alloc: Global, slot: u8, disk: &mut MemDisk, wanted: &[u8])
    requires { slot < 2 }
{
    let image = image_of(rt, alloc, disk, slot);
    let found = laid(rt, alloc, slot, &image);
    same_bytes(rt, "laid again", found.as_slice(), wanted);
}

#[test]
fn what_is_loaded_is_laid_as_it_was(rt: HostRuntime) {
    let alloc = rt.alloc();
    let mut disk = slotted(&rt, alloc, &[], &FIRST, 0);
    is_laid_again(&rt, alloc, 1, &mut disk, &FIRST);
    let mut disk = slotted(&rt, alloc, &SECOND, &[], 0);
    is_laid_again(&rt, alloc, 0, &mut disk, &SECOND);
}

/// Whether this is the second image's head.
fn is_second(head: &Head) -> bool {
    *head
        == Head {
            format: 1,
            rule: Rule::Plain,
            fallback: 7,
            generation: 2,
            batches: 513,
            requests: 3,
        }
}

#[test]
fn fields_are_those_of_the_bytes(rt: HostRuntime) {
    let alloc = rt.alloc();
    let mut disk = slotted(&rt, alloc, &SECOND, &[], 0);
    let image = image_of(&rt, alloc, &mut disk, 0);
    let rows = image.tables.rows().expect(&rt, MEMORY).len();
    holds(&rt, "its head", is_second(&image.head()));
    holds(&rt, "its rows", rows == 2);
    holds(&rt, "its requests", image.held.len() == 2);
}

/// Whether the first slot cannot be loaded since the disk fails at this call.
fn is_fault(rt: &impl Abort, alloc: Global, call: u64) -> bool {
    let mut disk = slotted(rt, alloc, &[], &FIRST, call);
    let refused = load(alloc, &mut disk, 1).err();
    matches!(refused, Some(LogRefused::DiskFault))
}

/// The calls are those for the length, the gate, the head and the body.
#[test]
fn each_call_fails_in_turn(rt: HostRuntime) {
    let alloc = rt.alloc();
    for call in 1..=4 {
        holds(&rt, "the fault is told", is_fault(&rt, alloc, call));
    }
    let mut disk = slotted(&rt, alloc, &[], &FIRST, 5);
    let _image = image_of(&rt, alloc, &mut disk, 1);
}
