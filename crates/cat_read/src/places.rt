// Places in a catalogue's JSON, as the walk comes to them.
ghost use Rattle.std.specs.Prelude.{◌≡◌, IfOk, IfErr, Result, Err};
ghost use Rattle.cat_forms.specs.Members.{member_name};
ghost use Rattle.cat_read.specs.Places.{path_of};
ghost use Rattle.cat_read.specs.Faults.{IsFaultAt};

use crate::faults::Fault;
use aria_base::{Memory, Txt, TxtRefused};
use cat_forms::Member;
use proc_lang::{Path, PathPart};
use std::alloc::Global;

/// A place: the root, or a part of another place. It lies on the stack, and takes memory only where
/// a path is made of it.
#[derive(Drop)]
pub enum JsonPlace<'a> {
    Root,
    Member(&'a JsonPlace<'a>, Member),
    Item(&'a JsonPlace<'a>, usize),
}

/// What the member is called, as a text.
fn member_text(alloc: Global, member: Member) -> Result<Txt, Memory>
    ensures { IfOk result (λ text. text ≡ member_name member) }
{
    match Txt::of(alloc, member.name().as_bytes()) {
        Ok(text) => Ok(text),
        Err(TxtRefused::Memory) => Err(Memory),
        Err(TxtRefused::TooLong { .. } | TxtRefused::BadByte { .. }) => unreachable!(),
    }
}

/// The steps from the root to the place.
fn parts(alloc: Global, place: &JsonPlace<'_>) -> Result<Vec<PathPart>, Memory>
    ensures { IfOk result (λ parts. parts.items ≡ path_of place.now) }
{
    match place {
        JsonPlace::Root => Ok(Vec::new(alloc)),
        JsonPlace::Member(before, member) => {
            let mut parts = parts(alloc, before)?;
            parts.push(PathPart::Member(member_text(alloc, *member)?))?;
            Ok(parts)
        }
        JsonPlace::Item(before, at) => {
            let mut parts = parts(alloc, before)?;
            parts.push(PathPart::Place(u32::try_from(*at).unwrap_or(u32::MAX)))?;
            Ok(parts)
        }
    }
}

/// The fault of this place, or that there was no memory for its path.
pub fn fault_at(alloc: Global, place: &JsonPlace<'_>) -> Fault
    ensures { IsFaultAt (path_of place.now) result }
{
    match parts(alloc, place) {
        Ok(parts) => Fault::Shape(Path::from_vec(parts)),
        Err(Memory) => Fault::Memory,
    }
}
