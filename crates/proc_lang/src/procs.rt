// Procedures, and places in a catalogue's text.
use crate::statements::Block;
use aria_base::{Duplicate, Items, Kinds, Memory, Txt};
use std::alloc::Global;

/// The kind of an argument.
#[derive(Clone, Copy, Debug, PartialEq, Eq)]
pub enum ArgKind {
    /// A whole number of 64 bits with a sign.
    Int,
    /// A text of at most 500 bytes.
    Text,
    /// A list of tuples, each of so many numbers, from 1 to 5.
    List(u8),
}

/// The kinds of a procedure's arguments.
pub type ArgKinds = Items<ArgKind>;

/// A procedure: its name, the kinds of its arguments and registers, and its body.
#[derive(Drop)]
pub struct Proc {
    /// What it is called.
    pub name: Txt,
    /// The kinds of its arguments, from the left: at most 16.
    pub args: ArgKinds,
    /// The kinds of its registers, from the left: at most 64.
    pub regs: Kinds,
    /// What it does: at most 1,000 statements, those in blocks included.
    pub body: Block,
}

/// A step into a catalogue's text: to the member of an object, or to the item of an array, from 0.
#[derive(Debug, Drop, PartialEq, Eq)]
pub enum PathPart {
    /// To the member with this name.
    Member(Txt),
    /// To the item at this place, from 0.
    Place(u32),
}

/// A place in a catalogue's text.
pub type Path = Items<PathPart>;

impl Duplicate for ArgKind {
    fn duplicate(&self, _alloc: Global) -> Result<Self, Memory> {
        Ok(*self)
    }
}

impl Duplicate for Proc {
    fn duplicate(&self, alloc: Global) -> Result<Self, Memory> {
        Ok(Proc {
            name: self.name.duplicate(alloc)?,
            args: self.args.duplicate(alloc)?,
            regs: self.regs.duplicate(alloc)?,
            body: self.body.duplicate(alloc)?,
        })
    }
}

impl Duplicate for PathPart {
    fn duplicate(&self, alloc: Global) -> Result<Self, Memory> {
        match self {
            PathPart::Member(name) => Ok(PathPart::Member(name.duplicate(alloc)?)),
            PathPart::Place(place) => Ok(PathPart::Place(*place)),
        }
    }
}
