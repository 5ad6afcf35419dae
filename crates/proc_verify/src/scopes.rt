// What a statement may name.
ghost use Rattle.std.specs.Prelude.{◌≡◌, ◌<◌, slice_get};
ghost use Rattle.proc_lang.specs.Typing.{found, argument_kind, argument_width, item_kind, inside, inside_each, scope_of};
ghost use Rattle.proc_verify.specs.Scopes.{seen};

use crate::causes::Typed;
use aria_base::{Kind, Schema};
use proc_lang::{ARGUMENT, ArgKind, MOST_BLOCKS, Proc, REGISTER};

/// The tables and the procedure around a statement, and the blocks that it lies in.
#[derive(Clone, Copy)]
pub struct CheckScope<'a> {
    /// The tables.
    pub schema: &'a Schema,
    /// The procedure.
    pub proc: &'a Proc,
    /// Inside an `each`, how many numbers its tuples have.
    pub tuple: Option<u8>,
    /// How many blocks lie around the statement.
    pub blocks: usize,
}

impl<'a> CheckScope<'a> {
    /// The scope of the procedure's body.
    pub fn of(schema: &'a Schema, proc: &'a Proc) -> CheckScope<'a>
        ensures { seen result ≡ scope_of schema.now proc.now }
    {
        CheckScope {
            schema,
            proc,
            tuple: None,
            blocks: 0,
        }
    }

    /// The scope of a block inside.
    pub fn inside(&self) -> CheckScope<'a>
        requires { self.now.blocks < MOST_BLOCKS }
        ensures { seen result ≡ inside (seen self.now) }
    {
        CheckScope {
            schema: self.schema,
            proc: self.proc,
            tuple: self.tuple,
            blocks: self.blocks + 1,
        }
    }

    /// The scope of a block inside, which goes over tuples of so many numbers.
    pub fn inside_each(&self, width: u8) -> CheckScope<'a>
        requires { self.now.blocks < MOST_BLOCKS }
        ensures { seen result ≡ inside_each (seen self.now) width }
    {
        CheckScope {
            schema: self.schema,
            proc: self.proc,
            tuple: Some(width),
            blocks: self.blocks + 1,
        }
    }

    /// The kind of an argument that is no list.
    pub fn argument_kind(&self, argument: u32) -> Typed<Kind>
        ensures { result ≡ argument_kind (seen self.now) argument }
    {
        match self.proc.args.as_slice().get(argument as usize) {
            Some(ArgKind::Int) => Ok(Kind::Int),
            Some(ArgKind::Text) => Ok(Kind::Text),
            Some(ArgKind::List(_)) | None => Err(ARGUMENT),
        }
    }

    /// How many numbers the tuples of a list argument have.
    pub fn argument_width(&self, argument: u32) -> Typed<u8>
        ensures { result ≡ argument_width (seen self.now) argument }
    {
        match self.proc.args.as_slice().get(argument as usize) {
            Some(ArgKind::List(width)) => Ok(*width),
            Some(ArgKind::Int | ArgKind::Text) | None => Err(ARGUMENT),
        }
    }

    /// The kind of a number of the current tuple.
    pub fn item_kind(&self, item: u32) -> Typed<Kind>
        ensures { result ≡ item_kind (seen self.now) item }
    {
        match self.tuple {
            Some(width) if item < u32::from(width) => Ok(Kind::Int),
            _ => Err(ARGUMENT),
        }
    }

    /// The kind of what a register holds, set or not.
    pub fn register_holds(&self, register: u32) -> Typed<Kind>
        ensures { result ≡ found REGISTER (slice_get (seen self.now).regs register) }
    {
        match self.proc.regs.as_slice().get(register as usize) {
            Some(kind) => Ok(*kind),
            None => Err(REGISTER),
        }
    }
}
