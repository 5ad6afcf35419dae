// Values, their kinds, and rows.
ghost use Rattle.std.specs.Prelude.{◌≡◌, IfOk};
ghost use Rattle.aria_base.specs.Kinds.{value_kind};
ghost use Rattle.aria_base.specs.declared.values.Kind.{Kind};

use crate::copies::Duplicate;
use crate::limits::MOST_COLUMNS;
use crate::lists::{Few, Items};
use crate::memory::Memory;
use crate::texts::Txt;
use std::alloc::Global;

/// The kind of a value or of a key's part.
#[derive(Clone, Copy, Debug, PartialEq, Eq)]
pub enum Kind {
    /// A whole number of 64 bits with a sign.
    Int,
    /// A text.
    Text,
}

/// The kinds of a key's parts or of a row's columns, from the left.
pub type Kinds = Items<Kind>;

/// A value of a row or a register.
#[derive(Debug, Drop, PartialEq, Eq)]
pub enum Value {
    /// A whole number.
    Int(i64),
    /// A text of at most 500 bytes.
    Text(Txt),
}

/// A row: its columns from the left, at most [`MOST_COLUMNS`].
pub type Row = Few<Value, 0, MOST_COLUMNS>;

/// What has a kind.
pub trait Kinded {
    /// Its kind.
    ghost kind_of: { Self → Kind };

    /// The kind of this one.
    fn kind(&self) -> Kind
        ensures { result ≡ kind_of self.now };
}

impl Kinded for Value {
    ghost kind_of = { value_kind };

    fn kind(&self) -> Kind {
        match self {
            Value::Int(_) => Kind::Int,
            Value::Text(_) => Kind::Text,
        }
    }
}

impl Duplicate for Kind {
    fn duplicate(&self, _alloc: Global) -> Result<Self, Memory> {
        Ok(*self)
    }
}

impl Duplicate for Value {
    fn duplicate(&self, alloc: Global) -> Result<Self, Memory> {
        match self {
            Value::Int(number) => Ok(Value::Int(*number)),
            Value::Text(text) => Ok(Value::Text(text.duplicate(alloc)?)),
        }
    }
}

/// A row equal to this one, or that there was no memory.
pub fn copy_row(alloc: Global, row: &Row) -> Result<Row, Memory>
    ensures { IfOk result (λ copy. copy ≡ row.now) }
{
    row.duplicate(alloc)
}
