// Why a procedure is not well typed.
ghost use Rattle.std.specs.Prelude.{Some};
ghost use Rattle.proc_lang.specs.Flaws.{wrong_text};

use std::fmt;

/// The statement's table is not there.
pub const UNKNOWN_TABLE: u8 = 1;

/// The key does not have as many parts as the table's keys.
pub const KEY_LENGTH: u8 = 2;

/// There are not as many columns, or registers for them, as the table has columns.
pub const COLUMNS: u8 = 3;

/// A value is of another kind than is wanted there.
pub const KIND: u8 = 4;

/// A register is not there, or it is read where it may not be set.
pub const REGISTER: u8 = 5;

/// An argument is not there, a list stands in the place of a plain one or the other way round, or an
/// item is no number of the tuple, or stands in no `each`.
pub const ARGUMENT: u8 = 6;

/// An `if` or `each` lies in four blocks already, or an `each` in another one.
pub const NESTING: u8 = 7;

/// Where a procedure first fails to be well typed, and why.
#[derive(Clone, Copy, Debug, PartialEq, Eq)]
pub struct Wrong {
    /// The procedure's number.
    pub proc: u16,
    /// The statement's number, from 0: statements are counted as they are written, an `if` or `each`
    /// before what its blocks hold.
    pub place: u32,
    /// One of the seven causes above.
    pub cause: u8,
}

impl fmt::Display for Wrong {
    ghost output = { λ wrong. Some (wrong_text wrong) };

    fn fmt<W: fmt::Write>(&self, f: &mut fmt::Formatter<W>) -> fmt::Result {
        let Wrong { proc, place, cause } = *self;
        write!(
            f,
            "procedure {proc} fails at statement {place}, cause {cause}"
        )
    }
}
