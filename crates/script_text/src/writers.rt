// Tokens, keys and rows as they are printed, each appended to one buffer.
ghost use Rattle.std.specs.Prelude.{◌≡◌, ◌++◌, ℕ, List, All, OnOk, ⊤, true, decimal, map};
ghost use Rattle.std.specs.List.{join_with_byte};
ghost use Rattle.std.specs.Fmt.{signed_decimal};
ghost use Rattle.aria_base.specs.Texts.{IsText};
ghost use Rattle.script_text.specs.Numbers.{is_i64};
ghost use Rattle.script_text.specs.Tokens.{quoted, tuple_token, list_token, part_token, value_token, arg_token, behind, spaced};
ghost use Rattle.script_text.specs.Written.{key_text, row_line, IsPart, IsValue, IsTuple, IsArg, IsParts, IsCells};

use aria_base::{Arg, Key, Memory, Part, Row, Schema, Tuple, Txt, Value};
use itoa::{Buffer, Integer};

/// What is printed as one token.
pub trait Token {
    /// Its bytes.
    ghost text: { Self → List ℕ };

    /// What each value of the type is.
    ghost IsOne: { Self → Type 0 };

    /// Appends the token.
    fn append(&self, out: &mut Vec<u8>) -> Result<(), Memory>
        ensures text { OnOk result (out.new.items ≡ out.old.items ++ text self.now) }
        ensures one { OnOk result (IsOne self.now) };
}

impl Token for u64 {
    ghost text = { decimal };

    ghost IsOne = { λ _. ⊤ };

    fn append(&self, out: &mut Vec<u8>) -> Result<(), Memory> {
        append_number(out, *self)
    }
}

impl Token for i64 {
    ghost text = { signed_decimal };

    ghost IsOne = { λ number. is_i64 number ≡ true };

    fn append(&self, out: &mut Vec<u8>) -> Result<(), Memory> {
        append_signed(out, *self)
    }
}

impl Token for Tuple {
    ghost text = { tuple_token };

    ghost IsOne = { IsTuple };

    fn append(&self, out: &mut Vec<u8>) -> Result<(), Memory> {
        append_joined(out, b',', self.as_slice())
    }
}

impl Token for Part {
    ghost text = { part_token };

    ghost IsOne = { IsPart };

    fn append(&self, out: &mut Vec<u8>) -> Result<(), Memory> {
        match self {
            Part::Int(number) => append_signed(out, *number),
            Part::Text(text) => append_quoted(out, text),
        }
    }
}

impl Token for Value {
    ghost text = { value_token };

    ghost IsOne = { IsValue };

    fn append(&self, out: &mut Vec<u8>) -> Result<(), Memory> {
        match self {
            Value::Int(number) => append_signed(out, *number),
            Value::Text(text) => append_quoted(out, text),
        }
    }
}

impl Token for Arg {
    ghost text = { arg_token };

    ghost IsOne = { IsArg };

    fn append(&self, out: &mut Vec<u8>) -> Result<(), Memory> {
        match self {
            Arg::Int(number) => append_signed(out, *number),
            Arg::Text(text) => append_quoted(out, text),
            Arg::List(tuples) => append_list(out, tuples.as_slice()),
        }
    }
}

/// Appends a number in decimal digits.
pub fn append_number<I: Integer>(out: &mut Vec<u8>, number: I) -> Result<(), Memory>
    ensures { OnOk result (out.new.items ≡ out.old.items ++ I.text number) }
{
    let mut buffer = Buffer::new();
    out.extend_from_slice(buffer.format(number).as_bytes())?;
    Ok(())
}

/// Appends a number with its sign.
fn append_signed(out: &mut Vec<u8>, number: i64) -> Result<(), Memory>
    ensures text { OnOk result (out.new.items ≡ out.old.items ++ signed_decimal number) }
    ensures one { OnOk result (is_i64 number ≡ true) }
{
    append_number(out, number)
}

/// Appends a text between quotes.
fn append_quoted(out: &mut Vec<u8>, text: &Txt) -> Result<(), Memory>
    ensures text { OnOk result (out.new.items ≡ out.old.items ++ quoted text.now) }
    ensures one { OnOk result (IsText text.now) }
{
    out.push(b'"')?;
    out.extend_from_slice(text.as_slice())?;
    out.push(b'"')?;
    Ok(())
}

/// Appends a list of tuples.
fn append_list(out: &mut Vec<u8>, tuples: &[Tuple]) -> Result<(), Memory>
    ensures text { OnOk result (out.new.items ≡ out.old.items ++ list_token tuples.now) }
    ensures one { OnOk result (All IsTuple tuples.now) }
{
    out.push(b'[')?;
    append_joined(out, b';', tuples)?;
    out.push(b']')?;
    Ok(())
}

/// Appends the tokens of these items, each behind a byte.
fn append_behind<T: Token>(out: &mut Vec<u8>, byte: u8, items: &[T]) -> Result<(), Memory>
    ensures text { OnOk result (out.new.items ≡ out.old.items ++ behind byte T.text items.now) }
    ensures all { OnOk result (All T.IsOne items.now) }
{
    for item in items {
        out.push(byte)?;
        item.append(out)?;
    }
    Ok(())
}

/// Appends the tokens of these items, with a byte between them.
fn append_joined<T: Token>(out: &mut Vec<u8>, byte: u8, items: &[T]) -> Result<(), Memory>
    ensures text { OnOk result (out.new.items ≡ out.old.items ++ join_with_byte byte (map T.text items.now)) }
    ensures all { OnOk result (All T.IsOne items.now) }
{
    let [first, rest @ ..] = items else {
        return Ok(());
    };
    first.append(out)?;
    append_behind(out, byte, rest)
}

/// Appends the tokens of these items, each behind a space. Where there was no memory, a part of them may
/// stand in `out`, here and in each call below.
pub fn append_tokens<T: Token>(out: &mut Vec<u8>, items: &[T]) -> Result<(), Memory>
    ensures text { OnOk result (out.new.items ≡ out.old.items ++ spaced T.text items.now) }
    ensures all { OnOk result (All T.IsOne items.now) }
{
    append_behind(out, b' ', items)
}

/// Appends a key: its table's name, and its parts, each behind a space. A key whose table has no name
/// prints none.
pub fn append_key(out: &mut Vec<u8>, tables: &Schema, key: &Key) -> Result<(), Memory>
    ensures text { OnOk result (out.new.items ≡ out.old.items ++ key_text tables.now key.now) }
    ensures parts { OnOk result (IsParts key.now.parts) }
{
    if let Some(table) = tables.as_slice().get(usize::from(key.table)) {
        out.extend_from_slice(table.name.as_slice())?;
    }
    append_tokens(out, key.parts.as_slice())
}

/// Appends a row's line, without a line feed.
pub fn append_row(out: &mut Vec<u8>, tables: &Schema, key: &Key, row: &Row) -> Result<(), Memory>
    ensures text { OnOk result (out.new.items ≡ out.old.items ++ row_line tables.now key.now row.now) }
    ensures parts { OnOk result (IsParts key.now.parts) }
    ensures cells { OnOk result (IsCells row.now) }
{
    out.extend_from_slice(b"row ")?;
    append_key(out, tables, key)?;
    out.extend_from_slice(b" =")?;
    append_tokens(out, row.as_slice())
}
