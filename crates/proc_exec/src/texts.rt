// Operations on the texts of values.
ghost use Rattle.std.specs.Prelude.{◌≡◌, ◌++◌, ◌≤◌, length, take, min, IfOk, not, slice_index_or};
ghost use Rattle.std.specs.declared.result.Result.TheVariants.{Ok};
ghost use Rattle.std.specs.Fmt.{signed_decimal};
ghost use Rattle.aria_base.specs.Texts.{IsText};
ghost use Rattle.aria_base.specs.declared.limits.TheConstants.{LONGEST_TEXT};
ghost use Rattle.proc_lang.specs.Values.{text_of, same_value, joined, front};
ghost use Rattle.proc_exec.specs.Faults.{Computes};

use crate::early_ends::EvalFault;
use aria_base::{LONGEST_TEXT, Memory, Txt, TxtRefused, Value};
use proc_lang::Trap;
use std::alloc::Global;

/// The bytes of a text, none of a number.
fn text(value: &Value) -> &[u8]
    ensures bytes { result.now ≡ text_of value.now }
    ensures text { IsText result.now }
{
    match value {
        Value::Int(_) => &[],
        Value::Text(text) => text.as_slice(),
    }
}

/// Whether the two are equal.
pub fn same(pair: &(Value, Value)) -> bool
    ensures { result ≡ same_value pair.now.0 pair.now.1 }
{
    match (&pair.0, &pair.1) {
        (Value::Int(x), Value::Int(y)) => *x == *y,
        (Value::Text(x), Value::Text(y)) => x.as_slice() == y.as_slice(),
        _ => false,
    }
}

/// The text of these bytes.
#[tactic(auto, using(crate::proofs::TextFacts::no_bad_byte))]
pub fn kept(alloc: Global, bytes: &[u8]) -> Result<Txt, Memory>
    requires { IsText bytes.now }
    ensures { IfOk result (λ text. text ≡ bytes.now) }
{
    match Txt::of(alloc, bytes) {
        Ok(text) => Ok(text),
        Err(TxtRefused::Memory) => Err(Memory),
        Err(TxtRefused::TooLong { .. } | TxtRefused::BadByte { .. }) => unreachable!(),
    }
}

/// At most so many first bytes of the two joined, at most as many as a text may have.
#[tactic(auto, using(crate::proofs::TextFacts::text_front))]
fn first_bytes(alloc: Global, first: &[u8], second: &[u8], most: usize) -> Result<Txt, Memory>
    requires first { IsText first.now }
    requires second { IsText second.now }
    requires most { most ≤ LONGEST_TEXT }
    ensures { IfOk result (λ text. text ≡ take most (first.now ++ second.now)) }
{
    let mut bytes = Vec::with_capacity(alloc, first.len() + second.len())?;
    bytes.extend_from_slice(first)?;
    bytes.extend_from_slice(second)?;
    bytes.truncate(most);
    kept(alloc, &bytes)
}

/// The two joined; traps where that is no text.
#[tactic(auto, using(crate::proofs::TextFacts::joined_whole))]
pub fn join(alloc: Global, pair: &(Value, Value)) -> Result<Value, EvalFault>
    ensures { Computes result (joined (text_of pair.now.0) (text_of pair.now.1)) }
{
    let first = text(&pair.0);
    let second = text(&pair.1);
    if LONGEST_TEXT < first.len() + second.len() {
        return Err(EvalFault::Trap(Trap::Long));
    }
    Ok(Value::Text(first_bytes(alloc, first, second, LONGEST_TEXT)?))
}

/// The first bytes of the two joined, at most so many and no more than a text may have.
pub fn front_of(alloc: Global, pair: &(Value, Value), most: u32) -> Result<Value, Memory>
    ensures { IfOk result (λ made. made ≡ front (text_of pair.now.0) (text_of pair.now.1) most) }
{
    let most = (most as usize).min(LONGEST_TEXT);
    Ok(Value::Text(first_bytes(alloc, text(&pair.0), text(&pair.1), most)?))
}

/// The number's printed form.
#[tactic(auto, using(crate::proofs::TextFacts::decimal_is_text, crate::proofs::TextFacts::minus_is_text))]
pub fn show(alloc: Global, number: i64) -> Result<Txt, Memory>
    ensures { IfOk result (λ text. text ≡ signed_decimal number) }
{
    let digits = number.unsigned_abs().to_string(alloc)?;
    if 0 <= number {
        return kept(alloc, digits.as_bytes());
    }
    let mut printed = Vec::with_capacity(alloc, digits.len() + 1)?;
    printed.push(b'-')?;
    printed.extend_from_slice(digits.as_bytes())?;
    kept(alloc, &printed)
}
